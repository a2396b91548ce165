//! The code of processes.

ghost use Rattle.std.specs.Prelude.{◌≡◌, ◌≤◌, IfOk, All, length, map};
ghost use Rattle.pb_code.specs.View.{process_view, process_labels_view};
ghost use Rattle.pb_generator.specs.Emitted.{seen};
ghost use Rattle.pb_generator.specs.Generate.{arms_code, arms_entries, process_code};
ghost use Rattle.pb_generator.specs.Lines.{arms_lines, process_labels};
ghost use Rattle.pb_generator.specs.Sizes.{IsGeneratableProcess};
ghost use Rattle.pb_names.specs.Program.{arms_in};
ghost use Rattle.pb_names.specs.View.{block_view, process_view as plain_process};

use crate::arms::arms_of;
use crate::names::copy_names;
use crate::writer::Writer;
use pb_base::NoMemory;
use pb_base::limits::{MAX_ARMS, MAX_PLACES};
use pb_code::{ProcessCode, ProcessLabels};
use pb_names::{Process, Stmt};
use std::alloc::{Allocator, Global};

/// What is written of a process.
#[derive(Drop)]
struct Written {
    code: ProcessCode,
    labels: ProcessLabels,
}

/// The code of arms, and the place at which each of them begins.
#[derive(Drop)]
struct Body {
    writer: Writer,
    entries: Vec<u16>,
}

/// Writes arms one after another.
fn write_arms<A: Allocator>(alloc: Global, arms: &Vec<&Vec<Stmt<A>, A>>) -> Result<Body, NoMemory>
    requires small { length (arms_code 0 (map (λ arm. block_view arm.now.items) arms.now.items)) ≤ MAX_PLACES }
    requires few_arms { All (λ arm. length (arms_in arm) ≤ MAX_ARMS) (map (λ arm. block_view arm.now.items) arms.now.items) }
    ensures code { IfOk result (λ w. seen w.writer
        ≡ arms_code 0 (map (λ arm. block_view arm.now.items) arms.now.items)) }
    ensures lines { IfOk result (λ w. w.writer.lines.items
        ≡ arms_lines (map (λ arm. block_view arm.now.items) arms.now.items)) }
    ensures entries { IfOk result (λ w. w.entries.items
        ≡ arms_entries 0 (map (λ arm. block_view arm.now.items) arms.now.items)) }
{
    let mut writer = Writer::new(alloc);
    let mut entries = Vec::new(alloc);
    for arm in arms {
        entries.push(writer.place())?;
        writer.put_arm(arm)?;
    }
    Ok(Body { writer, entries })
}

fn write_process<A: Allocator>(alloc: Global, process: &Process<A>) -> Result<Written, NoMemory>
    requires { IsGeneratableProcess (plain_process process.now) }
    ensures code { IfOk result (λ w. process_view w.code ≡ process_code (plain_process process.now)) }
    ensures labels { IfOk result (λ w. process_labels_view w.labels ≡ process_labels (plain_process process.now)) }
{
    let arms = arms_of(alloc, process)?;
    let Body { writer, entries } = write_arms(alloc, &arms)?;
    let Writer {
        instrs,
        lines,
        bundles,
    } = writer;
    let code = ProcessCode {
        integers: process.integers.len() as u8,
        entries,
        bundles,
        instrs,
    };
    let integers = copy_names(alloc, &process.integers)?;
    Ok(Written {
        code,
        labels: ProcessLabels { lines, integers },
    })
}

/// The code and the labels of processes, each by its number.
#[derive(Drop)]
pub(crate) struct Processes {
    pub(crate) code: Vec<ProcessCode>,
    pub(crate) labels: Vec<ProcessLabels>,
}

/// Returns what is written of each process.
pub(crate) fn write_processes<A: Allocator>(
    alloc: Global,
    processes: &Vec<Process<A>, A>,
) -> Result<Processes, NoMemory>
    requires { All IsGeneratableProcess (map plain_process processes.now.items) }
    ensures code { IfOk result (λ w. map process_view w.code.items
        ≡ map process_code (map plain_process processes.now.items)) }
    ensures labels { IfOk result (λ w. map process_labels_view w.labels.items
        ≡ map process_labels (map plain_process processes.now.items)) }
{
    let mut code = Vec::new(alloc);
    let mut labels = Vec::new(alloc);
    for process in processes {
        let written = write_process(alloc, process)?;
        code.push(written.code)?;
        labels.push(written.labels)?;
    }
    Ok(Processes { code, labels })
}

//! All warnings of a program.

ghost use Rattle.std.specs.Prelude.{◌≡◌, ◌++◌, IfOk, OnOk, length, map};
ghost use Rattle.std.specs.List.{flat_map};
ghost use Rattle.pb_base.specs.Tables.{width_of};
ghost use Rattle.pb_tree.specs.View.{process_view, program_view};
ghost use Rattle.pb_warnings.specs.Warnings.{process_warnings, program_warnings, warning};

use crate::arms::add_list;
use crate::claimed::add_resources;
use crate::integers::add_integers;
use crate::warning::Warning;
use pb_base::{Claims, NoMemory};
use pb_tree::{Process, Program};
use std::alloc::{Allocator, Global};

/// Appends the warnings of a process.
fn add_process<A: Allocator>(
    alloc: Global,
    out: &mut Vec<Warning>,
    text: &[u8],
    process: &Process<A>,
) -> Result<(), NoMemory>
    ensures { OnOk result (map warning out.new.items
        ≡ map warning out.old.items ++ process_warnings text.now (process_view process.now)) }
{
    add_integers(alloc, out, text, process)?;
    add_list(out, &process.body)
}

/// Appends the warnings of all processes.
fn add_processes<A: Allocator>(
    alloc: Global,
    out: &mut Vec<Warning>,
    text: &[u8],
    processes: &Vec<Process<A>, A>,
) -> Result<(), NoMemory>
    ensures { OnOk result (map warning out.new.items ≡ map warning out.old.items
        ++ flat_map (process_warnings text.now) (map process_view processes.now.items)) }
{
    for process in processes {
        add_process(alloc, out, text, process)?;
    }
    Ok(())
}

/// Returns what the program of a text, which has these claims, is warned of, in the order of the text: parbegins with one
/// arm, integers that no expression of their process has, and resources with more units than all claims on them. The
/// error comes only if `alloc` is out of memory.
pub fn warnings_of<A: Allocator>(
    alloc: Global,
    text: &[u8],
    program: &Program<A>,
    claims: &Claims,
) -> Result<Vec<Warning>, NoMemory>
    requires { length (program_view program.now).resources ≡ width_of claims.now }
    ensures { IfOk result (λ found. map warning found.items
        ≡ program_warnings text.now (program_view program.now) claims.now) }
{
    let mut found = Vec::new(alloc);
    add_resources(alloc, &mut found, text, claims, &program.resources)?;
    add_processes(alloc, &mut found, text, &program.processes)?;
    Ok(found)
}

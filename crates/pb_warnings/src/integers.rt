//! The integers that are never read.

ghost use Rattle.std.specs.Prelude.{◌≡◌, ◌++◌, OnOk, map};
ghost use Rattle.std.specs.List.{flat_map};
ghost use Rattle.pb_tree.specs.View.{name_view, process_view};
ghost use Rattle.pb_warnings.specs.Warnings.{unread, warning};

use crate::claimed::line_of;
use crate::reads::list_reads;
use crate::warning::Warning;
use pb_base::NoMemory;
use pb_tree::{Name, Process};
use std::alloc::{Allocator, Global};

/// Appends the warning of an integer, if no statement of its process reads it.
fn add_integer<A: Allocator>(
    alloc: Global,
    out: &mut Vec<Warning>,
    text: &[u8],
    process: &Process<A>,
    integer: &Name<A>,
) -> Result<(), NoMemory>
    ensures { OnOk result (map warning out.new.items
        ≡ map warning out.old.items ++ unread text.now (process_view process.now) (name_view integer.now)) }
{
    if list_reads(&process.body, &integer.text) {
        return Ok(());
    }
    out.push(Warning::NeverRead {
        line: line_of(text, integer.at),
        process: Vec::from_slice(alloc, &process.name.text)?,
        integer: Vec::from_slice(alloc, &integer.text)?,
    })?;
    Ok(())
}

/// Appends the warnings of the integers of a process.
pub(crate) fn add_integers<A: Allocator>(
    alloc: Global,
    out: &mut Vec<Warning>,
    text: &[u8],
    process: &Process<A>,
) -> Result<(), NoMemory>
    ensures { OnOk result (map warning out.new.items ≡ map warning out.old.items
        ++ flat_map (unread text.now (process_view process.now)) (map name_view process.now.integers.items)) }
{
    for integer in &process.integers {
        add_integer(alloc, out, text, process, integer)?;
    }
    Ok(())
}

//! The lines of a text, each told by itself.

ghost use Rattle.std.specs.Prelude.{◌≡◌, ◌++◌, ◌≤◌, IfOk, OnOk, length, map, take, false};
ghost use Rattle.pb_base.specs.Lines.{line};
ghost use Rattle.pb_json_lines.specs.JsonLines.{object_of};
ghost use Rattle.pb_json_lines.specs.Live.{EndsLine, lines_alone, told_alone};

use crate::form::Dialect;
use crate::lines::{line_feed, lines_of};
use crate::text::put_object;
use pb_base::NoMemory;
use pb_base::writing::put;
use std::alloc::Global;

/// Appends the object of a line, as a line.
fn put_alone(out: &mut Vec<u8>, dialect: Dialect, text: &[u8]) -> Result<(), NoMemory>
    ensures { OnOk result (out.new.items ≡ out.old.items ++ line (object_of dialect false text.now)) }
{
    put_object(out, dialect, false, text)?;
    put(out, b"\n")
}

/// Appends the objects of those lines of a text that have ended, and returns how many bytes these are.
pub(crate) fn put_ended(out: &mut Vec<u8>, dialect: Dialect, text: &[u8]) -> Result<usize, NoMemory>
    ensures within { IfOk result (λ n. n ≤ length text.now) }
    ensures ended { IfOk result (λ n. EndsLine (take n text.now)) }
    ensures told { IfOk result (λ n. out.new.items ≡ out.old.items ++ told_alone dialect (take n text.now)) }
{
    let mut count = 0;
    loop {
        let rest = &text[count..];
        let Some(at) = line_feed(rest) else {
            return Ok(count);
        };
        put_alone(out, dialect, &rest[..at])?;
        count += at + 1;
    }
}

/// Appends the objects of all lines of a text. The line feed of the last may be missing.
#[tactic(auto, unfolding(crate::specs::Live::told_alone))]
pub(crate) fn put_all(
    alloc: Global,
    out: &mut Vec<u8>,
    dialect: Dialect,
    text: &[u8],
) -> Result<(), NoMemory>
    ensures { OnOk result (out.new.items ≡ out.old.items ++ told_alone dialect text.now) }
{
    let lines = lines_of(alloc, text)?;
    for i in 0..lines.len() {
        put_alone(out, dialect, lines[i])?;
    }
    Ok(())
}

//! What a person is told of an input that does not name files.

ghost use Rattle.std.specs.Prelude.{◌≡◌, IfOk, IfSome};
ghost use Rattle.pb_findings.specs.Reports.{files_message};

use crate::entry::{First, Next, first_layout, next_entry};
use pb_base::{MemoryInput, NoMemory};
use std::alloc::Global;

/// Of an input of more bytes a first part is known here, of which it is not said what it names.
const MOST: usize = 8_388_608;

/// What a person is told.
const MESSAGE: &[u8] =
    b"error input: these are not messages that name a layout and files\n  = note: the first one is `gcc`, `json` or `sarif VERSION`, and two follow for each file: `file NAME` and its bytes, `unread NAME` and why, or `long NAME` and nothing\n  = note: a message is the line `Content-Length: N`, an empty line, both with a carriage return at the end, and N bytes\n  = hint: `parbegin check --format json FILE ..` writes them\n";

/// Returns whether the rest of an input names files, as far as there is memory to see it.
fn are_files(alloc: Global, input: &mut MemoryInput<'_>) -> bool {
    loop {
        match next_entry(alloc, input) {
            Next::Entry(_) => {}
            Next::End | Next::OutOfMemory => return true,
            Next::NoEntry => return false,
        }
    }
}

/// Returns whether an input names a layout and files, as far as there is memory to see it.
fn names_files(alloc: Global, bytes: &[u8]) -> bool {
    let mut input = MemoryInput::new(bytes);
    match first_layout(alloc, &mut input) {
        First::Layout(_) => are_files(alloc, &mut input),
        First::NoLayout => false,
        First::OutOfMemory => true,
    }
}

/// Returns what a person is told of an input that was refused, if it does not name files.
pub fn input_message(alloc: Global, bytes: &[u8]) -> Option<Result<Vec<u8>, NoMemory>>
    ensures { IfSome result (λ made. IfOk made (λ message. message.items ≡ files_message)) }
{
    if bytes.len() > MOST || names_files(alloc, bytes) {
        return None;
    }
    Some(message(alloc))
}

/// Returns what a person is told.
fn message(alloc: Global) -> Result<Vec<u8>, NoMemory>
    ensures { IfOk result (λ message. message.items ≡ files_message) }
{
    Ok(Vec::from_slice(alloc, MESSAGE)?)
}

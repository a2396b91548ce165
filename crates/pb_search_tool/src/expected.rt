//! The message of what `outcomes` refused.

ghost use Rattle.std.specs.Prelude.{◌≤◌, IfOk, length};
ghost use Rattle.pb_base.specs.declared.limits.TheConstants.{MAX_INPUT as most};
ghost use Rattle.pb_messages.specs.Said.{SaysWithin};
ghost use Rattle.pb_search_tool.specs.Messages.{SaysOfExpected, SaysOfExpectedText};
ghost use Rattle.pb_search_tool.specs.Search.{tells_outcomes};

use crate::prints::prints_message;
use pb_base::NoMemory;
use pb_base::limits::MAX_INPUT;
use pb_command_io::two_parts;
use pb_message_excerpts::place_of;
use pb_message_stops::Lines;
use pb_messages::{Reading, long_message, message_of, text_message};
use std::alloc::Global;

/// Returns the message of what `outcomes` refused, by whether it was to compare prints.
pub(crate) fn outcomes_message(
    alloc: Global,
    expect: bool,
    bytes: &[u8],
) -> Result<Vec<u8>, NoMemory>
    ensures { IfOk result (λ message. tells_outcomes expect bytes.now message.items) }
{
    if expect {
        expected_message(alloc, bytes)
    } else {
        message_of(alloc, Reading::Text, bytes)
    }
}

/// Returns the message of a text and the print lines after it; nothing if there is nothing to be said of them.
pub fn expected_message(alloc: Global, bytes: &[u8]) -> Result<Vec<u8>, NoMemory>
    ensures { IfOk result (λ message. SaysWithin SaysOfExpected bytes.now message.items) }
{
    if bytes.len() > MAX_INPUT {
        return long_message(alloc);
    }
    parts_message(alloc, bytes)
}

/// Returns the message of the two parts of an input that is not too long.
fn parts_message(alloc: Global, bytes: &[u8]) -> Result<Vec<u8>, NoMemory>
    requires { length bytes.now ≤ most }
    ensures { IfOk result (λ message. SaysOfExpected bytes.now message.items) }
{
    let (text, lines) = two_parts(bytes);
    let before = place_of(bytes, text.len().min(bytes.len())).line;
    expected_text_message(
        alloc,
        text,
        Lines {
            text: lines,
            before,
        },
    )
}

/// Returns the message of a text, or of print lines over its code.
fn expected_text_message(alloc: Global, text: &[u8], lines: Lines<'_>) -> Result<Vec<u8>, NoMemory>
    ensures { IfOk result (λ message.
        SaysOfExpectedText lines.entry.before text.now lines.entry.text.now message.items) }
{
    match text_message(alloc, "", text)? {
        Ok(compiled) => prints_message(alloc, compiled.verified(), lines),
        Err(message) => Ok(message),
    }
}

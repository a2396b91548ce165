//! The message of a refused input of `debug --live`, whose commands are read as they come.

ghost use Rattle.std.specs.Prelude.{◌≡◌, ◌↔◌, ◌⊎◌, IfOk, IsTrue};
ghost use Rattle.pb_messages.specs.LiveInputs.{IsLongBefore, SaysOfLiveInput, long_part};

use crate::message::debugged_message;
use pb_base::limits::MAX_INPUT;
use pb_base::{Lending, NoMemory};
use pb_command_io::two_parts;
use std::alloc::Global;

/// What is said if one of the two parts before the commands is too long.
const LONG_PART: &[u8] =
    b"error input: the text or the pick lines, with the line %% after them, are longer than 4194304 bytes\n";

/// Returns the message of a refused input whose commands are read as they come: each of the two parts before
/// them may have 4,194,304 bytes, with the line `%%` after it. Its picks are made under a lending.
pub fn live_message(alloc: Global, lending: Lending, bytes: &[u8]) -> Result<Vec<u8>, NoMemory>
    ensures { IfOk result (λ message. SaysOfLiveInput lending bytes.now message.items) }
{
    let (_, rest) = two_parts(bytes);
    let (_, commands) = two_parts(rest);
    if has_long_part(bytes, rest, commands) {
        return long_message(alloc);
    }
    debugged_message(alloc, lending, bytes)
}

/// Returns whether one of the two parts before the commands is too long.
fn has_long_part(bytes: &[u8], rest: &[u8], commands: &[u8]) -> bool
    ensures { IsTrue result ↔ (IsLongBefore bytes.now rest.now ⊎ IsLongBefore rest.now commands.now) }
{
    is_long_before(bytes, rest) || is_long_before(rest, commands)
}

/// Returns whether what is before the rest of some bytes is too long.
fn is_long_before(bytes: &[u8], rest: &[u8]) -> bool
    ensures { IsTrue result ↔ IsLongBefore bytes.now rest.now }
{
    MAX_INPUT < bytes.len().saturating_sub(rest.len())
}

/// Returns the message of a part that is too long.
fn long_message(alloc: Global) -> Result<Vec<u8>, NoMemory>
    ensures { IfOk result (λ message. message.items ≡ long_part) }
{
    Ok(Vec::from_slice(alloc, LONG_PART)?)
}

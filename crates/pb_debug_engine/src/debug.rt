//! The command `debug`, over any input and output.

ghost use Rattle.std.specs.Prelude.{◌≤◌, IfSome, length};
ghost use Rattle.pb_debug_engine.specs.Debugs.{SaysOfDebug};
ghost use Rattle.pb_command_io.specs.Answers.{Tells};
ghost use Rattle.pb_command_io.specs.Faults.{TellsFaults, TellsWriteFaults};
ghost use Rattle.pb_command_io.specs.Inputs.{SaysOfInput};

use crate::parts::debug_parts;
use pb_base::limits::MAX_INPUT;
use pb_base::{Input, Lending, MemoryInput, Output};
use pb_command_io::{Status, read_input, two_parts};
use std::alloc::Global;

/// Debugs the text or the object that the input begins with under a lending: makes the picks of the pick lines
/// after the first line `%%`, and writes the answers to the commands after the second. The first part is an object if
/// it begins with `PBO `. If it, the pick lines or their picks are refused, only the refusal line is written.
///
/// The status is `Done` at the end of the commands, whatever they were. After a read that failed nothing is
/// written; after a write that failed, a prefix of the output.
pub fn debug_engine<I: Input, O: Output>(
    alloc: Global,
    lending: Lending,
    input: &mut I,
    output: &mut O,
) -> Status
    ensures text { IfSome (I.rest input.old) (λ bytes.
        Tells (SaysOfInput (SaysOfDebug lending) bytes) (O.written output.old) (O.written output.new) result) }
    ensures faults { TellsFaults
        (record { reads = I.failures input.old; writes = O.failures output.old; written = O.written output.old })
        (record { reads = I.failures input.new; writes = O.failures output.new; written = O.written output.new })
        result }
{
    match read_input(alloc, input, output) {
        Ok(bytes) => debug_bytes(alloc, lending, bytes.as_slice(), output),
        Err(status) => status,
    }
}

/// Debugs a whole input.
fn debug_bytes<O: Output>(alloc: Global, lending: Lending, bytes: &[u8], output: &mut O) -> Status
    requires { length bytes.now ≤ MAX_INPUT }
    ensures text { Tells (SaysOfInput (SaysOfDebug lending) bytes.now) (O.written output.old) (O.written output.new) result }
    ensures faults { TellsWriteFaults (O.failures output.old) (O.failures output.new) result }
{
    let (source, rest) = two_parts(bytes);
    let (lines, commands) = two_parts(rest);
    debug_parts(
        alloc,
        lending,
        source,
        lines,
        &mut MemoryInput::new(commands),
        output,
    )
}

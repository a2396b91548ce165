//! The command `debug --live`, over any input and output.

ghost use Rattle.std.specs.Prelude.{◌≡◌, ◌≢◌, ◌*◌, IfSome};
ghost use Rattle.pb_base.specs.Device.{LeavesRest};
ghost use Rattle.pb_debug.specs.Sessions.{SaysBefore};
ghost use Rattle.pb_command_io.specs.Faults.{TellsAnyFault};
ghost use Rattle.pb_debug_engine.specs.Live.{SaysOfLive, SaysOfRead, unread_status, unread_text};
ghost use Rattle.pb_command_io.specs.Answers.{Says, Tells};
ghost use Rattle.pb_command_io.specs.Faults.{TellsWriteFaults};

use crate::part::read_first_parts;
use crate::parts::debug_parts;
use pb_base::limits::MAX_INPUT;
use pb_base::{Input, Lending, Output, ReadFault};
use pb_command_io::{Page, Status};
use std::alloc::Global;

/// Debugs as `debug_engine` does, but reads the commands as they come: the answer to each is written before
/// more is read. The two parts before the commands are read up to their lines `%%`, and neither may be over
/// 4,194,304 bytes with that line; of the commands at most 4,194,304 bytes are read.
///
/// If a read fails, the status is `Device`. Each complete command that was read before it is answered then;
/// if it was a read of the two parts before the commands, nothing is written. Whatever comes, at most 12,582,912
/// bytes are taken from the input.
pub fn debug_live_engine<I: Input, O: Output>(
    alloc: Global,
    lending: Lending,
    input: &mut I,
    output: &mut O,
) -> Status
    ensures text { IfSome (I.rest input.old) (λ bytes.
        Tells (SaysOfLive lending bytes) (O.written output.old) (O.written output.new) result) }
    ensures device { I.failures input.new ≢ I.failures input.old → result ≡ Status.Device }
    ensures answered { I.failures input.new ≢ I.failures input.old → IfSome (I.rest input.old) (λ bytes.
        SaysBefore (SaysOfRead lending) bytes (I.rest input.new) (O.written output.old) (O.written output.new)) }
    ensures faults { TellsAnyFault
        (record { reads = I.failures input.old; writes = O.failures output.old; written = O.written output.old })
        (record { reads = I.failures input.new; writes = O.failures output.new; written = O.written output.new })
        result }
    ensures taken { LeavesRest (I.rest input.old) (I.rest input.new) (3 * MAX_INPUT) }
{
    match read_first_parts(alloc, input) {
        Ok(parts) => {
            debug_parts(
                alloc,
                lending,
                parts.source.as_slice(),
                parts.lines.as_slice(),
                input,
                output,
            )
        }
        Err(fault) => tell_unread(alloc, fault, output),
    }
}

/// Writes why the first parts of an input were not read.
fn tell_unread<O: Output>(alloc: Global, fault: ReadFault, output: &mut O) -> Status
    ensures text { Says (O.written output.old) (O.written output.new) (unread_text fault) (unread_status fault) result }
    ensures device { fault ≡ ReadFault.Device → O.failures output.new ≡ O.failures output.old }
    ensures faults { fault ≢ ReadFault.Device → TellsWriteFaults (O.failures output.old) (O.failures output.new) result }
{
    match fault {
        ReadFault::Device => Status::Device,
        ReadFault::TooLong => {
            Page::new(alloc).finish_with(output, b"refused input", Status::Refused)
        }
        ReadFault::Memory => Page::new(alloc).finish_with(output, b"memory", Status::Memory),
    }
}

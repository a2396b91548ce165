//! The input of an engine that tells what it finds.

ghost use Rattle.std.specs.Prelude.{◌≡◌, ◌≤◌, IfErr, IfOk, IfSome, OnOk, length};
ghost use Rattle.pb_accept.specs.Claims.{SaysOfAny};
ghost use Rattle.pb_voice.specs.Inputs.{SaysOfNothing};
ghost use Rattle.pb_voice.specs.Held.{at};
ghost use Rattle.pb_voice.specs.Tellings.{Answers};

use crate::said::Said;
use crate::teller::{Teller, tell_last};
use pb_base::limits::MAX_INPUT;
use pb_base::{Input, Output, ReadFault, read_whole};
use pb_command_io::Status;
use std::alloc::Global;

/// Returns the whole input. If it cannot be read, tells why, and the status of the call is the error.
pub fn read_or_tell<I: Input, O: Output, T: Teller>(
    alloc: Global,
    input: &mut I,
    teller: &mut T,
    output: &mut O,
) -> Result<Vec<u8>, Status>
    ensures read { IfOk result (λ bytes. IfSome (I.rest input.old) (λ rest. bytes.items ≡ rest)) }
    ensures short { IfOk result (λ bytes. length bytes.items ≤ MAX_INPUT) }
    ensures untouched { OnOk result (at O.written O.failures teller.new output.new ≡ at O.written O.failures teller.old output.old) }
    ensures counted { OnOk result (I.failures input.new ≡ I.failures input.old) }
    ensures told { IfErr result (Answers T.tells T.breaks (SaysOfAny SaysOfNothing) (I.rest input.old) (I.failures input.old) (I.failures input.new)
        (at O.written O.failures teller.old output.old) (at O.written O.failures teller.new output.new)) }
{
    match read_whole(alloc, input, MAX_INPUT) {
        Ok(bytes) => Ok(bytes),
        Err(ReadFault::TooLong) => Err(tell_last(teller, output, Said::TooLong, Status::Refused)),
        Err(ReadFault::Memory) => Err(tell_last(teller, output, Said::NoMemory, Status::Memory)),
        Err(ReadFault::Device) => Err(Status::Device),
    }
}

//! The input of a command.
ghost use Rattle.std.specs.Prelude.{◌≡◌, ◌≤◌, ◌⊎◌, IfErr, IfOk, IfSome, OnOk, length};
ghost use Rattle.pb_base.specs.Device.{LeavesRest};
ghost use Rattle.pb_command_io.specs.Faults.{TellsFaults};
ghost use Rattle.pb_command_io.specs.Answers.{Tells};
ghost use Rattle.pb_command_io.specs.Inputs.{SaysOfReading};

use crate::page::Page;
use crate::status::Status;
use pb_base::limits::MAX_INPUT;
use pb_base::{Input, Output, ReadFault, read_whole};
use std::alloc::Global;

/// Returns the whole input. If it cannot be read, writes the line that says so, and the status of the call is
/// the error.
pub fn read_input<I: Input, O: Output>(
    alloc: Global,
    input: &mut I,
    output: &mut O,
) -> Result<Vec<u8>, Status>
    ensures read { IfOk result (λ bytes. IfSome (I.rest input.old) (λ rest. bytes.items ≡ rest)) }
    ensures short { IfOk result (λ bytes. length bytes.items ≤ MAX_INPUT) }
    ensures untouched { OnOk result (output.new ≡ output.old) }
    ensures told { IfErr result (λ status. IfSome (I.rest input.old) (λ rest.
        Tells (SaysOfReading rest) (O.written output.old) (O.written output.new) status)) }
    // The line of memory comes only for bytes within the limit.
    ensures memory { IfErr result (λ status. status ≡ Status.Memory →
        LeavesRest (I.rest input.old) (I.rest input.new) MAX_INPUT) }
    ensures counted { OnOk result (I.failures input.new ≡ I.failures input.old) }
    ensures faults { IfErr result (TellsFaults
        (record { reads = I.failures input.old; writes = O.failures output.old; written = O.written output.old })
        (record { reads = I.failures input.new; writes = O.failures output.new; written = O.written output.new })) }
{
    match read_whole(alloc, input, MAX_INPUT) {
        Ok(bytes) => Ok(bytes),
        Err(ReadFault::Device) => Err(Status::Device),
        Err(ReadFault::TooLong) => {
            Err(Page::new(alloc).finish_with(output, b"refused input", Status::Refused))
        }
        Err(ReadFault::Memory) => {
            Err(Page::new(alloc).finish_with(output, b"memory", Status::Memory))
        }
    }
}

//! The command `dap`, over any input and output.

ghost use Rattle.std.specs.Prelude.{◌≢◌, IfSome};
ghost use Rattle.pb_adapter_engine.specs.Adapters.{AnswersMessages, SaysOfAdapter};
ghost use Rattle.pb_conversations.specs.Conversations.{AnswersBeforeRead};
ghost use Rattle.pb_command_io.specs.Answers.{Tells};
ghost use Rattle.pb_command_io.specs.Faults.{TellsAnyFault};

use crate::session::{debug_launched, status_of};
use crate::waiting::Waiting;
use pb_base::{Input, Output};
use pb_command_io::Status;
use pb_conversations::converse;
use std::alloc::Global;

/// Answers the requests of a client, each before the next is read, up to the end of the input or until the
/// client goes.
///
/// The status is `Done` then, whatever the requests were. If what comes next in the input is no message, a
/// last message says so, and the status is `Refused`. If out of memory, nothing of a reply is written that was
/// not made whole, and the status is `Memory`. If a read or a write fails, the status is `Device`; if it is a read,
/// exactly the messages that were read before are answered.
pub fn adapter_engine<I: Input, O: Output>(alloc: Global, input: &mut I, output: &mut O) -> Status
    ensures text { IfSome (I.rest input.old) (λ bytes.
        Tells (SaysOfAdapter bytes) (O.written output.old) (O.written output.new) result) }
    ensures answered { I.failures input.new ≢ I.failures input.old →
        AnswersBeforeRead AnswersMessages (I.rest input.old) (I.rest input.new)
        (O.written output.old) (O.written output.new) (O.failures output.old) (O.failures output.new) }
    ensures faults { TellsAnyFault
        (record { reads = I.failures input.old; writes = O.failures output.old; written = O.written output.old })
        (record { reads = I.failures input.new; writes = O.failures output.new; written = O.written output.new })
        result }
{
    let mut waiting = Waiting::new();
    let next = match converse(alloc, 1, &mut waiting, input, output) {
        Ok(next) => next,
        Err(stop) => return status_of(stop),
    };
    let Waiting { launched, .. } = waiting;
    match launched {
        Some(launched) => debug_launched(alloc, next, launched, input, output),
        None => Status::Done,
    }
}

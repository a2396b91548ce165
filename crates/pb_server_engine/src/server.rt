//! The command `lsp`, over any input and output.

ghost use Rattle.std.specs.Prelude.{◌≡◌, ◌≢◌, IfSome};
ghost use Rattle.pb_command_io.specs.Answers.{Tells};
ghost use Rattle.pb_command_io.specs.Faults.{TellsAnyFault};
ghost use Rattle.pb_conversations.specs.Conversations.{AnswersBeforeRead};
ghost use Rattle.pb_server_engine.specs.Servers.{AnswersMessages, SaysOfServer, end_status, stop_status};

use crate::parbegin::Parbegin;
use pb_base::{Input, Output};
use pb_command_io::Status;
use pb_conversations::Stop;
use pb_server::{Phase, Session, converse};
use std::alloc::Global;

/// Returns the status when nothing more is answered.
fn status_at(phase: Phase) -> Status
    ensures { result ≡ end_status phase }
{
    match phase {
        Phase::New | Phase::Open => Status::Refused,
        Phase::ShutDown => Status::Done,
    }
}

/// Returns the status for the end of a conversation that breaks off.
fn status_of(stop: Stop) -> Status
    ensures { result ≡ stop_status stop }
{
    match stop {
        Stop::Broken => Status::Refused,
        Stop::Memory => Status::Memory,
        Stop::Device => Status::Device,
    }
}

/// Answers the messages of a client, each before the next is read, up to the end of the input or until the client goes.
///
/// The status is `Done` then if the client had asked that the server make an end, and else `Refused`. If what comes
/// next in the input is no message, a last message says so, and the status is `Refused`. If out of memory, nothing of
/// a message is written that was not made whole, and the status is `Memory`. If a read or a write fails, the status
/// is `Device`; if it is a read, exactly the messages that were read before are answered.
pub fn server_engine<I: Input, O: Output>(alloc: Global, input: &mut I, output: &mut O) -> Status
    ensures text { IfSome (I.rest input.old) (λ bytes.
        Tells (SaysOfServer bytes) (O.written output.old) (O.written output.new) result) }
    ensures answered { I.failures input.new ≢ I.failures input.old →
        AnswersBeforeRead AnswersMessages (I.rest input.old) (I.rest input.new)
        (O.written output.old) (O.written output.new) (O.failures output.old) (O.failures output.new) }
    ensures faults { TellsAnyFault
        (record { reads = I.failures input.old; writes = O.failures output.old; written = O.written output.old })
        (record { reads = I.failures input.new; writes = O.failures output.new; written = O.written output.new })
        result }
{
    let mut session = Session::new(alloc);
    match converse(alloc, &Parbegin, &mut session, input, output) {
        Ok(()) => status_at(session.phase()),
        Err(stop) => status_of(stop),
    }
}

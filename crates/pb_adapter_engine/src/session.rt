//! A session over what was launched.

ghost use Rattle.std.specs.Prelude.{◌≡◌, ◌≢◌, ◌≤◌, ◌^◌, IfSome};
ghost use Rattle.pb_adapter.specs.Sessions.{AnswersIn};
ghost use Rattle.pb_conversations.specs.Conversations.{AnswersBeforeRead, AnswersRead};
ghost use Rattle.pb_adapter_engine.specs.Adapters.{opened, SaysOfLaunched, SaysOfSession, stop_status};
ghost use Rattle.pb_adapter_engine.specs.Waiting.{launched_view};
ghost use Rattle.pb_command_io.specs.Answers.{Tells};
ghost use Rattle.pb_command_io.specs.Faults.{TellsAnyFault};

use crate::launched::Launched;
use pb_adapter::{Client, Session};
use pb_base::{Input, Output};
use pb_command_io::Status;
use pb_conversations::{Stop, converse};
use pb_debug::Debugger;
use std::alloc::Global;

/// Returns the status for the end of a conversation that breaks off.
pub fn status_of(stop: Stop) -> Status
    ensures { result ≡ stop_status stop }
{
    match stop {
        Stop::Broken => Status::Refused,
        Stop::Memory => Status::Memory,
        Stop::Device => Status::Device,
    }
}

/// Answers the messages of a session, numbered from `first` on.
fn answer_session<I: Input, O: Output>(
    alloc: Global,
    first: u64,
    session: &mut Session<'_>,
    input: &mut I,
    output: &mut O,
) -> Status
    requires { first ≤ 2 ^ 33 }
    ensures text { IfSome (I.rest input.old) (λ bytes.
        Tells (SaysOfSession session.old first bytes) (O.written output.old) (O.written output.new) result) }
    ensures answered { I.failures input.new ≢ I.failures input.old →
        AnswersBeforeRead (AnswersRead AnswersIn (λ s. s.over) session.old first) (I.rest input.old) (I.rest input.new)
        (O.written output.old) (O.written output.new) (O.failures output.old) (O.failures output.new) }
    ensures faults { TellsAnyFault
        (record { reads = I.failures input.old; writes = O.failures output.old; written = O.written output.old })
        (record { reads = I.failures input.new; writes = O.failures output.new; written = O.written output.new })
        result }
{
    match converse(alloc, first, session, input, output) {
        Ok(_) => Status::Done,
        Err(stop) => status_of(stop),
    }
}

/// Debugs what was launched, up to the end of the input or until the client goes: answers the messages, numbered
/// from `first` on.
pub fn debug_launched<I: Input, O: Output>(
    alloc: Global,
    first: u64,
    launched: Launched,
    input: &mut I,
    output: &mut O,
) -> Status
    requires { first ≤ 2 ^ 33 }
    ensures text { IfSome (I.rest input.old) (λ bytes.
        Tells (SaysOfLaunched (launched_view launched) first bytes) (O.written output.old) (O.written output.new) result) }
    ensures answered { I.failures input.new ≢ I.failures input.old →
        AnswersBeforeRead (AnswersRead AnswersIn (λ s. s.over) (opened (launched_view launched)) first) (I.rest input.old) (I.rest input.new)
        (O.written output.old) (O.written output.new) (O.failures output.old) (O.failures output.new) }
    ensures faults { TellsAnyFault
        (record { reads = I.failures input.old; writes = O.failures output.old; written = O.written output.old })
        (record { reads = I.failures input.new; writes = O.failures output.new; written = O.written output.new })
        result }
{
    let Launched {
        lending,
        compiled,
        picks,
        source,
        path,
        counting,
        ..
    } = launched;
    let labels = compiled.labels();
    match Debugger::from_object_counted(alloc, compiled.verified(), labels, lending, &picks) {
        Ok(debugger) => {
            let shown = debugger.with_source(Some(&source));
            let client = Client {
                lines: Vec::new(alloc),
                events: false,
                path,
                counting,
            };
            let mut session = Session::new(shown, client);
            answer_session(alloc, first, &mut session, input, output)
        }
        Err(_) => Status::Memory,
    }
}

//! All schedules of a text as a document, which `outcomes --graph` tells, over any input, teller and output.

ghost use Rattle.std.specs.Prelude.{◌≡◌, ◌≤◌, IfOk, length};
ghost use Rattle.pb_accept.specs.Claims.{SaysOfAny};
ghost use Rattle.pb_code.specs.Limits.{AreLabels};
ghost use Rattle.pb_code.specs.View.{labels_view};
ghost use Rattle.pb_page_graph.specs.Documents.{excess_text};
ghost use Rattle.pb_page_engine.specs.Schedules.{AreSchedules, AreSchedulesOf, SaysOfSchedules};
ghost use Rattle.pb_voice.specs.Held.{at};
ghost use Rattle.pb_voice.specs.Tellings.{Answers, Speaks};

use crate::document::tell_document;
use crate::object::object_of;
use pb_accept::{Teller, code_of_text, read_or_tell, tell_fault};
use pb_base::limits::MAX_INPUT;
use pb_base::{Input, Lending, NoMemory, Output};
use pb_code::Labels;
use pb_codegen::Compiled;
use pb_command_io::{Reply, Status};
use pb_page_graph::{excess_document, schedules_document};
use pb_search::KeepFault;
use pb_verifier::Verified;
use std::alloc::Global;

/// Tells the document of all schedules of the text on the input under this lending: a line of JSON with the text, its
/// object, and each configuration that is reached, with a row for every pick that is enabled there. If more than
/// `states` configurations are reached, the document says only that, and the status is `Limit`. Of a text that is
/// refused its refusal is told.
///
/// After a read that failed nothing is told; after a write that failed, no more.
pub fn schedules_engine<I: Input, O: Output, T: Teller>(
    alloc: Global,
    lending: Lending,
    states: u32,
    input: &mut I,
    teller: &mut T,
    output: &mut O,
) -> Status
    ensures { Answers T.tells T.breaks (SaysOfAny (SaysOfSchedules lending states)) (I.rest input.old) (I.failures input.old) (I.failures input.new)
        (at O.written O.failures teller.old output.old) (at O.written O.failures teller.new output.new) result }
{
    match read_or_tell(alloc, input, teller, output) {
        Ok(bytes) => tell_schedules(alloc, lending, states, &bytes, teller, output),
        Err(status) => status,
    }
}

/// Tells the document of all schedules of a text.
fn tell_schedules<O: Output, T: Teller>(
    alloc: Global,
    lending: Lending,
    states: u32,
    text: &[u8],
    teller: &mut T,
    output: &mut O,
) -> Status
    requires { length text.now ≤ MAX_INPUT }
    ensures { Speaks T.tells T.breaks (SaysOfAny (SaysOfSchedules lending states) text.now) (at O.written O.failures teller.old output.old)
        (at O.written O.failures teller.new output.new) result }
{
    match code_of_text(alloc, text) {
        Ok(compiled) => {
            let made = document(alloc, lending, states, text, &compiled);
            drop(compiled);
            tell_document(made, teller, output)
        }
        Err(fault) => tell_fault(teller, output, &fault),
    }
}

/// Returns the document of all schedules of a compiled text.
fn document(
    alloc: Global,
    lending: Lending,
    states: u32,
    source: &[u8],
    compiled: &Compiled,
) -> Result<Reply, NoMemory>
    requires { AreLabels compiled.now.verified.code compiled.now.labels }
    ensures { IfOk result (λ r. AreSchedulesOf lending states source.now compiled.now.verified.code
        compiled.now.labels r.text.items r.status) }
{
    let verified = compiled.verified();
    let object = object_of(alloc, verified, compiled.labels())?;
    schedules(
        alloc,
        lending,
        states,
        source,
        &object,
        verified,
        compiled.labels(),
    )
}

/// Returns the document of all schedules of a code, or the one that says that there are too many.
fn schedules(
    alloc: Global,
    lending: Lending,
    states: u32,
    source: &[u8],
    object: &[u8],
    verified: &Verified,
    labels: &Labels,
) -> Result<Reply, NoMemory>
    ensures { IfOk result (λ r. AreSchedules lending states source.now object.now verified.now.code (labels_view labels.now) r.text.items r.status) }
{
    match schedules_document(alloc, verified, labels, lending, states, source, object) {
        Ok(text) => Ok(Reply {
            text,
            status: Status::Done,
        }),
        Err(KeepFault::TooMany) => excess_reply(alloc, lending, states, source, object),
        Err(KeepFault::NoMemory) => Err(NoMemory),
    }
}

/// Returns what is said if more configurations are reached than this number.
fn excess_reply(
    alloc: Global,
    lending: Lending,
    states: u32,
    source: &[u8],
    object: &[u8],
) -> Result<Reply, NoMemory>
    ensures text { IfOk result (λ r. r.text.items ≡ excess_text source.now object.now lending states) }
    ensures status { IfOk result (λ r. r.status ≡ Status.Limit) }
{
    let text = excess_document(alloc, source, object, lending, states)?;
    Ok(Reply {
        text,
        status: Status::Limit,
    })
}

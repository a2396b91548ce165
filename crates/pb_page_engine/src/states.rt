//! The command `states`, over any input, teller and output.

ghost use Rattle.std.specs.Prelude.{◌≤◌, IfOk, length};
ghost use Rattle.pb_accept.specs.Claims.{SaysOfAny};
ghost use Rattle.pb_code.specs.Limits.{AreLabels};
ghost use Rattle.pb_code.specs.View.{labels_view};
ghost use Rattle.pb_page_engine.specs.States.{IsDocument, SaysOfStates, SaysOfStatesLines};
ghost use Rattle.pb_history.specs.Entries.{picks_of};
ghost use Rattle.pb_history.specs.Positions.{AreEnabledBy};
ghost use Rattle.pb_machine.specs.Views.{IsMachineBy, machine_view};
ghost use Rattle.pb_voice.specs.Held.{at};
ghost use Rattle.pb_voice.specs.Tellings.{Answers, Speaks};

use crate::document::tell_document;
use crate::object::object_of;
use pb_accept::load::{load, tell_load_fault};
use pb_accept::{
    Teller, code_of_text, end_status, ending_of, make_lines_by, read_or_tell, status_at,
    tell_fault, tell_lines_fault,
};
use pb_base::limits::{MAX_INPUT, MAX_PICKS};
use pb_base::{Input, Lending, NoMemory, Output};
use pb_code::Labels;
use pb_command_io::{Reply, Status, two_parts};
use pb_history::Trace;
use pb_machine::Machine;
use pb_page::{Shown, run_document};
use pb_sources::is_object;
use pb_verifier::Verified;
use std::alloc::Global;

/// Makes the picks that the pick lines after the text or the object of the input say, from its start, under whoever
/// decides on requests, and tells a document of that run: a line of JSON with the text, its object, the state at the
/// first position that is shown, and a row for each pick from there on. A line `%%` separates the text from the pick
/// lines. If the text, a line or a pick is refused, only the refusal is told, as by `replay`.
///
/// The first part is an object if it begins with `PBO `. Then the document has an empty text, which no program has,
/// and the object in the second format, in whichever it was given.
///
/// The document begins with position `shown.from`, or with the last if there are not so many picks, and has
/// at most `shown.rows` rows; it says so if there are more. Otherwise it ends with the last word of `replay`: `done`,
/// `deadlock` or `open`.
///
/// The status is `Deadlock` if some process has neither ended nor faulted and no pick is enabled, and else `Fault` if
/// a process faulted. After a read that failed nothing is told; after a write that failed, no more.
pub fn states_engine<I: Input, O: Output, T: Teller>(
    alloc: Global,
    lending: Lending,
    shown: Shown,
    input: &mut I,
    teller: &mut T,
    output: &mut O,
) -> Status
    ensures { Answers T.tells T.breaks (SaysOfAny (SaysOfStates lending shown)) (I.rest input.old) (I.failures input.old) (I.failures input.new)
        (at O.written O.failures teller.old output.old) (at O.written O.failures teller.new output.new) result }
{
    match read_or_tell(alloc, input, teller, output) {
        Ok(bytes) => states_bytes(alloc, lending, shown, &bytes, teller, output),
        Err(status) => status,
    }
}

/// Tells the document of a whole input.
fn states_bytes<O: Output, T: Teller>(
    alloc: Global,
    lending: Lending,
    shown: Shown,
    bytes: &[u8],
    teller: &mut T,
    output: &mut O,
) -> Status
    requires { length bytes.now ≤ MAX_INPUT }
    ensures { Speaks T.tells T.breaks (SaysOfAny (SaysOfStates lending shown) bytes.now) (at O.written O.failures teller.old output.old)
        (at O.written O.failures teller.new output.new) result }
{
    let (source, lines) = two_parts(bytes);
    if is_object(source) {
        return match load(alloc, source) {
            Ok((verified, labels)) => {
                let status = states_lines(
                    alloc, lending, shown, b"", &verified, &labels, lines, teller, output,
                );
                drop(verified);
                drop(labels);
                status
            }
            Err(fault) => tell_load_fault(teller, output, fault),
        };
    }
    match code_of_text(alloc, source) {
        Ok(compiled) => {
            let status = states_lines(
                alloc,
                lending,
                shown,
                source,
                compiled.verified(),
                compiled.labels(),
                lines,
                teller,
                output,
            );
            drop(compiled);
            status
        }
        Err(fault) => tell_fault(teller, output, &fault),
    }
}

/// Tells the document of the run that lines say, or why their picks are not made.
fn states_lines<O: Output, T: Teller>(
    alloc: Global,
    lending: Lending,
    shown: Shown,
    text: &[u8],
    verified: &Verified,
    labels: &Labels,
    lines: &[u8],
    teller: &mut T,
    output: &mut O,
) -> Status
    requires { AreLabels verified.now.code (labels_view labels.now) }
    ensures { Speaks T.tells T.breaks (SaysOfStatesLines lending shown text.now verified.now.code (labels_view labels.now) lines.now)
        (at O.written O.failures teller.old output.old) (at O.written O.failures teller.new output.new) result }
{
    match make_lines_by(alloc, lending, verified, lines) {
        Ok((machine, trace)) => {
            let mut machine = machine;
            let made = document(
                alloc,
                lending,
                shown,
                text,
                verified,
                labels,
                &trace,
                &mut machine,
            );
            tell_document(made, teller, output)
        }
        Err(fault) => tell_lines_fault(teller, output, fault),
    }
}

/// Returns the document of a replay. If the machine could go on, a pick is made that is enabled.
fn document(
    alloc: Global,
    lending: Lending,
    shown: Shown,
    text: &[u8],
    verified: &Verified,
    labels: &Labels,
    trace: &Trace,
    machine: &mut Machine,
) -> Result<Reply, NoMemory>
    requires fit { AreLabels verified.now.code (labels_view labels.now) }
    requires enabled { AreEnabledBy lending verified.now.code (picks_of trace.now.entries) }
    requires few { length (picks_of trace.now.entries) ≤ MAX_PICKS }
    requires machine { IsMachineBy lending verified.now machine.old }
    ensures { IfOk result (λ r. IsDocument lending shown text.now verified.now.code
        (labels_view labels.now) trace.now.entries (machine_view machine.old) r.text.items r.status) }
{
    let object = object_of(alloc, verified, labels)?;
    let faulted = status_at(machine);
    let ending = ending_of(machine, verified);
    let said = run_document(
        alloc,
        verified,
        labels,
        lending,
        trace,
        text,
        &object,
        shown,
        ending.last_line(),
    )?;
    Ok(Reply {
        text: said,
        status: end_status(ending, faulted),
    })
}

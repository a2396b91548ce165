//! The command `replay`, over any input, teller and output.
ghost use Rattle.std.specs.Prelude.{◌≡◌, ◌≢◌, ◌≤◌, ℕ, List, IfErr, IfOk, length};
ghost use Rattle.pb_base.specs.declared.lending.Lending.{Lending as LendingValue};
ghost use Rattle.pb_accept.specs.Claims.{SaysOfAny};
ghost use Rattle.pb_accept.specs.ReplayLines.{AreReplayed, AreReplayedBy, IsEndStatus, IsLinesFault, IsLinesFaultBy};
ghost use Rattle.pb_accept.specs.ReplayLines.{IsStatusAt, SaysOfNoPicksBy};
ghost use Rattle.pb_accept.specs.Causes as spec;
ghost use Rattle.pb_accept.specs.Replays.{SaysOfEvents, SaysOfLines, SaysOfNoLines, SaysOfReplay};
ghost use Rattle.pb_history.specs.Entries.{events_of};
ghost use Rattle.pb_base.specs.Steppers.{State};
ghost use Rattle.pb_code.specs.Code.{CodeProcess};
ghost use Rattle.pb_code.specs.Whole.{Code};
ghost use Rattle.pb_machine.specs.Views.{machine_view, IsMachine, IsMachineBy};
ghost use Rattle.pb_options.specs.Lends.{lending_for};
ghost use Rattle.pb_command_io.specs.declared.status.Status.TheVariants.{Device};
ghost use Rattle.pb_voice.specs.Held.{at};
ghost use Rattle.pb_voice.specs.Tellings.{Answers, Speaks};

use crate::accept::code_of_text;
use crate::cause::{Cause, picks_cause, stop_cause};
use crate::ending::{Ending, ending_of};
use crate::events::tell_events;
use crate::faults::has_fault;
use crate::reading::read_or_tell;
use crate::refusal::refusal_text;
use crate::said::Said;
use crate::teller::{Teller, tell_fault, tell_last, tell_refused};
use pb_base::limits::MAX_INPUT;
use pb_base::{Input, Lending, NoMemory, Output};
use pb_command_io::{Reply, Status, refused, two_parts};
use pb_history::replay::replay_counted_by;
use pb_history::{ReplayFault, Trace};
use pb_machine::Machine;
use pb_options::ReplayOptions;
use pb_picks::{PickFault, read_picks};
use pb_verifier::Verified;
use std::alloc::Global;

/// Why pick lines are not replayed.
#[derive(Clone, Copy, Debug, PartialEq, Eq)]
pub enum LinesFault {
    /// They say no picks.
    NotRead(PickFault),
    /// Their picks can't all be made.
    NotMade(ReplayFault),
}

/// Makes the picks that the pick lines after the text of the input say, from the start of the text: tells
/// each event, and then how it ended: every process has ended or faulted, or one has not and
/// no pick is enabled, or it could go on. A line `%%` is between the text and the pick lines. Of a text, lines or
/// picks that are refused it tells the refusal alone.
///
/// The status is `Deadlock` if it ended in one; otherwise `Fault` if a process faulted. After a read that failed
/// nothing is told; after a write that failed, no more.
pub fn replay_engine<I: Input, O: Output, T: Teller>(
    alloc: Global,
    options: ReplayOptions,
    input: &mut I,
    teller: &mut T,
    output: &mut O,
) -> Status
    ensures { Answers T.tells T.breaks (SaysOfAny (SaysOfReplay (lending_for options.lend))) (I.rest input.old) (I.failures input.old)
        (I.failures input.new) (at O.written O.failures teller.old output.old) (at O.written O.failures teller.new output.new) result }
{
    match read_or_tell(alloc, input, teller, output) {
        Ok(bytes) => replay_text(alloc, options.lend.lending(), &bytes, teller, output),
        Err(status) => status,
    }
}

/// Makes the picks that the lines after a text say.
fn replay_text<O: Output, T: Teller>(
    alloc: Global,
    lending: Lending,
    bytes: &[u8],
    teller: &mut T,
    output: &mut O,
) -> Status
    requires { length bytes.now ≤ MAX_INPUT }
    ensures { Speaks T.tells T.breaks (SaysOfAny (SaysOfReplay lending) bytes.now) (at O.written O.failures teller.old output.old)
        (at O.written O.failures teller.new output.new) result }
{
    let (text, lines) = two_parts(bytes);
    match code_of_text(alloc, text) {
        Ok(compiled) => {
            let status = replay_lines(alloc, lending, compiled.verified(), lines, teller, output);
            drop(compiled);
            status
        }
        Err(fault) => tell_fault(teller, output, &fault),
    }
}

/// Makes the picks that lines say, and tells what they show, or why they are not made.
fn replay_lines<O: Output, T: Teller>(
    alloc: Global,
    lending: Lending,
    verified: &Verified,
    lines: &[u8],
    teller: &mut T,
    output: &mut O,
) -> Status
    ensures { Speaks T.tells T.breaks (SaysOfLines lending verified.now.code lines.now) (at O.written O.failures teller.old output.old)
        (at O.written O.failures teller.new output.new) result }
{
    match make_lines_by(alloc, lending, verified, lines) {
        Ok((machine, trace)) => {
            let mut machine = machine;
            tell_replay(verified, &trace, &mut machine, teller, output)
        }
        Err(fault) => tell_lines_fault(teller, output, fault),
    }
}

/// Tells why pick lines are not picks, or why their picks are not made.
pub fn tell_lines_fault<O: Output, T: Teller>(
    teller: &mut T,
    output: &mut O,
    fault: LinesFault,
) -> Status
    ensures { (lending : LendingValue) (code : Code) (lines : List ℕ) → IsLinesFaultBy lending code lines fault
        → Speaks T.tells T.breaks (SaysOfNoLines lending code lines) (at O.written O.failures teller.old output.old)
        (at O.written O.failures teller.new output.new) result }
{
    tell_refused(teller, output, lines_cause(fault), Said::NoPicks(fault))
}

/// Makes the picks that pick lines say under the banker, from the start of the code: returns the machine after
/// them, and their trace. The error says why the lines are not picks, or why their picks are not made.
pub fn make_lines(
    alloc: Global,
    verified: &Verified,
    lines: &[u8],
) -> Result<(Machine, Trace), LinesFault>
    ensures made { IfOk result (λ made.
        AreReplayed verified.now.code lines.now made.1.entries (machine_view made.0)) }
    ensures fault { IfErr result (IsLinesFault verified.now.code lines.now) }
{
    make_lines_by(alloc, Lending::ByBanker, verified, lines)
}

/// Makes the picks that pick lines say under a lending, as `make_lines` does under the banker.
pub fn make_lines_by(
    alloc: Global,
    lending: Lending,
    verified: &Verified,
    lines: &[u8],
) -> Result<(Machine, Trace), LinesFault>
    ensures made { IfOk result (λ made.
        AreReplayedBy lending verified.now.code lines.now made.1.entries (machine_view made.0)) }
    ensures machine { IfOk result (λ made. IsMachineBy lending verified.now made.0) }
    ensures fault { IfErr result (IsLinesFaultBy lending verified.now.code lines.now) }
{
    let picks = match read_picks(alloc, verified.code(), lines) {
        Ok(picks) => picks,
        Err(fault) => return Err(LinesFault::NotRead(fault)),
    };
    match replay_counted_by(alloc, verified, lending, picks.as_slice()) {
        Ok(made) => Ok(made),
        Err(fault) => Err(LinesFault::NotMade(fault)),
    }
}

/// Returns the cause of refused pick lines; none if it is out of memory.
pub(crate) fn lines_cause(fault: LinesFault) -> Option<Cause>
    ensures { result ≡ spec.lines_cause fault }
{
    match fault {
        LinesFault::NotRead(fault) => picks_cause(fault),
        LinesFault::NotMade(fault) => stop_cause(fault),
    }
}

/// Returns the reply to pick lines that have this fault, or out of memory if that is the fault or there is
/// too little for its line.
pub fn lines_refusal(alloc: Global, fault: LinesFault) -> Result<Reply, NoMemory>
    ensures { (lending : LendingValue) (code : Code) (lines : List ℕ) → IsLinesFaultBy lending code lines fault
        → IfOk result (λ r. SaysOfNoPicksBy lending code lines r.text.items r.status) }
{
    let text = refusal_text(alloc, lines_cause(fault))?;
    refused(text)
}

/// Returns the status of a replay that has ended so, by that of its faults.
pub fn end_status(ending: Ending, status: Status) -> Status
    requires { status ≢ Device }
    ensures status { (end : State CodeProcess) → IsStatusAt end status → IsEndStatus end ending result }
    ensures no_device { result ≢ Device }
{
    match ending {
        Ending::Stuck => Status::Deadlock,
        Ending::Over | Ending::Open => status,
    }
}

/// Returns the status of a run that has come to here: `Fault` if a process has faulted, else `Done`.
#[tactic(auto, using(crate::specs::ReplayLines::some_fault, crate::specs::ReplayLines::no_fault))]
pub fn status_at(machine: &Machine) -> Status
    ensures status { IsStatusAt (machine_view machine.now) result }
    ensures no_device { result ≢ Device }
{
    if has_fault(machine) {
        Status::Fault
    } else {
        Status::Done
    }
}

/// Tells each event, and how a replay has ended that has come to here. If the machine could go
/// on, a pick is made that is enabled.
fn tell_replay<O: Output, T: Teller>(
    verified: &Verified,
    trace: &Trace,
    machine: &mut Machine,
    teller: &mut T,
    output: &mut O,
) -> Status
    requires { IsMachine verified.now machine.old }
    ensures { (lending : LendingValue) → IsMachineBy lending verified.now machine.old
        → Speaks T.tells T.breaks (SaysOfEvents lending verified.now.code (events_of trace.now.entries) (machine_view machine.old))
        (at O.written O.failures teller.old output.old) (at O.written O.failures teller.new output.new) result }
{
    let faulted = status_at(machine);
    let ending = ending_of(machine, verified);
    let status = end_status(ending, faulted);
    match tell_events(&verified.code().names, trace, teller, output) {
        Ok(()) => tell_last(teller, output, Said::Ended(ending), status),
        Err(_) => Status::Device,
    }
}

//! The message of pick lines that are refused, or of which a pick is.

ghost use Rattle.std.specs.Prelude.{IfOk};
ghost use Rattle.pb_code.specs.Limits.{KeepsLimits};
ghost use Rattle.pb_code.specs.View.{code_view};
ghost use Rattle.pb_history.specs.Replays.{IsStoppedBy, spread};
ghost use Rattle.pb_messages.specs.Said.{SaysOfPickLines};
ghost use Rattle.pb_picks.specs.PickLines.{IsFaulty, SpellsPicks};

use crate::worded::worded;
use pb_accept::{Cause, picks_cause};
use pb_base::{Lending, NoMemory};
use pb_code::Code;
use pb_history::replay::replay_counted_by;
use pb_history::{CountedPick, ReplayFault};
use pb_message_stops::{Lines, fault_wording, stop_of, stop_wording};
use pb_picks::{PickFault, read_picks};
use pb_verifier::Verified;
use std::alloc::Global;

/// What is before the line of a place.
const LABEL: &str = "pick ";

/// Returns the message of pick lines that are refused or of which a pick is under this lending, over this code;
/// nothing if all picks are made.
pub fn lines_message(
    alloc: Global,
    lending: Lending,
    verified: &Verified,
    lines: Lines<'_>,
) -> Result<Vec<u8>, NoMemory>
    ensures { IfOk result (λ message.
        SaysOfPickLines lending verified.now.code lines.entry.before lines.entry.text.now message.items) }
{
    let picks = match read_picks(alloc, verified.code(), lines.text) {
        Ok(picks) => picks,
        Err(fault) => return unread_message(alloc, lending, verified.code(), lines, fault),
    };
    match replay_counted_by(alloc, verified, lending, &picks) {
        Ok(_) => Ok(Vec::new(alloc)),
        Err(fault) => stop_message(alloc, lending, verified, lines, &picks, fault),
    }
}

/// Returns the message of lines that say no picks.
fn unread_message(
    alloc: Global,
    lending: Lending,
    code: &Code,
    lines: Lines<'_>,
    fault: PickFault,
) -> Result<Vec<u8>, NoMemory>
    requires limits { KeepsLimits (code_view code.now) }
    requires fault { IsFaulty (code_view code.now) lines.text.now fault }
    ensures { IfOk result (λ message.
        SaysOfPickLines lending (code_view code.now) lines.entry.before lines.entry.text.now message.items) }
{
    let Some(cause) = picks_cause(fault) else {
        return Err(NoMemory);
    };
    let wording = fault_wording(alloc, code, lines, fault)?;
    worded(alloc, LABEL, lines.text, &cause, &wording)
}

/// Returns the message of a pick that is not enabled.
fn stop_message(
    alloc: Global,
    lending: Lending,
    verified: &Verified,
    lines: Lines<'_>,
    picks: &[CountedPick],
    fault: ReplayFault,
) -> Result<Vec<u8>, NoMemory>
    requires spelled { SpellsPicks verified.now.code lines.text.now picks.now }
    requires stopped { IsStoppedBy lending verified.now.code (spread picks.now) fault }
    ensures { IfOk result (λ message.
        SaysOfPickLines lending verified.now.code lines.entry.before lines.entry.text.now message.items) }
{
    let ReplayFault::NotEnabled(number) = fault else {
        return Err(NoMemory);
    };
    let Some(stop) = stop_of(lines.text, picks, number) else {
        return Err(NoMemory);
    };
    let wording = stop_wording(alloc, lending, verified, lines, &stop)?;
    let cause = Cause {
        code: pb_options::Code::H1,
        at: Some(stop.line),
    };
    worded(alloc, LABEL, lines.text, &cause, &wording)
}

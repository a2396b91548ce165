//! A machine that makes the picks of a trace.

ghost use Rattle.std.specs.Prelude.{◌≡◌, ◌+◌, ◌<◌, length};
ghost use Rattle.pb_history.specs.Positions.{IsAfterBy, AreEnabledBy};
ghost use Rattle.pb_base.specs.declared.lending.Lending.{Lending as LendingValue};
ghost use Rattle.pb_draw.specs.Walks.{event_at, step_event};
ghost use Rattle.pb_history.specs.Entries.{picks_of};

use pb_base::{Event, Step};
use pb_history::Trace;
use pb_machine::Machine;
use pb_verifier::Verified;

/// Makes the pick with this number, counted from 0, and returns the event that it shows, if it shows one. The
/// machine has made those before it.
pub(crate) fn advance(
    verified: &Verified,
    trace: &Trace,
    machine: &mut Machine,
    i: u32,
) -> Option<Event>
    requires stands { (lending : LendingValue) × AreEnabledBy lending verified.now.code (picks_of trace.now.entries)
        × IsAfterBy lending verified.now (picks_of trace.now.entries) i machine.old }
    requires within { i < length trace.now.entries }
    ensures stands { (lending : LendingValue) → AreEnabledBy lending verified.now.code (picks_of trace.now.entries)
        → IsAfterBy lending verified.now (picks_of trace.now.entries) i machine.old
        → IsAfterBy lending verified.now (picks_of trace.now.entries) (i + 1) machine.new }
    ensures event { result ≡ event_at verified.now.code (picks_of trace.now.entries) i }
{
    let pick = trace.pick(i);
    let step = machine.step(verified, pick);
    event_of(step)
}

/// Returns the event of what a pick came to.
fn event_of(step: Step) -> Option<Event>
    ensures { result ≡ step_event step }
{
    match step {
        Step::Did(event) => Some(event),
        Step::Silent => None,
        Step::NotEnabled => None,
    }
}

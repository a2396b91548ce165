//! Visible picks.

ghost use Rattle.std.specs.Prelude.{◌≡◌, ◌<◌, length, Some};
ghost use Rattle.pb_machine.specs.Views.{machine_view, IsMachineOf};
ghost use Rattle.pb_shared.specs.Trying.{TriesOn};
ghost use Rattle.pb_verifier.specs.Requests.{frees};

use crate::answer::Answer;
use crate::marks::{clear, mark};
use pb_base::limits::MAX_PICKS;
use pb_base::{Event, Pick, Step};
use pb_history::Trace;
use pb_machine::{Look, Machine};
use pb_verifier::Verified;

/// Tries the visible pick of an arm, if it is at one.
pub fn try_visible(
    code: &Verified,
    machine: &mut Machine,
    trace: &mut Trace,
    left: &mut u32,
    refused: &mut Vec<bool>,
    pick: Pick,
) -> Answer
    requires some_left { 0 < left.old }
    requires room { 0 < trace.old.room }
    requires fits { length trace.old.entries < MAX_PICKS }
    requires machine { IsMachineOf code.now machine.old }
    ensures tries { TriesOn code.now.code (machine_view machine.old) trace.old.entries left.old refused.old.items pick
        result (machine_view machine.new) trace.new.entries left.new refused.new.items }
    ensures machine { IsMachineOf code.now machine.new }
{
    match machine.look(code, pick) {
        Look::Stays => return Answer::Silent,
        Look::Silent => return Answer::Silent,
        Look::Visible => {}
    }
    match machine.step(code, pick) {
        Step::Did(event) => {
            if frees(&event) {
                clear(refused);
            }
            trace.push_shown(pick, event);
            *left -= 1;
            Answer::Did
        }
        Step::NotEnabled => {
            mark(refused, pick);
            Answer::Refused
        }
        Step::Silent => unreachable!(),
    }
}

/// Returns whether an event gives loans back, so that what was refused may be allowed.
fn frees(event: &Event) -> bool
    ensures { result ≡ frees (Some event.now) }
{
    match event {
        Event::Granted { .. } => false,
        Event::Returned { .. } => true,
        Event::Printed { .. } => false,
        Event::Faulted { .. } => true,
        Event::Finished { .. } => false,
    }
}

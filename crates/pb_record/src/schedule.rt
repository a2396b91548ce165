//! Picks of one arm, made if the arm can go on.
ghost use Rattle.std.specs.Prelude.{◌≤◌};
ghost use Rattle.pb_record.specs.Schedule.{MakesAtMost, StepsArm};
ghost use Rattle.pb_base.specs.declared.lending.Lending.{Lending as LendingValue};
ghost use Rattle.pb_machine.specs.Views.{machine_view, IsMachine, IsMachineBy};

use pb_base::{Event, Pick, Step};
use pb_machine::{Look, Machine};
use pb_verifier::Verified;

/// What came of a pick.
#[derive(Clone, Copy)]
pub enum Next {
    /// It and more picks of its arm were made, this many in all, and none shows anything.
    Silent(Pick, u32),
    /// It was made, and shows this.
    Did(Pick, Event),
    /// It is not enabled.
    NotEnabled,
}

/// Makes a pick, and if that shows nothing, those after it of the same arm that show nothing either, at most
/// `max` in all.
pub fn step_arm(machine: &mut Machine, verified: &Verified, pick: Pick, max: u32) -> Next
    requires machine { IsMachine verified.now machine.old }
    requires max { 1 ≤ max }
    ensures machine { (lending : LendingValue) → IsMachineBy lending verified.now machine.old
        → IsMachineBy lending verified.now machine.new }
    ensures step { (lending : LendingValue) → IsMachineBy lending verified.now machine.old
        → StepsArm lending verified.now.code (machine_view machine.old) pick result (machine_view machine.new) }
    ensures within { MakesAtMost max result }
{
    match machine.look(verified, pick) {
        Look::Stays => Next::NotEnabled,
        Look::Silent => Next::Silent(pick, machine.run_silent(verified, pick, max)),
        Look::Visible => match machine.step(verified, pick) {
            Step::Silent => Next::Silent(pick, 1),
            Step::Did(event) => Next::Did(pick, event),
            Step::NotEnabled => Next::NotEnabled,
        },
    }
}

//! How a replay has ended.

ghost use Rattle.std.specs.Prelude.{◌≡◌, ◌↔◌, ◌<◌, IsTrue, false, length};
ghost use Rattle.pb_accept.specs.ReplayLines.{GoesOn, IsEnding};
ghost use Rattle.pb_accept.specs.Sayings.{last_line as last_line_of};
ghost use Rattle.pb_accept.specs.Stillness.{IsStillAt};
ghost use Rattle.pb_base.specs.declared.lending.Lending.{Lending as LendingValue};
ghost use Rattle.pb_machine.specs.Views.{machine_view, IsMachine, IsMachineBy};

use pb_base::{Pick, Step};
use pb_machine::Machine;
use pb_verifier::Verified;

/// How a replay has ended.
#[derive(Clone, Copy, Debug, PartialEq, Eq)]
pub enum Ending {
    /// Every process has ended or faulted.
    Over,
    /// Some process has neither ended nor faulted, and no pick is enabled.
    Stuck,
    /// It could go on.
    Open,
}

impl Ending {
    /// Returns the last line of a replay, without a line feed.
    pub fn last_line(self) -> &'static [u8]
        ensures { result.now ≡ last_line_of self }
    {
        match self {
            Ending::Over => b"done",
            Ending::Stuck => b"deadlock",
            Ending::Open => b"open",
        }
    }
}

/// Returns how a replay has ended that has led the machine here. If it could go on, a pick is made that is enabled.
pub fn ending_of(machine: &mut Machine, verified: &Verified) -> Ending
    requires { IsMachine verified.now machine.old }
    ensures { (lending : LendingValue) → IsMachineBy lending verified.now machine.old
        → IsEnding lending verified.now.code (machine_view machine.old) result }
{
    if machine.finished() {
        return Ending::Over;
    }
    if goes_on(machine, verified) {
        Ending::Open
    } else {
        Ending::Stuck
    }
}

/// Returns whether some pick is enabled. If one is, the first of them is made.
fn goes_on(machine: &mut Machine, verified: &Verified) -> bool
    requires { IsMachine verified.now machine.old }
    ensures { (lending : LendingValue) → IsMachineBy lending verified.now machine.old
        → (IsTrue result ↔ GoesOn lending verified.now.code (machine_view machine.old)) }
{
    for process in 0..machine.processes() {
        if process_goes_on(machine, verified, process as u8) {
            return true;
        }
    }
    false
}

/// Returns whether some pick of a process is enabled. If one is, the first of them is made.
fn process_goes_on(machine: &mut Machine, verified: &Verified, process: u8) -> bool
    requires machine { IsMachine verified.now machine.old }
    requires process { process < length (machine_view machine.old).processes }
    ensures goes { (lending : LendingValue) → IsMachineBy lending verified.now machine.old
        → IsTrue result → GoesOn lending verified.now.code (machine_view machine.old) }
    ensures still { (lending : LendingValue) → IsMachineBy lending verified.now machine.old
        → result ≡ false → IsStillAt lending verified.now.code (machine_view machine.old) process }
    ensures same { result ≡ false → machine_view machine.new ≡ machine_view machine.old }
    ensures machine { (lending : LendingValue) → IsMachineBy lending verified.now machine.old
        → IsMachineBy lending verified.now machine.new }
{
    for arm in 0..machine.proc(usize::from(process)).arms() {
        let pick = Pick {
            process,
            arm: arm as u8,
        };
        match machine.step(verified, pick) {
            Step::NotEnabled => {}
            Step::Silent | Step::Did(_) => return true,
        }
    }
    false
}

//! A machine that walks along a trace.

ghost use Rattle.std.specs.Prelude.{◌≡◌, ◌+◌, ◌<◌, ◌≤◌, ℕ, List, length};
ghost use Rattle.pb_base.specs.declared.lending.Lending.{Lending as LendingValue};
ghost use Rattle.pb_base.specs.declared.pick.Pick.{Pick as AnyPick};
ghost use Rattle.pb_debug_positions.specs.Searches.{StepsAt};
ghost use Rattle.pb_history.specs.Positions.{AreEnabledBy, IsAfterBy};
ghost use Rattle.pb_debug_positions.specs.Walks.{Repeat, Walks, WalksBy};
ghost use Rattle.pb_history.specs.Entries.{picks_of};
ghost use Rattle.pb_machine.specs.Views.{IsMachine};

use pb_base::limits::MAX_PICKS;
use pb_base::{Pick, Step};
use pb_history::Trace;
use pb_machine::Machine;
use pb_verifier::Verified;

/// A machine, and the number of picks of a trace that it has made.
#[derive(Drop)]
pub struct Walker {
    pub machine: Machine,
    pub at: u32,
}

impl Walker {
    /// Makes the next pick, and returns what it came to. All picks of the trace are enabled.
    pub fn advance(&mut self, verified: &Verified, trace: &Trace) -> Step
        requires walks { Walks verified.now (picks_of trace.now.entries) self.old }
        requires within { self.old.at < length (picks_of trace.now.entries) }
        requires few { length (picks_of trace.now.entries) ≤ MAX_PICKS }
        ensures walks { (lending : LendingValue) → WalksBy lending verified.now (picks_of trace.now.entries) self.old
            → WalksBy lending verified.now (picks_of trace.now.entries) self.new }
        ensures at { self.new.at ≡ self.old.at + 1 }
        ensures steps { StepsAt verified.now.code (picks_of trace.now.entries) self.old.at result }
    {
        let pick = trace.pick(self.at);
        let step = self.machine.step(verified, pick);
        self.at += 1;
        step
    }

    /// Makes the picks up to a later position. All picks of the trace are enabled.
    pub fn walk_to(&mut self, verified: &Verified, trace: &Trace, to: u32)
        requires walks { Walks verified.now (picks_of trace.now.entries) self.old }
        requires later { self.old.at ≤ to }
        requires within { to ≤ length (picks_of trace.now.entries) }
        ensures walks { (lending : LendingValue) → WalksBy lending verified.now (picks_of trace.now.entries) self.old
            → WalksBy lending verified.now (picks_of trace.now.entries) self.new }
        ensures at { self.new.at ≡ to }
    {
        while self.at < to {
            let rest = trace.rest_of_span(self.at);
            let most = rest.count.min(to - self.at);
            let made = repeat(verified, &mut self.machine, rest.pick, most);
            self.at += made;
        }
    }
}

/// Makes a pick as long as it is silent, and once more, at most `most` times. Returns how often it was made.
/// The pick is that of the next `most` places of an enabled list.
fn repeat(verified: &Verified, machine: &mut Machine, pick: Pick, most: u32) -> u32
    requires machine { IsMachine verified.now machine.old }
    requires some { 0 < most }
    ensures some { 0 < result }
    ensures within { result ≤ most }
    ensures stands { (lending : LendingValue) (picks : List AnyPick) (i : ℕ)
        → AreEnabledBy lending verified.now.code picks → Repeat picks i pick most
        → IsAfterBy lending verified.now picks i machine.old
        → IsAfterBy lending verified.now picks (i + result) machine.new }
{
    let silent = machine.run_silent(verified, pick, most);
    if silent == most {
        return silent;
    }
    let _ = machine.step(verified, pick);
    silent + 1
}

//! Which arms may be lent.

ghost use Rattle.std.specs.Prelude.{◌≡◌, ◌≢◌, ◌↔◌, ◌⊎◌, ◌<◌, ◌≤◌, Some, None, IsTrue, MatchOption, slice_get};
ghost use Rattle.pb_base.specs.declared.pick.Pick.{Pick};
ghost use Rattle.pb_machine.specs.Looks.{look_at};
ghost use Rattle.pb_machine.specs.declared.look.Look.TheVariants.{Stays};
ghost use Rattle.pb_shared.specs.Ledgers.{HasOutcome, IsReady};
ghost use Rattle.pb_shared.specs.Taking.{NoneReady};

use crate::book::Book;
use crate::brand::CodeBrand;
use crate::marks::is_marked;
use pb_base::Pick;
use pb_base::limits::{MAX_ARMS, MAX_PROCESSES};
use pb_machine::Look;

impl<'v, C: CodeBrand> Book<'v, C> {
    /// Returns the first ready arm, from the process whose turn it is.
    #[inline(always)]
    pub(crate) fn find_ready(&self) -> Option<Pick>
        ensures { MatchOption result (NoneReady C.code.code self.now) (λ pick. IsReady C.code.code self.now pick) }
    {
        let processes = self.processes();
        let next = self.next_process.min(processes);
        match self.ready_within(next, processes) {
            Some(pick) => Some(pick),
            None => self.ready_within(0, next),
        }
    }

    /// Returns whether `take` would find nothing to lend, and no outcome.
    pub(crate) fn is_idle(&self) -> bool
        ensures { IsTrue result → HasOutcome self.now None × ((self.now.left ≡ 0) ⊎ NoneReady C.code.code self.now) }
    {
        if self.outcome().is_some() {
            return false;
        }
        self.left == 0 || self.find_ready().is_none()
    }

    /// Returns the first ready arm of the processes from one number on and below another.
    #[inline(always)]
    fn ready_within(&self, from: u8, to: u8) -> Option<Pick>
        ensures { MatchOption result
            ((pick : Pick) → from ≤ pick.process → pick.process < to → IsReady C.code.code self.now pick → ⊥)
            (λ pick. IsReady C.code.code self.now pick) }
    {
        for process in from..to {
            if let Some(arm) = self.ready_arm(process) {
                return Some(Pick { process, arm });
            }
        }
        None
    }

    /// Returns the first ready arm of a process, from the one whose turn it is. Of a process that is out only
    /// the slip is looked at: another processor may write the rest.
    #[inline(always)]
    fn ready_arm(&self, process: u8) -> Option<u8>
        ensures { MatchOption result
            ((pick : Pick) → pick.process ≡ process → IsReady C.code.code self.now pick → ⊥)
            (λ arm. (pick : Pick) → pick.process ≡ process → pick.arm ≡ arm → IsReady C.code.code self.now pick) }
    {
        if !self.is_home(process) {
            return None;
        }
        let arms = self.arms(process);
        let next = self
            .next_arms
            .get(usize::from(process))
            .copied()
            .unwrap_or(0)
            .min(arms);
        match self.ready_arm_within(process, next, arms) {
            Some(arm) => Some(arm),
            None => self.ready_arm_within(process, 0, next),
        }
    }

    /// Returns the first ready arm of a process from one number on and below another.
    #[inline(always)]
    fn ready_arm_within(&self, process: u8, from: u8, to: u8) -> Option<u8>
        ensures { MatchOption result
            ((pick : Pick) → pick.process ≡ process → from ≤ pick.arm → pick.arm < to → IsReady C.code.code self.now pick → ⊥)
            (λ arm. (pick : Pick) → pick.process ≡ process → pick.arm ≡ arm → IsReady C.code.code self.now pick) }
    {
        for arm in from..to {
            if self.is_ready(Pick { process, arm }) {
                return Some(arm);
            }
        }
        None
    }

    /// Returns whether this arm may be lent.
    #[inline(always)]
    fn is_ready(&self, pick: Pick) -> bool
        ensures { IsTrue result ↔ IsReady C.code.code self.now pick }
    {
        self.is_home(pick.process) && self.can_step(pick) && !is_marked(&self.refused, pick)
    }

    /// Returns whether this process is there and at home.
    #[inline(always)]
    fn is_home(&self, process: u8) -> bool
        ensures { IsTrue result ↔ (slice_get self.now.slips process ≡ Some None) }
    {
        match self.slips.get(usize::from(process)) {
            Some(None) => true,
            Some(Some(_)) => false,
            None => false,
        }
    }

    /// Returns whether an arm can step if the banker lets it.
    #[inline(always)]
    fn can_step(&self, pick: Pick) -> bool
        ensures { IsTrue result ↔ (look_at C.code.code self.now.machine pick ≢ Stays) }
    {
        match self.machine.look(self.code, pick) {
            Look::Stays => false,
            Look::Silent => true,
            Look::Visible => true,
        }
    }

    /// Returns how many processes there are.
    #[inline(always)]
    pub(crate) fn processes(&self) -> u8
        ensures { (pick : Pick) → IsReady C.code.code self.now pick → pick.process < result }
    {
        self.slips.len().min(MAX_PROCESSES) as u8
    }

    /// Returns how many arms a process has.
    #[inline(always)]
    pub(crate) fn arms(&self, process: u8) -> u8
        ensures { (pick : Pick) → pick.process ≡ process → IsReady C.code.code self.now pick → pick.arm < result }
    {
        if usize::from(process) >= self.slips.len() {
            return 0;
        }
        self.machine.proc(usize::from(process)).arms().min(MAX_ARMS) as u8
    }
}

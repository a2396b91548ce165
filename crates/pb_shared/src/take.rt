//! Lending a process.

ghost use Rattle.std.specs.Prelude.{◌≡◌, ◌⊎◌, ℕ, ◌-◌, ◌<◌, ◌≤◌, length, Some, None, IfOk, OnErr, slice_get, slice_set};
ghost use Rattle.pb_shared.specs.Ledgers.{HasOutcome};
ghost use Rattle.pb_shared.specs.Spares.{IsSpareOf};
ghost use Rattle.pb_shared.specs.Taking.{NoneReady, Takes, StartsAt};

use crate::book::Book;
use crate::brand::CodeBrand;
use crate::outcome::Outcome;
use crate::slip::Slip;
use crate::spare::Spare;
use crate::stretch::Stretch;
use crate::taken::Taken;
use pb_base::{NoMemory, Pick};
use std::alloc::Global;
use std::marker::PhantomData;

impl<'v, C: CodeBrand> Book<'v, C> {
    /// Lends a ready arm of a process at home, for at most `quantum` picks, if there is one and there are
    /// picks left. Out of memory leaves the book as it was.
    #[inline(always)]
    pub fn take(&mut self, alloc: Global, quantum: u32) -> Result<Taken<'v, C>, NoMemory>
        requires { 0 < quantum }
        ensures ok { IfOk result (λ taken. Takes C.code self.old quantum taken self.new) }
        ensures err { OnErr result (self.new ≡ self.old) }
    {
        if self.left == 0 {
            return Ok(self.over_or_idle());
        }
        let Some(pick) = self.find_ready() else {
            return Ok(self.over_or_idle());
        };
        if let Some(outcome) = self.outcome_beside(usize::from(pick.process)) {
            return Ok(Taken::Over(outcome));
        }
        let allowance = quantum.min(self.left);
        let stretch = self.fresh(alloc, pick, allowance)?;
        self.lend(pick, allowance);
        Ok(Taken::Work(stretch))
    }

    /// Returns the outcome if there is one, of a book that can lend no arm.
    fn over_or_idle(&self) -> Taken<'v, C>
        requires { (self.now.left ≡ 0) ⊎ NoneReady C.code.code self.now }
        ensures { (quantum : ℕ) → Takes C.code self.now quantum result self.now }
    {
        let _ = &self.code;
        match self.outcome() {
            Some(outcome) => Taken::Over(outcome),
            None => Taken::Idle,
        }
    }

    /// Returns the outcome if there is one, of a book with picks left. As long as this process, which is to
    /// be lent, is not over there is none, and then no other process is looked at: another processor may
    /// write them.
    #[inline(always)]
    pub(crate) fn outcome_beside(&self, process: usize) -> Option<Outcome>
        requires process { process < length self.now.slips }
        requires left { 0 < self.now.left }
        ensures { HasOutcome self.now result }
    {
        if !self.machine.proc(process).is_over() {
            return None;
        }
        self.outcome()
    }

    /// Returns a stretch of this arm with nothing made. It takes memory only if the process was never lent
    /// before.
    #[inline(always)]
    fn fresh(
        &mut self,
        alloc: Global,
        pick: Pick,
        allowance: u32,
    ) -> Result<Stretch<'v, C>, NoMemory>
        requires { slice_get self.old.slips pick.process ≡ Some None }
        ensures same { self.new ≡ self.old }
        ensures starts { IfOk result (λ lent. StartsAt self.old pick allowance lent) }
    {
        let number = usize::from(pick.process);
        let mut spare = self.spare(alloc, pick)?;
        spare.begin(self.machine.proc(number), pick, allowance);
        Ok(Stretch {
            code: self.code,
            spare,
            brand: PhantomData,
        })
    }

    /// Takes the spare of a process, or copies it if it was never lent before.
    #[inline(always)]
    fn spare(&mut self, alloc: Global, pick: Pick) -> Result<Box<Spare>, NoMemory>
        requires { slice_get self.old.slips pick.process ≡ Some None }
        ensures same { self.new ≡ self.old }
        ensures spare { IfOk result (λ spare. IsSpareOf C.code pick.process spare.value) }
    {
        let process = usize::from(pick.process);
        let kept = self.spares[process].take();
        if let Some(spare) = kept {
            return Ok(spare);
        }
        Spare::copies_of(alloc, pick, self.machine.proc(process))
    }

    /// Writes the slip of this arm.
    #[inline(always)]
    fn lend(&mut self, pick: Pick, allowance: u32)
        requires at_home { slice_get self.old.slips pick.process ≡ Some None }
        requires within { allowance ≤ self.old.left }
        ensures { self.new ≡ record self.old {
          left = self.old.left - allowance;
          slips = slice_set self.old.slips pick.process
              (Some (record { arm = pick.arm; allowance = allowance }));
        } }
    {
        let process = usize::from(pick.process);
        let next_process = next_of(pick.process, self.processes());
        let next_arm = next_of(pick.arm, self.arms(pick.process));
        self.slips[process] = Some(Slip {
            arm: pick.arm,
            allowance,
        });
        self.left -= allowance;
        self.next_process = next_process;
        set_turn(&mut self.next_arms, process, next_arm);
    }
}

/// Returns the number after this one, or 0 if that is not below `count`.
pub(crate) fn next_of(number: u8, count: u8) -> u8 {
    let next = number.saturating_add(1);
    if next < count { next } else { 0 }
}

/// Sets the arm of a process whose turn it is next.
pub(crate) fn set_turn(turns: &mut Vec<u8>, process: usize, arm: u8) {
    if let Some(turn) = turns.get_mut(process) {
        *turn = arm;
    }
}

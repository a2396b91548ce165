//! Stretches that come home.

ghost use Rattle.std.specs.Prelude.{◌≡◌, ◌↔◌, ◌<◌, IfOk, IfErr, IsTrue, None, slice_index_or};
ghost use Rattle.pb_shared.specs.Ledgers.{IsLentBy, Commits, given_back};
ghost use Rattle.pb_shared.specs.Taking.{CommitsAndTakes, IsNotBrought};
ghost use Rattle.pb_shared.specs.declared.fault.CommitFault.TheVariants.{Stranger};

use crate::answer::Answer;
use crate::book::Book;
use crate::brand::CodeBrand;
use crate::fault::{CommitFault, HomeFault};
use crate::slip::Slip;
use crate::spare::Spare;
use crate::stretch::Stretch;
use crate::taken::Taken;
use crate::visible::try_visible;
use pb_base::NoMemory;
use std::alloc::Global;

impl<'v, C: CodeBrand> Book<'v, C> {
    /// Takes a stretch home. Its silent picks are appended, and then, if some of its allowance is left and
    /// the arm is at a visible pick, that pick is tried. A stretch that this book did not lend is handed
    /// back, and so is any if out of memory; then the book is as it was.
    #[inline(always)]
    pub fn commit(
        &mut self,
        stretch: Stretch<'v, C>,
    ) -> Result<Answer, (Stretch<'v, C>, CommitFault)>
        ensures ok { IfOk result (λ answer. IsLentBy self.old stretch.entry
            × Commits C.code.code self.old stretch.entry answer self.new) }
        ensures err { IfErr result (λ e. (e.0 ≡ stretch.entry) × (self.new ≡ self.old)
            × ((e.1 ≡ Stranger) ↔ (IsLentBy self.old stretch.entry → ⊥))) }
    {
        if !self.lent(&stretch) {
            return Err((stretch, CommitFault::Stranger));
        }
        if self.trace.reserve(2).is_err() {
            return Err((stretch, CommitFault::NoMemory));
        }
        let Stretch {
            code: _,
            mut spare,
            brand: _,
        } = stretch;
        let lent: &Spare = &spare;
        let (pick, allowance, made) = (lent.pick, lent.allowance, lent.made);
        let process = usize::from(pick.process);
        self.trace.push_silent(pick, made);
        spare.exchange(process, &mut self.machine);
        self.spares[process] = Some(spare);
        self.slips[process] = None;
        self.left += allowance - made;
        if made == allowance {
            return Ok(Answer::Silent);
        }
        Ok(try_visible(
            self.code,
            &mut self.machine,
            &mut self.trace,
            &mut self.left,
            &mut self.refused,
            pick,
        ))
    }

    /// Takes a stretch home as `commit` does, and then lends the next as `take` does. A stretch that is
    /// handed back leaves the book as it was; out of memory in the take leaves it as the commit did.
    #[inline(always)]
    pub fn commit_and_take(
        &mut self,
        stretch: Stretch<'v, C>,
        alloc: Global,
        quantum: u32,
    ) -> Result<(Answer, Result<Taken<'v, C>, NoMemory>), (Stretch<'v, C>, CommitFault)>
        requires { 0 < quantum }
        ensures ok { IfOk result (λ made. IsLentBy self.old stretch.entry
            × CommitsAndTakes C.code self.old stretch.entry quantum made.0 made.1 self.new) }
        ensures err { IfErr result (λ e. (e.0 ≡ stretch.entry) × (self.new ≡ self.old)
            × ((e.1 ≡ Stranger) ↔ (IsLentBy self.old stretch.entry → ⊥))) }
    {
        match self.commit(stretch) {
            Ok(answer) => Ok((answer, self.take(alloc, quantum))),
            Err(back) => Err(back),
        }
    }

    /// Takes a stretch home as `commit` does, and as `put_back` does if out of memory. A stretch that this book
    /// did not lend is handed back.
    #[inline(always)]
    pub fn bring_home(&mut self, stretch: Stretch<'v, C>) -> Result<Answer, HomeFault<'v, C>>
        ensures ok { IfOk result (λ answer. IsLentBy self.old stretch.entry
            × Commits C.code.code self.old stretch.entry answer self.new) }
        ensures err { IfErr result (λ fault. IsNotBrought self.old stretch.entry fault self.new) }
    {
        match self.commit(stretch) {
            Ok(answer) => Ok(answer),
            Err((stretch, CommitFault::Stranger)) => Err(HomeFault::Stranger(stretch)),
            Err((stretch, CommitFault::NoMemory)) => match self.put_back(stretch) {
                Ok(()) => Err(HomeFault::NoMemory),
                Err(stretch) => Err(HomeFault::Stranger(stretch)),
            },
        }
    }

    /// Takes a stretch back as it was lent. A stretch that this book did not lend is handed back.
    pub fn put_back(&mut self, stretch: Stretch<'v, C>) -> Result<(), Stretch<'v, C>>
        ensures ok { IfOk result (λ _. IsLentBy self.old stretch.entry × (self.new ≡ given_back self.old stretch.entry)) }
        ensures err { IfErr result (λ e. (e ≡ stretch.entry) × (self.new ≡ self.old)
            × (IsLentBy self.old stretch.entry → ⊥)) }
    {
        if !self.lent(&stretch) {
            return Err(stretch);
        }
        let Stretch {
            code: _,
            spare,
            brand: _,
        } = stretch;
        let lent: &Spare = &spare;
        let process = usize::from(lent.pick.process);
        let allowance = lent.allowance;
        self.spares[process] = Some(spare);
        self.slips[process] = None;
        self.left += allowance;
        Ok(())
    }

    /// Returns whether this book lent the stretch.
    #[inline(always)]
    fn lent(&self, stretch: &Stretch<'v, C>) -> bool
        ensures { IsTrue result ↔ IsLentBy self.now stretch.now }
    {
        let lent: &Spare = &stretch.spare;
        let process = usize::from(lent.pick.process);
        let Some(slip) = self.slip(process) else {
            return false;
        };
        if slip.arm != lent.pick.arm {
            return false;
        }
        if slip.allowance != lent.allowance {
            return false;
        }
        self.machine.proc(process).same(&lent.base)
    }

    /// Returns the slip of a process, if it is out.
    fn slip(&self, process: usize) -> Option<Slip>
        ensures { result ≡ slice_index_or self.now.slips process None }
    {
        self.slips.get(process).copied().unwrap_or(None)
    }
}

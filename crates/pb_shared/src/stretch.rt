//! Stretches, and how their picks are made.

ghost use Rattle.std.specs.Prelude.{◌≡◌, ◌+◌, ◌-◌, ◌<◌, ◌≤◌, ◌⊎◌};
ghost use Rattle.pb_machine.specs.Steps.{StepsAloud};
ghost use Rattle.pb_machine.specs.Views.{proc_view};
ghost use Rattle.pb_shared.specs.Lending.{Lent, IsSilentRun};

use crate::brand::CodeBrand;
use crate::spare::Spare;
use pb_base::Pick;
use pb_machine::Proc;
use pb_verifier::Verified;
use std::marker::{Model, PhantomData};

/// A process lent to one worker, with one arm to step. It refers to the code alone, and so can hold no lock.
/// It has to be spent, by `commit`, `put_back` or `forfeit`.
pub struct Stretch<'v, C: CodeBrand> {
    pub(crate) code: &'v Verified,
    pub(crate) spare: Box<Spare>,
    pub(crate) brand: PhantomData<C>,
}

impl<'v, C: CodeBrand> Model for Stretch<'v, C> {
    ghost use Rattle.pb_shared.specs.Lending.{Lent};

    ghost Value = { Lent };

    ghost use Rattle.pb_shared.specs.Stretches.{lent_of, IsSound};

    ghost view = { lent_of };

    ghost invariant = { λ s. IsSound C.code s };
}

impl<'v, C: CodeBrand> Stretch<'v, C> {
    /// Makes silent picks of the arm until `max` are made, the allowance is used, or the next pick is visible
    /// or not enabled, and returns how many it made. It takes no lock and no memory.
    pub fn run(&mut self, max: u32) -> u32
        ensures same { self.new ≡ record self.old { made = self.old.made + result; state = self.new.state } }
        ensures run { IsSilentRun C.code.code self.new }
        ensures most { result ≤ max }
        ensures stops { (result ≡ max) ⊎ ((self.new.made ≡ self.new.allowance)
            ⊎ StepsAloud C.code.code self.new.pick.process self.new.state self.new.pick.arm) }
    {
        let code: &'v Verified = self.code;
        self.spare.run(code, max)
    }

    /// Returns the arm that it steps.
    pub fn pick(&self) -> Pick
        ensures { result ≡ self.now.pick }
    {
        self.spare.pick
    }

    /// Returns how many picks it has made.
    pub fn made(&self) -> u32
        ensures { result ≡ self.now.made }
    {
        self.spare.made
    }

    /// Returns how many picks it may make.
    pub fn allowance(&self) -> u32
        ensures { result ≡ self.now.allowance }
    {
        self.spare.allowance
    }

    /// Returns the process as it was lent.
    pub fn base(&self) -> &Proc
        ensures { proc_view result.now ≡ self.now.base }
    {
        &self.spare.base
    }

    /// Returns the process as it is now.
    pub fn state(&self) -> &Proc
        ensures { proc_view result.now ≡ self.now.state }
    {
        &self.spare.state
    }

    /// Gives the stretch up. Its process stays out for good.
    pub fn forfeit(self) {
        let Stretch {
            code: _,
            spare: _,
            brand: _,
        } = self;
    }
}

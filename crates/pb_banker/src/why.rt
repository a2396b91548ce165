//! Why a request is granted or not.

ghost use Rattle.std.specs.Prelude.{◌≡◌, ◌<◌, ◌≤◌, ◌+◌, ℕ, All, IfNone, IfSome};
ghost use Rattle.pb_base.specs.Bundle.{IsDistinct};
ghost use Rattle.pb_base.specs.Banker.{claim, loan, cash, IsWithinClaim, IsWithinCash};

use crate::accounts::Accounts;
use crate::reason::Reason;
use pb_base::Bundle;

impl Accounts {
    ghost use Rattle.pb_banker.specs.Accounts.{state_of, IsSound};
    ghost use Rattle.pb_banker.specs.Jobs.{IsFirstWithout, SaysWhy};

    /// Returns why a request would be granted or not.
    pub fn why(&self, p: usize, bundle: &Bundle) -> Reason
        requires sound { IsSound self.now }
        requires process { p < self.now.processes }
        requires below { All (λ pair. pair.resource < self.now.resources) bundle.now }
        ensures { SaysWhy (state_of self.now) p bundle.now result }
    {
        if let Some(r) = self.first_over_claim(p, bundle) {
            return Reason::OverClaim(r);
        }
        if let Some(r) = self.first_over_cash(bundle) {
            return Reason::OverCash(r);
        }
        self.rest_of(p, bundle)
    }

    /// Returns who could not finish after a loan, if any.
    fn rest_of(&self, p: usize, bundle: &Bundle) -> Reason
        requires sound { IsSound self.now }
        requires process { p < self.now.processes }
        requires below { All (λ pair. pair.resource < self.now.resources) bundle.now }
        requires within_claim { IsWithinClaim (state_of self.now) p bundle.now }
        requires within_cash { IsWithinCash (state_of self.now) bundle.now }
        ensures { SaysWhy (state_of self.now) p bundle.now result }
    {
        // Called for its contract alone, which the proof needs.
        let _ = bundle.len();
        let mut lent = *self;
        lent.lend(p, bundle);
        let mut looked = 0;
        let found = lent.search(&mut looked);
        if found.count == lent.processes {
            return Reason::Allowed;
        }
        Reason::Rest(found.waiting)
    }

    /// Returns the resource of the first pair that passes the claim of a process.
    fn first_over_claim(&self, p: usize, bundle: &Bundle) -> Option<usize>
        requires sound { IsSound self.now }
        requires process { p < self.now.processes }
        requires below { All (λ pair. pair.resource < self.now.resources) bundle.now }
        ensures none { IfNone result (IsWithinClaim (state_of self.now) p bundle.now) }
        ensures some { IfSome result (λ r. IsFirstWithout (λ pair. loan (state_of self.now) p pair.resource
            + pair.amount ≤ claim (state_of self.now) p pair.resource) bundle.now r) }
    {
        for i in 0..bundle.len() {
            let pair = bundle.get(i);
            let r = pair.resource as usize;
            if pair.amount > self.claims[p][r] - self.loans[p][r] {
                return Some(r);
            }
        }
        None
    }

    /// Returns the resource of the first pair for which the cash does not suffice.
    fn first_over_cash(&self, bundle: &Bundle) -> Option<usize>
        requires sound { IsSound self.now }
        requires below { All (λ pair. pair.resource < self.now.resources) bundle.now }
        ensures none { IfNone result (IsWithinCash (state_of self.now) bundle.now) }
        ensures some { IfSome result (λ r. IsFirstWithout (λ pair. pair.amount
            ≤ cash (state_of self.now) pair.resource) bundle.now r) }
    {
        for i in 0..bundle.len() {
            let pair = bundle.get(i);
            let r = pair.resource as usize;
            if pair.amount > self.cash[r] {
                return Some(r);
            }
        }
        None
    }
}

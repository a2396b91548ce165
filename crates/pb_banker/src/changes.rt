//! Another capital of a resource.

ghost use Rattle.std.specs.Prelude.{◌≡◌, ◌<◌, ◌≤◌, ◌↔◌, ℕ, IsTrue, take, slice_index_or, false};
ghost use Rattle.std.specs.Bool.{OnTrue, OnFalse};
ghost use Rattle.pb_base.specs.Banker.{claim, Finishes};
ghost use Rattle.pb_banker.specs.Accounts.{state_of, IsSound};
ghost use Rattle.pb_banker.specs.Changes.{SaysOfCapital, state_changed};

use crate::accounts::Accounts;
use crate::reason::CapitalSaid;
use pb_base::limits::{MAX_AMOUNT, MAX_PROCESSES};

impl Accounts {
    ghost use Rattle.pb_banker.specs.Changes.{AreClaimsWithin, AreLoansWithin, with_capital};

    /// Returns whether a claim on a resource is over an amount.
    fn is_claimed(&self, r: usize, amount: u32) -> bool
        requires sound { IsSound self.now }
        requires resource { r < self.now.resources }
        ensures over { OnTrue result (¬ AreClaimsWithin (state_of self.now) r amount) }
        ensures within { OnFalse result (AreClaimsWithin (state_of self.now) r amount) }
    {
        for p in 0..self.processes {
            if self.claims[p][r] > amount {
                return true;
            }
        }
        false
    }

    /// Returns the slots whose claim on a resource is over an amount.
    fn claimed(&self, r: usize, amount: u32) -> [bool; MAX_PROCESSES]
        requires sound { IsSound self.now }
        requires resource { r < self.now.resources }
        ensures { (p : ℕ) → p < self.now.processes
            → (IsTrue (slice_index_or result p false) ↔ amount < claim (state_of self.now) p r) }
    {
        let mut slots = [false; MAX_PROCESSES];
        for p in 0..self.processes {
            slots[p] = self.claims[p][r] > amount;
        }
        slots
    }

    /// Sets the capital of a resource, and its cash.
    fn set_capital(&mut self, r: usize, amount: u32)
        requires sound { IsSound self.old }
        requires resource { r < self.old.resources }
        requires small { amount ≤ MAX_AMOUNT }
        requires claims { AreClaimsWithin (state_of self.old) r amount }
        requires loans { AreLoansWithin (state_of self.old) r amount }
        ensures sound { IsSound self.new }
        ensures state { state_of self.new ≡ with_capital (state_of self.old) r amount }
        ensures processes { self.new.processes ≡ self.old.processes }
    {
        let lent = self.capital[r] - self.cash[r];
        self.capital[r] = amount;
        self.cash[r] = amount - lent;
    }
}

/// Changes the capital of a resource, if each claim on it and all loans of it are within the new one, and the state with
/// it is safe; `order` is one that finishes.
pub fn change_capital(
    accounts: &mut Accounts,
    order: &mut [u8; MAX_PROCESSES],
    r: usize,
    amount: u32,
) -> CapitalSaid
    requires sound { IsSound accounts.old }
    requires finishes { Finishes (state_of accounts.old) (take accounts.old.processes order.old) }
    requires resource { r < accounts.old.resources }
    requires small { amount ≤ MAX_AMOUNT }
    ensures said { SaysOfCapital (state_of accounts.old) r amount result }
    ensures state { state_of accounts.new ≡ state_changed (state_of accounts.old) r amount result }
    ensures sound { IsSound accounts.new }
    ensures finishes { Finishes (state_of accounts.new) (take accounts.new.processes order.new) }
{
    if accounts.is_claimed(r, amount) {
        return CapitalSaid::Claimed(accounts.claimed(r, amount));
    }
    if amount < accounts.capital[r] - accounts.cash[r] {
        return CapitalSaid::OverCash;
    }
    let mut changed = *accounts;
    changed.set_capital(r, amount);
    let mut looked = 0;
    let found = changed.search(&mut looked);
    if found.count < changed.processes {
        return CapitalSaid::Rest(found.waiting);
    }
    accounts.set_capital(r, amount);
    let next = found.order;
    *order = next;
    CapitalSaid::Changed
}

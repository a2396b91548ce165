//! The decision of a bank, which goes by the asker.

ghost use Rattle.std.specs.Prelude.{◌≡◌, ◌<◌, ◌≤◌, ◌+◌, ◌++◌, ℕ, All, IsTrue, filter, length, slice_index, slice_index_or, take, false};
ghost use Rattle.std.specs.Bool.{OnTrue, OnFalse};
ghost use Rattle.std.specs.List.Sorted.{IsPermutation};
ghost use Rattle.pb_base.specs.Banker.{everyone, Finishes, IsSafe};
ghost use Rattle.pb_banker.specs.Accounts.{state_of, IsSound};
ghost use Rattle.pb_banker.specs.Asking.{Answers, state_after};

use crate::accounts::{Accounts, Row, Search};
use crate::answer::Answer;
use crate::places::{move_to_front, place_of};
use pb_base::Bundle;
use pb_base::limits::MAX_PROCESSES;

/// Grants what a job asks for, or leaves the accounts as they are; `order` is one that finishes, and need not be the one
/// that `decide` would keep.
pub fn decide_by_asker(
    accounts: &mut Accounts,
    order: &mut [u8; MAX_PROCESSES],
    asker: usize,
    bundle: &Bundle,
) -> Answer
    requires sound { IsSound accounts.old }
    requires finishes { Finishes (state_of accounts.old) (take accounts.old.processes order.old) }
    requires process { asker < accounts.old.processes }
    requires below { All (λ pair. pair.resource < accounts.old.resources) bundle.now }
    ensures answer { Answers (state_of accounts.old) asker bundle.now result }
    ensures state { state_of accounts.new ≡ state_after (state_of accounts.old) asker bundle.now result }
    ensures sound { IsSound accounts.new }
    ensures finishes { Finishes (state_of accounts.new) (take accounts.new.processes order.new) }
{
    if !accounts.is_within_claim(asker, bundle) {
        return Answer::OverClaim;
    }
    if !accounts.is_within_cash(bundle) {
        return Answer::NotNow;
    }
    accounts.lend(asker, bundle);
    if accounts.reorder(order, asker, bundle) {
        return Answer::Granted;
    }
    accounts.take_back(asker, bundle);
    Answer::NotNow
}

impl Accounts {
    ghost use Rattle.pb_banker.specs.Accounts.{FitsIn};
    ghost use Rattle.pb_banker.specs.Askers.{FitBy, IsFound, IsLeftBy, IsLentFrom};

    /// Makes of an order that finished before a loan one that finishes after it, and returns whether there is one. An
    /// asker who fits at once comes first. Else the order stays if all before him still fit. Else some who fit in turn,
    /// the last of whom is the asker, come first.
    fn reorder(&self, order: &mut [u8; MAX_PROCESSES], asker: usize, bundle: &Bundle) -> bool
        requires sound { IsSound self.now }
        requires lent { IsLentFrom (state_of self.now) asker bundle.now (take self.now.processes order.old) }
        ensures finishes { OnTrue result (Finishes (state_of self.now) (take self.now.processes order.new)) }
        ensures unsafe_state { OnFalse result (¬ IsSafe (state_of self.now)) }
        ensures kept { OnFalse result (order.new ≡ order.old) }
    {
        if self.fits(asker, &self.cash) {
            move_to_front(order, self.processes, asker);
            return true;
        }
        let place = place_of(order, self.processes, asker);
        if self.still_fit(order, place, bundle) {
            return true;
        }
        let found = self.search_for(asker, order);
        if found.waiting[asker] {
            return false;
        }
        found.put_first(order, self.processes);
        true
    }

    /// Returns whether all before a place fit by each resource of which a bundle has something.
    fn still_fit(&self, order: &[u8; MAX_PROCESSES], place: usize, bundle: &Bundle) -> bool
        requires sound { IsSound self.now }
        requires everyone { IsPermutation (everyone (state_of self.now)) (take self.now.processes order.now) }
        requires place { place < self.now.processes }
        requires below { All (λ pair. pair.resource < self.now.resources) bundle.now }
        ensures { OnTrue result (All (λ pair. 0 < pair.amount → FitBy (state_of self.now) (take place order.now) pair.resource) bundle.now) }
    {
        for i in 0..bundle.len() {
            let pair = bundle.get(i);
            if pair.amount > 0 && !self.still_fit_by(order, place, pair.resource as usize) {
                return false;
            }
        }
        true
    }

    /// Returns whether all before a place fit by one resource.
    fn still_fit_by(&self, order: &[u8; MAX_PROCESSES], place: usize, r: usize) -> bool
        requires sound { IsSound self.now }
        requires everyone { IsPermutation (everyone (state_of self.now)) (take self.now.processes order.now) }
        requires place { place < self.now.processes }
        requires resource { r < self.now.resources }
        ensures { OnTrue result (FitBy (state_of self.now) (take place order.now) r) }
    {
        let mut available = self.cash[r];
        for k in 0..place {
            let p = order[k] as usize;
            let loan = self.loans[p][r];
            if self.claims[p][r].saturating_sub(loan) > available {
                return false;
            }
            available += loan;
        }
        true
    }

    /// Finds some who fit in turn, until the asker is among them: an order is gone through to and fro.
    fn search_for(&self, asker: usize, order: &[u8; MAX_PROCESSES]) -> Search
        requires sound { IsSound self.now }
        requires everyone { IsPermutation (everyone (state_of self.now)) (take self.now.processes order.now) }
        requires asker { asker < self.now.processes }
        ensures found { IsFound (state_of self.now) result }
        ensures unsafe_state { IsTrue (slice_index_or result.waiting asker false) → ¬ IsSafe (state_of self.now) }
    {
        let mut found = Search {
            order: [0; MAX_PROCESSES],
            waiting: [true; MAX_PROCESSES],
            count: 0,
        };
        let mut available = self.cash;
        let mut way = *order;
        while found.waiting[asker] {
            let before = found.count;
            self.go_through(&way, asker, &mut found, &mut available);
            if found.count == before {
                return found;
            }
            way[..self.processes].reverse();
        }
        found
    }

    /// Finds those who wait and fit as they come in an order, until the asker is found.
    fn go_through(
        &self,
        order: &[u8; MAX_PROCESSES],
        asker: usize,
        found: &mut Search,
        available: &mut Row,
    )
        requires sound { IsSound self.now }
        requires everyone { IsPermutation (everyone (state_of self.now)) (take self.now.processes order.now) }
        requires found { IsFound (state_of self.now) found.old }
        requires left { IsLeftBy (state_of self.now) found.old available.old }
        ensures found { IsFound (state_of self.now) found.new }
        ensures left { IsLeftBy (state_of self.now) found.new available.new }
        ensures more { found.old.count ≤ found.new.count }
        ensures stuck { found.new.count ≡ found.old.count → (q : ℕ) → q < self.now.processes
            → IsTrue (slice_index_or found.new.waiting q false) → ¬ FitsIn (state_of self.now) available.new q }
    {
        for i in 0..self.processes {
            let p = order[i] as usize;
            if found.waiting[p] && self.fits(p, available) {
                self.find(p, found, available);
                if p == asker {
                    return;
                }
            }
        }
    }

    /// Puts a process that fits after those found, and adds its loans to what is available.
    fn find(&self, p: usize, found: &mut Search, available: &mut Row)
        requires sound { IsSound self.now }
        requires found { IsFound (state_of self.now) found.old }
        requires left { IsLeftBy (state_of self.now) found.old available.old }
        requires process { p < self.now.processes }
        requires waits { IsTrue (slice_index_or found.old.waiting p false) }
        requires fits { FitsIn (state_of self.now) available.old p }
        ensures found { IsFound (state_of self.now) found.new }
        ensures left { IsLeftBy (state_of self.now) found.new available.new }
        ensures count { found.new.count ≡ found.old.count + 1 }
    {
        let count = found.count;
        found.order[count] = p as u8;
        found.waiting[p] = false;
        found.count = count + 1;
        self.return_loans(p, available);
    }
}

impl Search {
    /// Puts those found before all others of an order, who stay as they were.
    fn put_first(&self, order: &mut [u8; MAX_PROCESSES], processes: usize)
        requires few { processes ≤ MAX_PROCESSES }
        requires below { All (λ p. p < MAX_PROCESSES) (take processes order.old) }
        requires room { self.now.count + length (filter (λ p. slice_index_or self.now.waiting p false) (take processes order.old))
            ≡ processes }
        ensures { take processes order.new ≡ take self.now.count self.now.order
            ++ filter (λ p. slice_index_or self.now.waiting p false) (take processes order.old) }
    {
        let mut next = self.order;
        let mut count = self.count;
        for k in 0..processes {
            let p = order[k];
            if self.waiting[p as usize] {
                next[count] = p;
                count += 1;
            }
        }
        *order = next;
    }
}

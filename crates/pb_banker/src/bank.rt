//! A bank of jobs that come and go.

ghost use Rattle.std.specs.Prelude.{◌≡◌, ◌<◌, ◌≤◌, ◌↔◌, ℕ, [], length, take, replicate, slice_set, All, IsTrue, true, false};
ghost use Rattle.std.specs.Bool.{OnTrue};
ghost use Rattle.pb_base.specs.Banker.{processes, resources, capital, claim, loan, cash};
ghost use Rattle.pb_base.specs.Banker.{IsSafe, IsWellFormed, IsLeastFirst, IsAllowed, with_loan, without_loan};
ghost use Rattle.pb_banker.specs.Asking.{Answers, state_after};
ghost use Rattle.pb_banker.specs.Value.{start_state};

use crate::accounts::Accounts;
use crate::answer::Answer;
use crate::asker::decide_by_asker;
use crate::banker::rising;
use crate::changes::change_capital;
use crate::claims::change_claim;
use crate::jobs::{admit, no_rows, vacate};
use crate::order::OrderSaid;
use crate::reason::{CapitalSaid, ClaimSaid, Joined, Reason};
use pb_base::limits::{MAX_AMOUNT, MAX_PROCESSES};
use pb_base::{Bundle, Capital};
use std::marker::Model;

/// A banker whose jobs come and go. Each job is in a slot, by whose number it is named; a slot that a job has
/// left is free for the next. The banker's tables have a row for each slot up to the highest that was used, so
/// that a bank of few jobs is as fast as a banker of few processes. A free slot claims nothing and holds
/// nothing. After each call the state is safe.
#[derive(Drop)]
pub struct Bank {
    accounts: Accounts,
    order: [u8; MAX_PROCESSES],
    used: [bool; MAX_PROCESSES],
}

impl Model for Bank {
    ghost use Rattle.pb_banker.specs.Jobs.{BankValue};

    ghost Value = { BankValue };

    ghost use Rattle.pb_banker.specs.Jobs.{value_of, IsKept};

    ghost view = { λ b. value_of b.accounts b.used };

    ghost invariant = { λ b. IsKept b.accounts b.order b.used };
}

impl Bank {
    ghost use Rattle.pb_banker.specs.Changes.{SaysOfCapital, state_changed};
    ghost use Rattle.pb_banker.specs.Claims.{SaysOfClaim, state_claimed};
    ghost use Rattle.pb_banker.specs.Orders.{SaysOfOrder};
    ghost use Rattle.pb_banker.specs.Jobs.{HasJob, left, state_held, SaysOfJoining, SaysWhy};

    /// Returns the bank with this capital, and no jobs.
    pub fn new(capital: &Capital) -> Bank
        ensures state { result.state ≡ start_state capital.now [] }
        ensures used { result.used ≡ replicate MAX_PROCESSES false }
        ensures well_formed { IsWellFormed result.state }
        ensures safe { IsSafe result.state }
    {
        let accounts = no_rows(capital);
        let order = rising();
        let used = [false; MAX_PROCESSES];
        Bank {
            accounts,
            order,
            used,
        }
    }

    /// Gives a newcomer the first free slot: `OverCapital` if a claim of his is over the capital, `Full` if no
    /// slot is free. `claims` has an amount for each resource. He holds nothing at first.
    pub fn join(&mut self, claims: &[u32]) -> Joined
        requires { length claims.now ≡ resources self.old.state }
        ensures said { SaysOfJoining self.old claims.now result self.new }
        ensures well_formed { IsWellFormed self.new.state }
        ensures safe { IsSafe self.new.state }
    {
        admit(&mut self.accounts, &mut self.order, &mut self.used, claims)
    }

    /// Takes back all that a job holds, and frees its slot.
    pub fn leave(&mut self, p: usize)
        requires { p < processes self.old.state }
        ensures left { self.new ≡ record {
          state = left self.old.state p;
          used = slice_set self.old.used p false;
        } }
        ensures well_formed { IsWellFormed self.new.state }
        ensures safe { IsSafe self.new.state }
    {
        vacate(&mut self.accounts, &mut self.order, &mut self.used, p);
    }

    /// Asks for the pairs of a bundle, all or none of them, as `Banker::ask` does.
    pub fn ask(&mut self, p: usize, bundle: &Bundle) -> Answer
        requires process { p < processes self.old.state }
        requires below { All (λ pair. pair.resource < resources self.old.state) bundle.now }
        ensures answer { Answers self.old.state p bundle.now result }
        ensures state { self.new.state ≡ state_after self.old.state p bundle.now result }
        ensures used { self.new.used ≡ self.old.used }
        ensures well_formed { IsWellFormed self.new.state }
        ensures safe { IsSafe self.new.state }
    {
        decide_by_asker(&mut self.accounts, &mut self.order, p, bundle)
    }

    /// Makes a loan that is allowed.
    pub fn lend(&mut self, p: usize, bundle: &Bundle)
        requires process { p < processes self.old.state }
        requires below { All (λ pair. pair.resource < resources self.old.state) bundle.now }
        requires allowed { IsAllowed self.old.state p bundle.now }
        ensures state { self.new.state ≡ with_loan self.old.state p bundle.now }
        ensures used { self.new.used ≡ self.old.used }
        ensures well_formed { IsWellFormed self.new.state }
        ensures safe { IsSafe self.new.state }
    {
        let _ = self.ask(p, bundle);
    }

    /// Takes back what a job gives, which can be any part of what it holds.
    pub fn give(&mut self, p: usize, bundle: &Bundle)
        requires process { p < processes self.old.state }
        requires below { All (λ pair. pair.resource < resources self.old.state) bundle.now }
        requires held { All (λ pair. pair.amount ≤ loan self.old.state p pair.resource) bundle.now }
        ensures state { self.new.state ≡ without_loan self.old.state p bundle.now }
        ensures used { self.new.used ≡ self.old.used }
        ensures well_formed { IsWellFormed self.new.state }
        ensures safe { IsSafe self.new.state }
    {
        // Called for its contract alone, which the proof needs.
        let _ = bundle.len();
        self.accounts.take_back(p, bundle);
    }

    /// Changes the capital of a resource, if each claim on it and all loans of it are within the new one, and the state
    /// with it is safe.
    pub fn set_capital(&mut self, r: usize, amount: u32) -> CapitalSaid
        requires resource { r < resources self.old.state }
        requires small { amount ≤ MAX_AMOUNT }
        ensures said { SaysOfCapital self.old.state r amount result }
        ensures state { self.new.state ≡ state_changed self.old.state r amount result }
        ensures used { self.new.used ≡ self.old.used }
        ensures well_formed { IsWellFormed self.new.state }
        ensures safe { IsSafe self.new.state }
    {
        change_capital(&mut self.accounts, &mut self.order, r, amount)
    }

    /// Changes the claim of a job on a resource, if the state with it is safe.
    pub fn set_claim(&mut self, p: usize, r: usize, amount: u32) -> ClaimSaid
        requires job { HasJob self.old p }
        requires process { p < processes self.old.state }
        requires resource { r < resources self.old.state }
        requires held { loan self.old.state p r ≤ amount }
        requires within { amount ≤ capital self.old.state r }
        ensures said { SaysOfClaim self.old.state p r amount result }
        ensures state { self.new.state ≡ state_claimed self.old.state p r amount result }
        ensures used { self.new.used ≡ self.old.used }
        ensures well_formed { IsWellFormed self.new.state }
        ensures safe { IsSafe self.new.state }
    {
        change_claim(&mut self.accounts, &mut self.order, p, r, amount)
    }

    /// Returns why a request would be granted or not.
    pub fn why(&self, p: usize, bundle: &Bundle) -> Reason
        requires process { p < processes self.now.state }
        requires below { All (λ pair. pair.resource < resources self.now.state) bundle.now }
        ensures why { SaysWhy self.now.state p bundle.now result }
        ensures well_formed { IsWellFormed self.now.state }
        ensures safe { IsSafe self.now.state }
    {
        self.accounts.why(p, bundle)
    }

    /// Sets up a loan, if the state with it is safe, and returns why it is made or not.
    pub fn hold(&mut self, p: usize, bundle: &Bundle) -> Reason
        requires process { p < processes self.old.state }
        requires below { All (λ pair. pair.resource < resources self.old.state) bundle.now }
        ensures why { SaysWhy self.old.state p bundle.now result }
        ensures state { self.new.state ≡ state_held self.old.state p bundle.now result }
        ensures used { self.new.used ≡ self.old.used }
        ensures well_formed { IsWellFormed self.new.state }
        ensures safe { IsSafe self.new.state }
    {
        match self.why(p, bundle) {
            Reason::Allowed => {
                self.lend(p, bundle);
                Reason::Allowed
            }
            Reason::OverClaim(r) => Reason::OverClaim(r),
            Reason::OverCash(r) => Reason::OverCash(r),
            Reason::Rest(slots) => Reason::Rest(slots),
        }
    }

    /// Returns the finishing order in which each next slot is the first that fits, with 0 after it.
    pub fn order(&self) -> [u8; MAX_PROCESSES]
        ensures { IsLeastFirst self.now.state (take (processes self.now.state) result) }
    {
        let mut looked = 0;
        let found = self.accounts.search(&mut looked);
        found.order
    }

    /// Returns whether all jobs finish in an order, which names their slots, and why not.
    pub fn check_order(&self, order: &[u8]) -> OrderSaid
        requires { All (λ p. p < MAX_PROCESSES) order.now }
        ensures { SaysOfOrder self.now.state self.now.used order.now result }
    {
        self.accounts.check_order(&self.used, order)
    }

    /// Returns whether a job has the slot.
    pub fn has_job(&self, p: usize) -> bool
        requires { p < MAX_PROCESSES }
        ensures has { IsTrue result ↔ HasJob self.now p }
        ensures row { OnTrue result (p < processes self.now.state) }
    {
        self.used[p]
    }

    /// Returns the number of slots that have a row.
    pub fn slots(&self) -> usize
        ensures number { result ≡ processes self.now.state }
        ensures well_formed { IsWellFormed self.now.state }
        ensures safe { IsSafe self.now.state }
    {
        self.accounts.processes
    }

    /// Returns the number of resources, at most 16.
    pub fn resources(&self) -> usize
        ensures number { result ≡ resources self.now.state }
        ensures well_formed { IsWellFormed self.now.state }
    {
        self.accounts.resources
    }

    /// Returns what a job may hold of a resource at most.
    pub fn claim(&self, p: usize, r: usize) -> u32
        requires process { p < processes self.now.state }
        requires resource { r < resources self.now.state }
        ensures { result ≡ claim self.now.state p r }
    {
        let accounts = &self.accounts;
        accounts.claims[p][r]
    }

    /// Returns what a job holds of a resource.
    pub fn loan(&self, p: usize, r: usize) -> u32
        requires process { p < processes self.now.state }
        requires resource { r < resources self.now.state }
        ensures { result ≡ loan self.now.state p r }
    {
        let accounts = &self.accounts;
        accounts.loans[p][r]
    }

    /// Returns the capital of a resource less all loans of it.
    pub fn cash(&self, r: usize) -> u32
        requires { r < resources self.now.state }
        ensures { result ≡ cash self.now.state r }
    {
        let accounts = &self.accounts;
        accounts.cash[r]
    }

    /// Returns the capital of a resource.
    pub fn capital(&self, r: usize) -> u32
        requires { r < resources self.now.state }
        ensures { result ≡ capital self.now.state r }
    {
        let accounts = &self.accounts;
        accounts.capital[r]
    }
}

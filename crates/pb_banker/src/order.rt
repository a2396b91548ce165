//! Which orders of jobs finish.

ghost use Rattle.std.specs.Prelude.{◌≡◌, ◌<◌, ◌≤◌, ℕ, All, IfNone, IfSome, IsTrue, slice_index, slice_index_or, true, false};

use crate::accounts::{Accounts, Row};
use pb_base::limits::MAX_PROCESSES;

/// What is said of an order.
#[derive(Clone, Copy, Debug, PartialEq, Eq)]
pub enum OrderSaid {
    /// All finish in it.
    Finishing,
    /// No job is in this place, and nothing is wrong before it.
    NoJob(usize),
    /// The job in this place is also before it, and nothing else is wrong there.
    Twice(usize),
    /// The job in this place lacks this resource, the first of those that it lacks; nothing is wrong before it.
    Lacks(usize, usize),
    /// This job is not in it, the first of those that are not; nothing else is wrong.
    Missing(usize),
}

impl Accounts {
    ghost use Rattle.pb_banker.specs.Accounts.{state_of, FitsIn, IsSound};
    ghost use Rattle.pb_banker.specs.Jobs.{IsUsed};
    ghost use Rattle.pb_banker.specs.Orders.{SaysOfOrder, IsFirstShort};

    /// Returns whether all jobs finish in an order, and why not.
    pub fn check_order(&self, used: &[bool; MAX_PROCESSES], order: &[u8]) -> OrderSaid
        requires sound { IsSound self.now }
        requires rows { (p : ℕ) → IsUsed used.now p → p < self.now.processes }
        requires below { All (λ p. p < MAX_PROCESSES) order.now }
        ensures { SaysOfOrder (state_of self.now) used.now order.now result }
    {
        let mut waiting = [true; MAX_PROCESSES];
        let mut available = self.cash;
        for k in 0..order.len() {
            let p = order[k] as usize;
            if !used[p] {
                return OrderSaid::NoJob(k);
            }
            if !waiting[p] {
                return OrderSaid::Twice(k);
            }
            if let Some(r) = self.first_short(p, &available) {
                return OrderSaid::Lacks(k, r);
            }
            waiting[p] = false;
            self.return_loans(p, &mut available);
        }
        match first_waiting(used, &waiting) {
            Some(p) => OrderSaid::Missing(p),
            None => OrderSaid::Finishing,
        }
    }

    /// Returns the first resource of which a process may ask for more than the amounts.
    fn first_short(&self, p: usize, available: &Row) -> Option<usize>
        requires sound { IsSound self.now }
        requires process { p < self.now.processes }
        ensures none { IfNone result (FitsIn (state_of self.now) available.now p) }
        ensures some { IfSome result (λ r. IsFirstShort (state_of self.now) (λ q. slice_index available.now q) p r) }
    {
        let claims = &self.claims[p];
        let loans = &self.loans[p];
        for r in 0..self.resources {
            if claims[r].saturating_sub(loans[r]) > available[r] {
                return Some(r);
            }
        }
        None
    }
}

/// Returns the first slot that is used and waits.
fn first_waiting(used: &[bool; MAX_PROCESSES], waiting: &[bool; MAX_PROCESSES]) -> Option<usize>
    ensures none { IfNone result ((p : ℕ) → p < MAX_PROCESSES → IsTrue (slice_index_or used.now p false)
        → slice_index_or waiting.now p false ≡ false) }
    ensures used { IfSome result (λ p. IsTrue (slice_index_or used.now p false)) }
    ensures waits { IfSome result (λ p. IsTrue (slice_index_or waiting.now p false)) }
    ensures first { IfSome result (λ p. (q : ℕ) → q < p → IsTrue (slice_index_or used.now q false)
        → slice_index_or waiting.now q false ≡ false) }
{
    for p in 0..MAX_PROCESSES {
        if used[p] {
            if waiting[p] {
                return Some(p);
            }
        }
    }
    None
}

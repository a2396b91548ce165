//! A bank, and what its calls do.

ghost use Rattle.std.specs.Prelude.{◌≡◌, ◌<◌, ◌≤◌, ◌↔◌, IsTrue, length};
ghost use Rattle.std.specs.Bool.{OnTrue};
ghost use Rattle.pb_banker.specs.Accounts.{IsSound};
ghost use Rattle.pb_banker.specs.Jobs.{HasJob};
ghost use Rattle.pb_c_bank.specs.Banks.{Holds, IsBank, IsRequest, pairs_from, state, value};

use pb_banker::Accounts;
use pb_base::limits::{MAX_PROCESSES, MAX_RESOURCES};
use pb_base::{Bundle, Pair};

/// A bank of jobs that come and go, as plain data. What it holds besides numbers is said by `IsBank`.
#[repr(C)]
#[derive(Clone, Copy)]
pub struct Bank {
    pub accounts: Accounts,
    /// An order in which all finish.
    pub order: [u8; MAX_PROCESSES],
    /// Not 0 for each slot that a job has.
    pub jobs: [u8; MAX_PROCESSES],
}

/// Why a request is granted or not.
#[repr(C)]
#[derive(Clone, Copy)]
pub struct Why {
    /// The resource that it passes the claim or the cash of, else 0.
    pub resource: usize,
    /// 1 for each slot that could not finish after it, else 0.
    pub rest: [u8; MAX_PROCESSES],
}

/// Returns whether a job has the slot.
pub fn has_job(bank: &Bank, job: usize) -> bool
    requires { IsBank bank.now }
    ensures has { IsTrue result ↔ HasJob (value bank.now) job }
    ensures row { OnTrue result (job < bank.now.accounts.processes) }
{
    if job >= MAX_PROCESSES {
        return false;
    }
    bank.jobs[job] != 0
}

/// Returns whether the job is there, and there is an amount for each resource, of which there are some.
pub fn is_request(bank: &Bank, job: usize, amounts: &[u32]) -> bool
    requires { IsBank bank.now }
    ensures request { IsTrue result ↔ IsRequest (value bank.now) job amounts.now }
    ensures row { OnTrue result (job < bank.now.accounts.processes) }
    ensures each { OnTrue result (length amounts.now ≡ bank.now.accounts.resources) }
    ensures few { OnTrue result (length amounts.now ≤ MAX_RESOURCES) }
{
    if !has_job(bank, job) {
        return false;
    }
    if amounts.len() != bank.accounts.resources {
        return false;
    }
    !amounts.is_empty()
}

/// Returns a pair for each amount.
pub fn bundle_of(amounts: &[u32]) -> Bundle
    requires some { 0 < length amounts.now }
    requires few { length amounts.now ≤ MAX_RESOURCES }
    ensures { result ≡ pairs_from 0 amounts.now }
{
    let mut bundle = Bundle::one(0, amounts[0]);
    for r in 1..amounts.len() {
        bundle.push(Pair {
            resource: r as u8,
            amount: amounts[r],
        });
    }
    bundle
}

/// Returns whether a job holds each of the amounts.
pub fn holds(bank: &Bank, job: usize, amounts: &[u32]) -> bool
    requires sound { IsSound bank.now.accounts }
    requires job { job < bank.now.accounts.processes }
    requires each { length amounts.now ≡ bank.now.accounts.resources }
    ensures { IsTrue result ↔ Holds (state bank.now) job amounts.now }
{
    let loans = &bank.accounts.loans[job];
    for r in 0..amounts.len() {
        if amounts[r] > loans[r] {
            return false;
        }
    }
    true
}

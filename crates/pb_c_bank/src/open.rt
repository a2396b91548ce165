//! New banks.

ghost use Rattle.std.specs.Prelude.{◌≡◌, ◌≤◌, ◌↔◌, [], IsTrue, All, length};
ghost use Rattle.pb_banker.specs.Accounts.{state_of, IsSound};
ghost use Rattle.pb_banker.specs.Value.{start_state};
ghost use Rattle.pb_c_bank.specs.Banks.{IsCapital};

use pb_banker::{Accounts, row_with};
use pb_base::limits::{MAX_AMOUNT, MAX_PROCESSES, MAX_RESOURCES};

/// Returns whether each amount is within the limit.
fn are_small(amounts: &[u32]) -> bool
    ensures { IsTrue result ↔ All (λ n. n ≤ MAX_AMOUNT) amounts.now }
{
    for amount in amounts {
        if *amount > MAX_AMOUNT {
            return false;
        }
    }
    true
}

/// Returns whether there are 1 to 16 resources, with at most 1,000,000 of each.
pub fn is_capital(amounts: &[u32]) -> bool
    ensures { IsTrue result ↔ IsCapital amounts.now }
{
    if amounts.is_empty() {
        return false;
    }
    if amounts.len() > MAX_RESOURCES {
        return false;
    }
    are_small(amounts)
}

/// Returns the accounts with this capital and no rows.
pub fn open(capital: &[u32]) -> Accounts
    requires { IsCapital capital.now }
    ensures state { state_of result ≡ start_state capital.now [] }
    ensures sound { IsSound result }
    ensures processes { result.processes ≡ 0 }
{
    let money = row_with(capital);
    let claims = [[0; MAX_RESOURCES]; MAX_PROCESSES];
    let loans = [[0; MAX_RESOURCES]; MAX_PROCESSES];
    Accounts {
        processes: 0,
        resources: capital.len(),
        capital: money,
        cash: money,
        claims,
        loans,
    }
}

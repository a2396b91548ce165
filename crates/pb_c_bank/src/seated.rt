//! Whether each job of tables that come from anywhere has a row, and each row without a job claims nothing.

ghost use Rattle.std.specs.Prelude.{◌≡◌, ◌<◌, ◌≤◌, ◌↔◌, ℕ, IsTrue, slice_index, false};
ghost use Rattle.pb_banker.specs.Accounts.{IsSound};
ghost use Rattle.pb_c_bank.specs.Tables.{AreSeated, IsEmptyRow};

use pb_banker::{Accounts, Row};
use pb_base::limits::{MAX_PROCESSES, MAX_RESOURCES};

/// Returns whether the first amounts of a row are 0.
fn is_empty_row(row: &Row, width: usize) -> bool
    requires { width ≤ MAX_RESOURCES }
    ensures { IsTrue result ↔ IsEmptyRow width row.now }
{
    for r in 0..width {
        if row[r] != 0 {
            return false;
        }
    }
    true
}

/// Returns whether a job has a row, and a row without a job claims nothing.
pub fn are_seated(accounts: &Accounts, used: &[bool; MAX_PROCESSES]) -> bool
    requires { IsSound accounts.now }
    ensures { IsTrue result ↔ AreSeated accounts.now used.now }
{
    let claims = &accounts.claims;
    for p in 0..MAX_PROCESSES {
        if p >= accounts.processes {
            if used[p] {
                return false;
            }
        } else if !used[p] {
            if !is_empty_row(&claims[p], accounts.resources) {
                return false;
            }
        }
    }
    true
}

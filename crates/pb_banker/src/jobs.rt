//! Rows of the tables for jobs that come and go, and who may have them.

ghost use Rattle.std.specs.Prelude.{◌≡◌, ◌<◌, ◌≤◌, ◌+◌, ◌-◌, ℕ, [], length, take, IfNone, IfSome};
ghost use Rattle.std.specs.Prelude.{slice_index, slice_set, true, false};
ghost use Rattle.pb_base.specs.Banker.{Finishes, resources};
ghost use Rattle.pb_banker.specs.Accounts.{state_of, IsSound};
ghost use Rattle.pb_banker.specs.Value.{start_state};
ghost use Rattle.pb_banker.specs.Jobs.{MayJoin, joined, left, IsWithinCapital, IsFirstOver, IsFirstFree, IsUsed};
ghost use Rattle.pb_banker.specs.Jobs.{SaysOfJoining, IsKept, value_of};

use crate::accounts::{Accounts, Row, capital_row};
use crate::places::put_last;
use crate::reason::Joined;
use pb_base::limits::{MAX_PROCESSES, MAX_RESOURCES};
use pb_base::{Bundle, Capital};

/// Returns the accounts with this capital and no rows.
pub fn no_rows(capital: &Capital) -> Accounts
    ensures state { state_of result ≡ start_state capital.now [] }
    ensures sound { IsSound result }
    ensures processes { result.processes ≡ 0 }
{
    let money = capital_row(capital);
    let claims = [[0; MAX_RESOURCES]; MAX_PROCESSES];
    let loans = [[0; MAX_RESOURCES]; MAX_PROCESSES];
    Accounts {
        processes: 0,
        resources: capital.resources(),
        capital: money,
        cash: money,
        claims,
        loans,
    }
}

/// Gives a slot these claims. The newcomer comes last in the order.
fn enter(accounts: &mut Accounts, order: &mut [u8; MAX_PROCESSES], p: usize, claims: &[u32])
    requires sound { IsSound accounts.old }
    requires finishes { Finishes (state_of accounts.old) (take accounts.old.processes order.old) }
    requires newcomer { MayJoin (state_of accounts.old) p claims.now }
    ensures sound { IsSound accounts.new }
    ensures state { state_of accounts.new ≡ joined (state_of accounts.old) p claims.now }
    ensures finishes { Finishes (state_of accounts.new) (take accounts.new.processes order.new) }
{
    put_last(order, accounts.processes, p);
    seat(accounts, p, claims);
}

/// Takes back all that a slot holds, and its claims. It stays where it is in the order.
fn clear(accounts: &mut Accounts, order: &[u8; MAX_PROCESSES], p: usize)
    requires sound { IsSound accounts.old }
    requires finishes { Finishes (state_of accounts.old) (take accounts.old.processes order.now) }
    requires slot { p < accounts.old.processes }
    ensures sound { IsSound accounts.new }
    ensures state { state_of accounts.new ≡ left (state_of accounts.old) p }
    ensures finishes { Finishes (state_of accounts.new) (take accounts.new.processes order.now) }
{
    accounts.take_back_all(p);
    let nothing = [0; MAX_RESOURCES];
    seat(accounts, p, &nothing[..accounts.resources]);
}

/// Gives a slot these claims.
fn seat(accounts: &mut Accounts, p: usize, claims: &[u32])
    requires sound { IsSound accounts.old }
    requires newcomer { MayJoin (state_of accounts.old) p claims.now }
    ensures sound { IsSound accounts.new }
    ensures state { state_of accounts.new ≡ joined (state_of accounts.old) p claims.now }
{
    let row = row_with(claims);
    let nothing = [0; MAX_RESOURCES];
    accounts.claims[p] = row;
    accounts.loans[p] = nothing;
    accounts.processes = rows_with(accounts.processes, p);
}

/// Returns how many rows a table has after a row is put in this place.
fn rows_with(rows: usize, p: usize) -> usize
    requires slot { p ≤ rows }
    requires room { p < MAX_PROCESSES }
    ensures { result ≡ p + 1 + (rows - (p + 1)) }
{
    if p < rows { rows } else { p + 1 }
}

/// Returns a row that begins with these amounts.
pub fn row_with(amounts: &[u32]) -> Row
    requires { length amounts.now ≤ MAX_RESOURCES }
    ensures { take (length amounts.now) result ≡ amounts.now }
{
    let mut row = [0; MAX_RESOURCES];
    row[..amounts.len()].copy_from_slice(amounts);
    row
}

/// Returns the first resource of which the claim is more than the capital.
pub fn first_over(accounts: &Accounts, claims: &[u32]) -> Option<usize>
    requires sound { IsSound accounts.now }
    requires width { length claims.now ≡ accounts.now.resources }
    ensures none { IfNone result (IsWithinCapital (state_of accounts.now) claims.now) }
    ensures some { IfSome result (λ r. IsFirstOver (state_of accounts.now) claims.now r) }
{
    let capital = &accounts.capital;
    for r in 0..accounts.resources {
        if claims[r] > capital[r] {
            return Some(r);
        }
    }
    None
}

/// Returns the first slot that is not used.
pub fn first_free(used: &[bool; MAX_PROCESSES]) -> Option<usize>
    ensures none { IfNone result ((p : ℕ) → p < MAX_PROCESSES → IsUsed used.now p) }
    ensures some { IfSome result (λ p. IsFirstFree used.now p) }
{
    for p in 0..MAX_PROCESSES {
        if !used[p] {
            return Some(p);
        }
    }
    None
}

/// Gives a newcomer the first free slot, if his claims are within the capital.
pub fn admit(
    accounts: &mut Accounts,
    order: &mut [u8; MAX_PROCESSES],
    used: &mut [bool; MAX_PROCESSES],
    claims: &[u32],
) -> Joined
    requires kept { IsKept accounts.old order.old used.old }
    requires width { length claims.now ≡ resources (state_of accounts.old) }
    ensures kept { IsKept accounts.new order.new used.new }
    ensures said { SaysOfJoining (value_of accounts.old used.old) claims.now result
        (value_of accounts.new used.new) }
{
    if let Some(r) = first_over(accounts, claims) {
        return Joined::OverCapital(r);
    }
    let Some(p) = first_free(used) else {
        return Joined::Full;
    };
    admit_at(accounts, order, used, p, claims);
    Joined::In(p)
}

/// Gives a newcomer the first free slot.
fn admit_at(
    accounts: &mut Accounts,
    order: &mut [u8; MAX_PROCESSES],
    used: &mut [bool; MAX_PROCESSES],
    p: usize,
    claims: &[u32],
)
    requires kept { IsKept accounts.old order.old used.old }
    requires width { length claims.now ≡ resources (state_of accounts.old) }
    requires fits { IsWithinCapital (state_of accounts.old) claims.now }
    requires free { IsFirstFree used.old p }
    ensures kept { IsKept accounts.new order.new used.new }
    ensures state { state_of accounts.new ≡ joined (state_of accounts.old) p claims.now }
    ensures used { used.new ≡ slice_set used.old p true }
{
    enter(accounts, order, p, claims);
    used[p] = true;
}

/// Takes back all that a slot holds, and its claims, and frees it.
pub fn vacate(
    accounts: &mut Accounts,
    order: &mut [u8; MAX_PROCESSES],
    used: &mut [bool; MAX_PROCESSES],
    p: usize,
)
    requires kept { IsKept accounts.old order.old used.old }
    requires slot { p < accounts.old.processes }
    ensures kept { IsKept accounts.new order.new used.new }
    ensures state { state_of accounts.new ≡ left (state_of accounts.old) p }
    ensures used { used.new ≡ slice_set used.old p false }
{
    clear(accounts, order, p);
    used[p] = false;
}

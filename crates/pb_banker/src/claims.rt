//! Another claim of a job.

ghost use Rattle.std.specs.Prelude.{◌≡◌, ◌<◌, ◌≤◌, take};
ghost use Rattle.pb_base.specs.Banker.{capital, loan, Finishes};
ghost use Rattle.pb_banker.specs.Accounts.{state_of, IsSound};
ghost use Rattle.pb_banker.specs.Claims.{SaysOfClaim, state_claimed};

use crate::accounts::Accounts;
use crate::reason::ClaimSaid;
use pb_base::limits::MAX_PROCESSES;

impl Accounts {
    ghost use Rattle.pb_banker.specs.Claims.{with_claim};

    /// Sets the claim of a process on a resource.
    fn set_claim(&mut self, p: usize, r: usize, amount: u32)
        requires sound { IsSound self.old }
        requires process { p < self.old.processes }
        requires resource { r < self.old.resources }
        requires held { loan (state_of self.old) p r ≤ amount }
        requires within { amount ≤ capital (state_of self.old) r }
        ensures sound { IsSound self.new }
        ensures state { state_of self.new ≡ with_claim (state_of self.old) p r amount }
        ensures processes { self.new.processes ≡ self.old.processes }
    {
        self.claims[p][r] = amount;
    }
}

/// Changes the claim of a process on a resource, if the state with it is safe; `order` is one that finishes.
pub fn change_claim(
    accounts: &mut Accounts,
    order: &mut [u8; MAX_PROCESSES],
    p: usize,
    r: usize,
    amount: u32,
) -> ClaimSaid
    requires sound { IsSound accounts.old }
    requires finishes { Finishes (state_of accounts.old) (take accounts.old.processes order.old) }
    requires process { p < accounts.old.processes }
    requires resource { r < accounts.old.resources }
    requires held { loan (state_of accounts.old) p r ≤ amount }
    requires within { amount ≤ capital (state_of accounts.old) r }
    ensures said { SaysOfClaim (state_of accounts.old) p r amount result }
    ensures state { state_of accounts.new ≡ state_claimed (state_of accounts.old) p r amount result }
    ensures sound { IsSound accounts.new }
    ensures finishes { Finishes (state_of accounts.new) (take accounts.new.processes order.new) }
    ensures processes { accounts.new.processes ≡ accounts.old.processes }
{
    let mut changed = *accounts;
    changed.set_claim(p, r, amount);
    let mut looked = 0;
    let found = changed.search(&mut looked);
    if found.count < changed.processes {
        return ClaimSaid::Rest(found.waiting);
    }
    accounts.set_claim(p, r, amount);
    let next = found.order;
    *order = next;
    ClaimSaid::Changed
}

//! The banker's decision.

ghost use Rattle.std.specs.Prelude.{◌≡◌, ◌<◌, ◌≤◌, ◌+◌, ◌*◌, take, All};
ghost use Rattle.pb_base.specs.Banker.{Finishes};
ghost use Rattle.pb_banker.specs.Accounts.{state_of, IsSound};
ghost use Rattle.pb_banker.specs.Asking.{Answers, state_after, KeepsOrder, Looked};

use crate::accounts::Accounts;
use crate::answer::Answer;
use pb_base::Bundle;
use pb_base::limits::MAX_PROCESSES;

/// Grants what a process asks for, or leaves the accounts as they are; `order` is one that finishes.
pub fn decide(
    accounts: &mut Accounts,
    order: &mut [u8; MAX_PROCESSES],
    looked: &mut u32,
    p: usize,
    bundle: &Bundle,
) -> Answer
    requires sound { IsSound accounts.old }
    requires finishes { Finishes (state_of accounts.old) (take accounts.old.processes order.old) }
    requires process { p < accounts.old.processes }
    requires below { All (λ pair. pair.resource < accounts.old.resources) bundle.now }
    ensures answer { Answers (state_of accounts.old) p bundle.now result }
    ensures state { state_of accounts.new ≡ state_after (state_of accounts.old) p bundle.now result }
    ensures sound { IsSound accounts.new }
    ensures finishes { Finishes (state_of accounts.new) (take accounts.new.processes order.new) }
    ensures kept_order { KeepsOrder (state_of accounts.old) p bundle.now
        (take accounts.old.processes order.old) result (take accounts.new.processes order.new) }
    ensures looked { Looked (state_of accounts.old) p bundle.now
        (take accounts.old.processes order.old) looked.new }
{
    *looked = 0;
    if !accounts.is_within_claim(p, bundle) {
        return Answer::OverClaim;
    }
    if !accounts.is_within_cash(bundle) {
        return Answer::NotNow;
    }
    let loans = accounts.loans[p];
    let cash = accounts.cash;
    accounts.lend(p, bundle);
    if accounts.finishes(order, looked) {
        return Answer::Granted;
    }
    let found = accounts.search(looked);
    if found.count == accounts.processes {
        let next = found.order;
        *order = next;
        return Answer::Granted;
    }
    accounts.loans[p] = loans;
    accounts.cash = cash;
    Answer::NotNow
}

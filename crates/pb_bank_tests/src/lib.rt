//! The table of five processes that textbooks have, as a bank of jobs that come and go.
#![tactic(auto)]

mod devices;
mod objects;
mod sessions;

ghost use Rattle.std.specs.Prelude.{◌<◌, All};

use pb_banker::{Answer, Bank, Joined, Reason};
use pb_base::{Bundle, Capital, Pair};
use std::alloc::Global;

/// Returns an amount of each of three resources.
fn amounts_of(amounts: [u32; 3]) -> Bundle
    ensures { All (λ pair. pair.resource < 3) result }
{
    let mut bundle = Bundle::one(0, amounts[0]);
    bundle.push(Pair {
        resource: 1,
        amount: amounts[1],
    });
    bundle.push(Pair {
        resource: 2,
        amount: amounts[2],
    });
    bundle
}

/// Returns the slot of a newcomer with these claims.
fn join(bank: &mut Bank, claims: [u32; 3]) -> Option<usize> {
    if bank.resources() != 3 {
        return None;
    }
    match bank.join(&claims) {
        Joined::In(p) => Some(p),
        _ => None,
    }
}

/// Returns why a loan is set up or not.
fn hold(bank: &mut Bank, p: usize, amounts: [u32; 3]) -> Option<Reason> {
    if p >= bank.slots() || bank.resources() != 3 {
        return None;
    }
    Some(bank.hold(p, &amounts_of(amounts)))
}

/// Returns whether a loan is set up.
fn is_held(bank: &mut Bank, p: usize, amounts: [u32; 3]) -> bool {
    match hold(bank, p, amounts) {
        Some(Reason::Allowed) => true,
        _ => false,
    }
}

/// Returns the answer to a request.
fn ask(bank: &mut Bank, p: usize, amounts: [u32; 3]) -> Option<Answer> {
    if p >= bank.slots() || bank.resources() != 3 {
        return None;
    }
    Some(bank.ask(p, &amounts_of(amounts)))
}

/// Returns a bank with 10, 5 and 7 of three resources, and jobs with these claims and loans.
fn bank_of(alloc: Global, jobs: &[([u32; 3], [u32; 3])]) -> Option<Bank> {
    let capital = Capital::new(alloc, &[10, 5, 7]).ok()?;
    let mut bank = Bank::new(&capital);
    for (claims, _) in jobs {
        let _ = join(&mut bank, *claims)?;
    }
    for p in 0..jobs.len() {
        let (_, loans) = jobs[p];
        if !is_held(&mut bank, p, loans) {
            return None;
        }
    }
    Some(bank)
}

/// Returns the bank of the table, with its five processes.
fn table(alloc: Global) -> Option<Bank> {
    bank_of(
        alloc,
        &[
            ([7, 5, 3], [0, 1, 0]),
            ([3, 2, 2], [2, 0, 0]),
            ([9, 0, 2], [3, 0, 2]),
            ([2, 2, 2], [2, 1, 1]),
            ([4, 3, 3], [0, 0, 2]),
        ],
    )
}

#[test]
fn the_table_is_answered_as_in_the_book(rt: HostRuntime) {
    let Some(mut bank) = table(rt.alloc()) else {
        panic!(rt; "the table is refused");
    };
    assert!(rt; bank.order()[..5] == [1, 3, 0, 2, 4]);
    assert!(rt; ask(&mut bank, 1, [1, 0, 2]) == Some(Answer::Granted));
    assert!(rt; ask(&mut bank, 4, [3, 3, 0]) == Some(Answer::NotNow));
    assert!(rt; ask(&mut bank, 0, [0, 2, 0]) == Some(Answer::NotNow));
    let Some(Reason::OverCash(0)) = hold(&mut bank, 4, [3, 3, 0]) else {
        panic!(rt; "there is too little of the first resource");
    };
    let Some(Reason::Rest(slots)) = hold(&mut bank, 0, [0, 2, 0]) else {
        panic!(rt; "nobody could finish");
    };
    assert!(rt; slots[..5] == [true; 5]);
}

#[test]
fn a_slot_is_free_once_its_job_has_left(rt: HostRuntime) {
    let Some(mut bank) = table(rt.alloc()) else {
        panic!(rt; "the table is refused");
    };
    if bank.slots() == 5 {
        bank.leave(2);
    }
    assert!(rt; !bank.has_job(2) && bank.has_job(3));
    assert!(rt; join(&mut bank, [11, 0, 0]).is_none());
    assert!(rt; join(&mut bank, [10, 5, 7]) == Some(2));
    assert!(rt; join(&mut bank, [0, 0, 0]) == Some(5));
    assert!(rt; ask(&mut bank, 5, [0, 0, 1]) == Some(Answer::OverClaim));
}

#[test]
fn an_asker_that_fits_at_once_is_granted(rt: HostRuntime) {
    let Some(mut bank) = bank_of(
        rt.alloc(),
        &[([9, 0, 0], [0, 0, 0]), ([4, 0, 0], [3, 0, 0])],
    ) else {
        panic!(rt; "the jobs are refused");
    };
    assert!(rt; ask(&mut bank, 1, [1, 0, 0]) == Some(Answer::Granted));
    assert!(rt; bank.order()[..2] == [1, 0]);
}

#[test]
fn an_asker_is_granted_while_those_before_it_fit(rt: HostRuntime) {
    let jobs = [
        ([9, 0, 0], [0, 0, 0]),
        ([4, 0, 0], [3, 0, 0]),
        ([5, 0, 0], [1, 0, 0]),
    ];
    let Some(mut bank) = bank_of(rt.alloc(), &jobs) else {
        panic!(rt; "the jobs are refused");
    };
    // With 4 left the third job can finish, then the second one, and then the first one, which needs 7.
    assert!(rt; ask(&mut bank, 0, [2, 0, 0]) == Some(Answer::Granted));
    assert!(rt; bank.order()[..3] == [1, 0, 2]);
}

#[test]
fn an_asker_is_granted_after_others_that_are_searched(rt: HostRuntime) {
    let jobs = [
        ([9, 0, 0], [0, 0, 0]),
        ([4, 0, 0], [3, 0, 0]),
        ([5, 0, 0], [1, 0, 0]),
    ];
    let Some(mut bank) = bank_of(rt.alloc(), &jobs) else {
        panic!(rt; "the jobs are refused");
    };
    // With 3 left the third job, which was first, cannot finish at once, but the second one can.
    assert!(rt; ask(&mut bank, 0, [3, 0, 0]) == Some(Answer::Granted));
    // With nothing left nobody could finish. A refusal changes nothing.
    assert!(rt; ask(&mut bank, 2, [3, 0, 0]) == Some(Answer::NotNow));
    assert!(rt; bank.slots() == 3 && bank.resources() == 3);
    assert!(rt; bank.loan(2, 0) == 1 && bank.cash(0) == 3);
    assert!(rt; ask(&mut bank, 1, [1, 0, 0]) == Some(Answer::Granted));
}

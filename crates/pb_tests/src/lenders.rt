//! Lenders: the banker refuses the loan after which two processes would wait for each other, and a till makes
//! it, by itself and for a machine.

ghost use Rattle.pb_machine.specs.Views.{IsMachine};

use crate::machine::{CROSSED, code_of};
use pb_banker::{Lender, Loans};
use pb_base::{Bundle, Capital, Claims, Event, Lending, Pick, Step};
use pb_machine::Machine;
use pb_verifier::Verified;
use std::alloc::Global;

/// Returns the lender of two processes that claim one of each of two resources, of which there is one each.
fn lender(alloc: Global, lending: Lending) -> Option<Lender> {
    let capital = Capital::new(alloc, &[1, 1]).ok()?;
    let claims = Claims::new(alloc, &[&[1, 1], &[1, 1]]).ok()?;
    Lender::new(alloc, lending, &capital, &claims).ok()
}

/// Returns whether a request for one of a resource is granted, if it is within the claim.
fn lends(lender: &mut Lender, p: usize, r: u8) -> Option<bool> {
    let resource = usize::from(r);
    if p >= lender.processes() || resource >= lender.resources() {
        return None;
    }
    if lender.loan(p, resource) >= lender.claim(p, resource) {
        return None;
    }
    Some(lender.lend(p, &Bundle::one(r, 1)))
}

/// Returns whether both processes get a resource each.
fn both_get_one(lender: &mut Lender) -> bool {
    lends(lender, 0, 0) == Some(true) && lends(lender, 1, 1) == Some(true)
}

/// Takes back all that a process holds, and returns the cash of a resource.
fn cash_after_all(lender: &mut Lender, p: usize, r: usize) -> Option<u32> {
    if p >= lender.processes() || r >= lender.resources() {
        return None;
    }
    lender.drop_all(p);
    Some(lender.cash(r))
}

/// Returns whether the loans of a lender are saved.
fn are_saved(alloc: Global, lender: &Lender) -> bool {
    let mut saved = Loans::new(alloc);
    lender.save(&mut saved).is_ok()
}

#[test]
fn a_till_lends_what_the_banker_keeps(rt: HostRuntime) {
    let Some(mut banker) = lender(rt.alloc(), Lending::ByBanker) else {
        panic!(rt; "out of memory");
    };
    let Some(mut till) = lender(rt.alloc(), Lending::ByCash) else {
        panic!(rt; "out of memory");
    };
    assert!(rt; banker.lending() == Lending::ByBanker);
    assert!(rt; till.lending() == Lending::ByCash);
    assert!(rt; !both_get_one(&mut banker));
    assert!(rt; both_get_one(&mut till));
    let mut copy = till.copy();
    assert!(rt; cash_after_all(&mut copy, 1, 1) == Some(1));
    assert!(rt; cash_after_all(&mut banker, 0, 0) == Some(1));
    assert!(rt; are_saved(rt.alloc(), &till));
}

/// The picks of two processes.
const FIRST: Pick = Pick { process: 0, arm: 0 };

const SECOND: Pick = Pick { process: 1, arm: 0 };

/// Returns whether a pick takes what it asks for.
fn takes(verified: &Verified, machine: &mut Machine, pick: Pick) -> bool
    requires { IsMachine verified.now machine.old }
    ensures { IsMachine verified.now machine.new }
{
    match machine.step(verified, pick) {
        Step::Did(Event::Granted { .. }) => true,
        _ => false,
    }
}

/// Returns whether both processes take their first resource, and then neither takes its second.
fn deadlocks(verified: &Verified, machine: &mut Machine) -> bool
    requires { IsMachine verified.now machine.old }
    ensures { IsMachine verified.now machine.new }
{
    if !takes(verified, machine, FIRST) || !takes(verified, machine, SECOND) {
        return false;
    }
    !takes(verified, machine, FIRST) && !takes(verified, machine, SECOND)
}

/// Returns whether the crossed processes deadlock under this lending; none if the lender decides otherwise.
fn deadlocks_by(alloc: Global, lending: Lending) -> Option<bool> {
    let verified = code_of(alloc, CROSSED)?;
    match Machine::new_by(alloc, &verified, lending) {
        Ok(machine) => {
            let mut machine = machine;
            let ends = deadlocks(&verified, &mut machine);
            if machine.lending() != lending || machine.lender().lending() != lending {
                return None;
            }
            Some(ends && !machine.finished())
        }
        Err(_) => None,
    }
}

#[test]
fn a_machine_deadlocks_under_its_till(rt: HostRuntime) {
    assert!(rt; deadlocks_by(rt.alloc(), Lending::ByBanker) == Some(false));
    assert!(rt; deadlocks_by(rt.alloc(), Lending::ByCash) == Some(true));
}

//! The arms of a run: which has which number.

ghost use Rattle.std.specs.Prelude.{◌≡◌, ◌<◌};
ghost use Rattle.pb_names.specs.HeadLines.{head_line as line_of_first};
ghost use Rattle.pb_names.specs.Source.{is_ended as has_ended, all_ended as have_ended, find};
ghost use Rattle.pb_rewrite.specs.View.{arm_view, running_view};
ghost use Rattle.pb_rewrite.specs.Found.{found_line};
ghost use Rattle.pb_rewrite.specs.Sound.{IsSingle, AreSingle};
ghost use Rattle.pb_rewrite.specs.Steps.{IsSwap, IsSwapAmong};

use crate::item::{Item, line_of};
use pb_names::Stmt;
use std::alloc::Allocator;
use std::mem;

/// One arm of a process.
#[derive(Drop)]
pub enum Arm<A: Allocator> {
    /// It has not begun.
    Fresh(Vec<Stmt<A>, A>),
    /// What it has yet to do, last first.
    Doing(Vec<Item<A>, A>),
    /// It waits until its running arms have ended, which have consecutive numbers from the first. After that
    /// it has the rest to do, last first.
    Waiting {
        line: u32,
        first: u8,
        arms: Vec<Arm<A>, A>,
        rest: Vec<Item<A>, A>,
    },
    /// It has come to its end.
    Ended,
}

/// Changes places with the arm of a number, if it is there; the arm itself has the number `number`.
#[cycle(swap)]
#[tactic(auto, using(crate::proofs::Views::arm_views))]
pub(crate) fn swap<A: Allocator>(
    arm: &mut Arm<A>,
    wanted: usize,
    number: usize,
    other: &mut Arm<A>,
) -> bool
    requires { IsSingle wanted (arm_view arm.old) }
    ensures { IsSwap wanted number (arm_view arm.old) (arm_view other.old) result (arm_view arm.new)
        (arm_view other.new) }
{
    if wanted == number {
        mem::swap(arm, other);
        return true;
    }
    match arm {
        Arm::Fresh(_) => false,
        Arm::Doing(_) => false,
        Arm::Waiting { first, arms, .. } => swap_among(arms, wanted, usize::from(*first), other),
        Arm::Ended => false,
    }
}

/// Changes places with the arm of a number among running arms, of which the first has the number `first`.
#[cycle(swap)]
#[tactic(auto, using(crate::proofs::Views::arm_views))]
fn swap_among<A: Allocator>(
    arms: &mut Vec<Arm<A>, A>,
    wanted: usize,
    first: usize,
    other: &mut Arm<A>,
) -> bool
    requires few { first < 256 }
    requires single { AreSingle wanted first (running_view arms.old.items) }
    ensures { IsSwapAmong wanted first (running_view arms.old.items) (arm_view other.old) result
        (running_view arms.new.items) (arm_view other.new) }
{
    for i in 0..arms.len() {
        if swap(&mut arms[i], wanted, first + i, other) {
            return true;
        }
    }
    false
}

/// Returns the line of the first item of the arm of a number, if it is there.
pub(crate) fn find_line<A: Allocator>(arm: &Arm<A>, wanted: usize, number: usize) -> Found
    ensures { result ≡ found_line (find wanted number (arm_view arm.now)) }
{
    if wanted == number {
        return Found::At(head_line(arm));
    }
    let Arm::Waiting { first, arms, .. } = arm else {
        return Found::Nowhere;
    };
    let start = usize::from(*first);
    for i in 0..arms.len() {
        if let Found::At(line) = find_line(&arms[i], wanted, start + i) {
            return Found::At(line);
        }
    }
    Found::Nowhere
}

/// Whether an arm is there, and its line, if it has one.
#[derive(Clone, Copy)]
pub(crate) enum Found {
    At(Option<u32>),
    Nowhere,
}

/// Returns the line of an arm's first item; none if its list is empty.
#[tactic(auto, using(crate::proofs::Views::arm_views))]
fn head_line<A: Allocator>(arm: &Arm<A>) -> Option<u32>
    ensures { result ≡ line_of_first (arm_view arm.now) }
{
    match arm {
        Arm::Fresh(body) => match body.first() {
            Some(stmt) => Some(stmt.line()),
            None => None,
        },
        Arm::Doing(items) => match items.last() {
            Some(item) => Some(line_of(item)),
            None => None,
        },
        Arm::Waiting { line, .. } => Some(*line),
        Arm::Ended => None,
    }
}

/// Returns whether an arm has come to its end.
#[tactic(auto, using(crate::proofs::Views::arm_views))]
pub(crate) fn is_ended<A: Allocator>(arm: &Arm<A>) -> bool
    ensures { result ≡ has_ended (arm_view arm.now) }
{
    match arm {
        Arm::Fresh(_) => false,
        Arm::Doing(_) => false,
        Arm::Waiting { .. } => false,
        Arm::Ended => true,
    }
}

/// Returns whether all arms have come to their ends.
pub(crate) fn all_ended<A: Allocator>(arms: &Vec<Arm<A>, A>) -> bool
    ensures { result ≡ have_ended (running_view arms.now.items) }
{
    for arm in arms {
        if !is_ended(arm) {
            return false;
        }
    }
    true
}

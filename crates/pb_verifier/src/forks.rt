//! Whether forks and joins fit one another.

ghost use Rattle.std.specs.Prelude.{◌≡◌, ◌↔◌, ◌⊎◌, ◌+◌, ◌<◌, ◌≤◌, ℕ, List, Some, length, slice_index_or, true, false, IfNone, IfSome};
ghost use Rattle.pb_base.specs.Steppers.{Bundle};
ghost use Rattle.pb_code.specs.Code.{Fork, Instr as PlainInstr, Join};
ghost use Rattle.pb_code.specs.View.{instr_view, process_view};
ghost use Rattle.pb_verifier.specs.Arms.{AreNamed, ForksLater, IsMarked, IsPaired};
ghost use Rattle.pb_verifier.specs.Faults.{HasArms, HasForks};
ghost use Rattle.pb_verifier.specs.Given.{instrs_of, plain};
ghost use Rattle.pb_verifier.specs.Places.{InstrAt, arms};

use crate::arms::{arm_count, arm_entry, end_of_arm};
use crate::places::{instr_at, places};
use pb_base::limits::{MAX_ARMS, MAX_PLACES};
use pb_code::{Instr, ProcessCode};

/// Returns whether an instruction forks no arms but later ones that are there.
fn names_later(instr: Instr, arm: usize, arms: usize) -> bool
    ensures { (bundles : List Bundle) → (result ≡ true)
        ↔ ((first count : ℕ) → instr_view bundles instr ≡ Fork first count
        → (arm < first) × (first + count ≤ arms)) }
{
    match instr {
        Instr::Fork { first, count } => {
            arm < first as usize && first as usize + count as usize <= arms
        }
        _ => true,
    }
}

/// Returns whether each fork of an arm names later arms.
fn forks_later(code: &ProcessCode, arm: usize) -> bool
    requires arm { arm < arms (process_view code.now) }
    requires arms { HasArms (process_view code.now) }
    ensures { (result ≡ true) ↔ ForksLater (process_view code.now) arm }
{
    let begin = arm_entry(code, arm);
    let end = end_of_arm(code, arm);
    for place in begin..end {
        if !names_later(instr_at(code, place), arm, arm_count(code)) {
            return false;
        }
    }
    true
}

/// Returns whether this join is at a place.
fn is_join(code: &ProcessCode, place: usize, first: u8, count: u8) -> bool
    ensures { (result ≡ true) ↔ InstrAt (process_view code.now) place (Join first count) }
{
    if place >= places(code) {
        return false;
    }
    match instr_at(code, place) {
        Instr::Join { first: f, count: n } => f == first && n == count,
        _ => false,
    }
}

/// Returns whether this fork is at a place.
fn is_fork(code: &ProcessCode, place: usize, first: u8, count: u8) -> bool
    ensures { (result ≡ true) ↔ InstrAt (process_view code.now) place (Fork first count) }
{
    if place >= places(code) {
        return false;
    }
    match instr_at(code, place) {
        Instr::Fork { first: f, count: n } => f == first && n == count,
        _ => false,
    }
}

/// Returns whether no join is at a place.
fn has_no_join(code: &ProcessCode, place: usize) -> bool
    ensures { (result ≡ true)
        ↔ ((first count : ℕ) → InstrAt (process_view code.now) place (Join first count) → ⊥) }
{
    if place >= places(code) {
        return true;
    }
    !matches!(instr_at(code, place), Instr::Join { .. })
}

/// Returns whether a fork has its join after it, a join its fork before it, and a jump leads to no join.
fn is_paired(code: &ProcessCode, place: usize, instr: Instr) -> bool
    requires { place < MAX_PLACES }
    ensures { (result ≡ true) ↔ IsPaired (process_view code.now) place (plain code.now instr) }
{
    match instr {
        Instr::Fork { first, count } => is_join(code, place + 1, first, count),
        Instr::Join { first, count } => place > 0 && is_fork(code, place - 1, first, count),
        Instr::Jump(target) | Instr::JumpIfZero(target) => has_no_join(code, target as usize),
        _ => true,
    }
}

/// Marks the arms from one on, as long as none of them is marked, and returns whether none was.
fn mark(marks: &mut [bool], first: usize, end: usize) -> bool
    requires rise { first ≤ end }
    requires inside { end ≤ length marks.old }
    ensures free { (result ≡ true)
        ↔ ((b : ℕ) → first ≤ b → b < end → slice_index_or marks.old b false ≡ false) }
    ensures marked { result ≡ true → (b : ℕ) → b < length marks.old
        → ((slice_index_or marks.new b false ≡ true)
        ↔ ((slice_index_or marks.old b false ≡ true) ⊎ ((first ≤ b) × (b < end)))) }
{
    for arm in first..end {
        if marks[arm] {
            return false;
        }
        marks[arm] = true;
    }
    true
}

/// Returns which arms forks name, or none if two forks name the same arm.
fn named_arms(code: &ProcessCode) -> Option<[bool; MAX_ARMS]>
    requires few { arms (process_view code.now) ≤ MAX_ARMS }
    requires there { (place first count : ℕ)
        → InstrAt (process_view code.now) place (Fork first count)
        → first + count ≤ arms (process_view code.now) }
    ensures named { IfSome result (λ marks. IsMarked (process_view code.now) (length (instrs_of code.now)) marks) }
    ensures twice { IfNone result (¬ AreNamed (process_view code.now)) }
{
    let mut marks = [false; MAX_ARMS];
    for place in 0..places(code) {
        if let Instr::Fork { first, count } = instr_at(code, place) {
            let first = first as usize;
            if !mark(&mut marks, first, first + count as usize) {
                return None;
            }
        }
    }
    Some(marks)
}

/// Returns whether each arm but the first is named by a fork, and by one alone.
fn are_named(code: &ProcessCode) -> bool
    requires few { arms (process_view code.now) ≤ MAX_ARMS }
    requires there { (place first count : ℕ)
        → InstrAt (process_view code.now) place (Fork first count)
        → first + count ≤ arms (process_view code.now) }
    ensures { (result ≡ true) ↔ AreNamed (process_view code.now) }
{
    let Some(marks) = named_arms(code) else {
        return false;
    };
    for arm in 1..arm_count(code) {
        if !marks[arm] {
            return false;
        }
    }
    true
}

/// Returns whether each arm forks only arms after it that are there.
fn all_fork_later(code: &ProcessCode) -> bool
    requires { HasArms (process_view code.now) }
    ensures { (result ≡ true)
        ↔ ((arm : ℕ) → arm < arms (process_view code.now) → ForksLater (process_view code.now) arm) }
{
    for arm in 0..arm_count(code) {
        if !forks_later(code, arm) {
            return false;
        }
    }
    true
}

/// Returns whether forks and joins come in pairs, and no jump leads to a join.
fn are_paired(code: &ProcessCode) -> bool
    requires { length (instrs_of code.now) ≤ MAX_PLACES }
    ensures { (result ≡ true)
        ↔ ((place : ℕ) (i : PlainInstr) → InstrAt (process_view code.now) place i → IsPaired (process_view code.now) place i) }
{
    for place in 0..places(code) {
        if !is_paired(code, place, instr_at(code, place)) {
            return false;
        }
    }
    true
}

/// Returns whether forks and joins fit one another, in code whose arms are sound.
pub fn has_forks(code: &ProcessCode) -> bool
    requires arms { HasArms (process_view code.now) }
    requires some { 1 ≤ arms (process_view code.now) }
    requires few { arms (process_view code.now) ≤ MAX_ARMS }
    requires short { length (process_view code.now).instrs ≤ MAX_PLACES }
    ensures { (result ≡ true) ↔ HasForks (process_view code.now) }
{
    if !all_fork_later(code) {
        return false;
    }
    if !are_paired(code) {
        return false;
    }
    are_named(code)
}

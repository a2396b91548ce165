//! Whether arms are one after another, and are left only by an end.

ghost use Rattle.std.specs.Prelude.{◌≡◌, ◌↔◌, ◌<◌, ◌≤◌, ℕ, List, Some, length, true};
ghost use Rattle.pb_base.specs.Steppers.{Bundle};
ghost use Rattle.pb_code.specs.View.{instr_view, process_view};
ghost use Rattle.pb_verifier.specs.Arms.{Closes, EntriesRise, IsClosed, JumpsStay};
ghost use Rattle.pb_verifier.specs.Faults.{HasArms};
ghost use Rattle.pb_verifier.specs.Flow.{target_of};
ghost use Rattle.pb_verifier.specs.Places.{arm_end, arms, entry};

use crate::places::{instr_at, places, target};
use pb_code::{Instr, ProcessCode};

/// Returns the number of arms.
pub fn arm_count(code: &ProcessCode) -> usize
    ensures { result ≡ arms (process_view code.now) }
{
    code.entries.len()
}

/// Returns where an arm begins.
pub fn arm_entry(code: &ProcessCode, arm: usize) -> usize
    requires { arm < arms (process_view code.now) }
    ensures { result ≡ entry (process_view code.now) arm }
{
    code.entries[arm] as usize
}

/// Returns where an arm ends.
pub fn end_of_arm(code: &ProcessCode, arm: usize) -> usize
    requires { arm < arms (process_view code.now) }
    ensures { result ≡ arm_end (process_view code.now) arm }
{
    if arm + 1 < arm_count(code) {
        return arm_entry(code, arm + 1);
    }
    places(code)
}

/// Returns whether arm 0 begins at place 0, each other after the one before it, and all inside the code.
fn entries_rise(code: &ProcessCode) -> bool
    requires { 1 ≤ arms (process_view code.now) }
    ensures { (result ≡ true) ↔ EntriesRise (process_view code.now) }
{
    if arm_entry(code, 0) != 0 {
        return false;
    }
    for arm in 0..arm_count(code) {
        if arm_entry(code, arm) >= places(code) {
            return false;
        }
        if arm + 1 < arm_count(code) && arm_entry(code, arm) >= arm_entry(code, arm + 1) {
            return false;
        }
    }
    true
}

/// Returns whether an instruction jumps to no place outside these.
fn leads_inside(instr: Instr, begin: usize, end: usize) -> bool
    ensures { (bundles : List Bundle) → (result ≡ true)
        ↔ ((to : ℕ) → target_of (instr_view bundles instr) ≡ Some to → (begin ≤ to) × (to < end)) }
{
    match target(instr) {
        None => true,
        Some(to) => begin <= to as usize && (to as usize) < end,
    }
}

/// Returns whether no jump leaves an arm.
fn jumps_stay(code: &ProcessCode, arm: usize) -> bool
    requires arm { arm < arms (process_view code.now) }
    requires rise { EntriesRise (process_view code.now) }
    ensures { (result ≡ true) ↔ JumpsStay (process_view code.now) arm }
{
    let begin = arm_entry(code, arm);
    let end = end_of_arm(code, arm);
    for place in begin..end {
        if !leads_inside(instr_at(code, place), begin, end) {
            return false;
        }
    }
    true
}

/// Returns whether no next place comes after an instruction.
fn closes(instr: Instr) -> bool
    ensures { (bundles : List Bundle) → (result ≡ true) ↔ Closes (instr_view bundles instr) }
{
    matches!(instr, Instr::End | Instr::Jump(_))
}

/// Returns whether the last instruction of an arm is an end or a jump.
fn is_closed(code: &ProcessCode, arm: usize) -> bool
    requires arm { arm < arms (process_view code.now) }
    requires rise { EntriesRise (process_view code.now) }
    ensures { (result ≡ true) ↔ IsClosed (process_view code.now) arm }
{
    closes(instr_at(code, end_of_arm(code, arm) - 1))
}

/// Returns whether arms are one after another, and each is left only by an end.
pub fn has_arms(code: &ProcessCode) -> bool
    requires { 1 ≤ arms (process_view code.now) }
    ensures { (result ≡ true) ↔ HasArms (process_view code.now) }
{
    if !entries_rise(code) {
        return false;
    }
    for arm in 0..arm_count(code) {
        if !jumps_stay(code, arm) {
            return false;
        }
        if !is_closed(code, arm) {
            return false;
        }
    }
    true
}

//! The search for reached places.

ghost use Rattle.std.specs.Prelude.{◌≡◌, ◌↔◌, ◌<◌, ◌+◌, ◌≤◌, ℕ, length, Contains, IfOk, IfSome, slice_set, true};
ghost use Rattle.pb_code.specs.View.{process_view};
ghost use Rattle.pb_verifier.specs.Faults.{HasArms};
ghost use Rattle.pb_verifier.specs.Flow.{followers, goes_on, target_of, IsGrown, IsReachedPlace, StaysInside, with_marks, with_place, with_places};
ghost use Rattle.pb_verifier.specs.Given.{IsOrderOf, instrs_of, plain};
ghost use Rattle.pb_verifier.specs.Places.{arms};

use crate::places::{falls_through, instr_at, target};
use pb_base::NoMemory;
use pb_base::limits::MAX_PLACES;
use pb_code::{Instr, ProcessCode};
use std::alloc::Global;

/// Notes that a place is reached.
fn visit(found: &mut Vec<bool>, order: &mut Vec<u16>, place: u16) -> Result<(), NoMemory>
    requires { place < length found.old.items }
    ensures found { IfOk result (λ _. found.new.items ≡ slice_set found.old.items place true) }
    ensures order { IfOk result (λ _. order.new.items ≡ with_place found.old.items order.old.items place) }
{
    let at = place as usize;
    if !found[at] {
        order.push(place)?;
        found[at] = true;
    }
    Ok(())
}

/// Notes that the entries are reached.
fn visit_entries(
    found: &mut Vec<bool>,
    order: &mut Vec<u16>,
    entries: &[u16],
) -> Result<(), NoMemory>
    requires { (p : ℕ) → Contains entries.now p → p < length found.old.items }
    ensures found { IfOk result (λ _. found.new.items ≡ with_marks found.old.items entries.now) }
    ensures order { IfOk result (λ _. order.new.items
        ≡ with_places found.old.items order.old.items entries.now) }
{
    for entry in entries {
        visit(found, order, *entry)?;
    }
    Ok(())
}

/// Notes that what may follow an instruction is reached.
fn visit_followers(
    found: &mut Vec<bool>,
    order: &mut Vec<u16>,
    code: &ProcessCode,
    instr: Instr,
    place: u16,
) -> Result<(), NoMemory>
    requires small { place < MAX_PLACES }
    requires target { IfSome (target_of (plain code.now instr))
        (λ next. next < length found.old.items) }
    requires next { goes_on (plain code.now instr) ≡ true → place + 1 < length found.old.items }
    ensures found { IfOk result (λ _. found.new.items
        ≡ with_marks found.old.items (followers (plain code.now instr) place)) }
    ensures order { IfOk result (λ _. order.new.items
        ≡ with_places found.old.items order.old.items (followers (plain code.now instr) place)) }
{
    if let Some(next) = target(instr) {
        visit(found, order, next)?;
    }
    if falls_through(instr) {
        visit(found, order, place + 1)?;
    }
    Ok(())
}

/// Returns the reached places, each after one that leads to it.
fn reached(alloc: Global, entries: &[u16], code: &ProcessCode) -> Result<Vec<u16>, NoMemory>
    requires inside { StaysInside entries.now (instrs_of code.now) }
    ensures reached { IfOk result (λ order. (p : ℕ)
        → Contains order.items p ↔ IsReachedPlace entries.now (instrs_of code.now) p) }
    ensures grown { IfOk result (λ order. IsGrown entries.now (instrs_of code.now) order.items) }
{
    let mut found = vec![in alloc; false; code.instrs.len()]?;
    let mut order = Vec::new(alloc);
    visit_entries(&mut found, &mut order, entries)?;
    let mut next = 0;
    while next < order.len() {
        let place = order[next];
        let instr = instr_at(code, place as usize);
        visit_followers(&mut found, &mut order, code, instr, place)?;
        next += 1;
    }
    Ok(order)
}

/// Returns the reached places of a process, each after one that leads to it.
pub fn reached_places(alloc: Global, code: &ProcessCode) -> Result<Vec<u16>, NoMemory>
    requires arms { HasArms (process_view code.now) }
    requires some { 1 ≤ arms (process_view code.now) }
    requires few { length (instrs_of code.now) ≤ MAX_PLACES }
    ensures { IfOk result (λ order. IsOrderOf code.now order.items) }
{
    reached(alloc, &code.entries, code)
}

//! Facts at places, spread along the code.

ghost use Rattle.std.specs.Prelude.{◌≡◌, ◌↔◌, ◌<◌, ◌+◌, ℕ, List, Option, Some, None, length, Contains, IfOk, IfSome, IfNone, slice_get, slice_set, true};
ghost use Rattle.pb_code.specs.Code.{Instr};
ghost use Rattle.pb_verifier.specs.Flow.{followers, target_of, IsGrown, IsReachedPlace, LeadsBelow, StaysInside};
ghost use Rattle.pb_verifier.specs.Given.{instrs_of, plain};
ghost use Rattle.pb_verifier.specs.Spread.{AgreesAt, AllReadable, CanBeAnnotated, IsKept, IsLeast, IsOpening};
ghost use Rattle.pb_verifier.specs.Spread.{fact_at, notes_of, rules_of, with_note, with_notes};

use crate::places::{falls_through, instr_at, places, target};
use pb_base::NoMemory;
use pb_code::{Instr, ProcessCode};
use std::alloc::Global;

/// What is known at a place.
pub trait Fact: Copy + Drop {
    ghost Value: { Type 0 };

    ghost IsFirst: { Self → Type 0 };

    ghost start: { Self → Value };

    ghost Fits: { Instr → Value → Type 0 };

    ghost after: { Instr → Value → Value };

    ghost value: { List Instr → List (Option Self) → Self → Value };

    ghost IsReadable: { List Instr → List (Option Self) → Self → Type 0 };

    /// Returns whether an instruction finds what it needs.
    fn fits(self, code: &ProcessCode, table: &[Option<Self>], instr: Instr) -> bool
        requires { IsReadable (instrs_of code.now) table.now self }
        ensures { (result ≡ true)
            ↔ Fits (plain code.now instr) (value (instrs_of code.now) table.now self) };

    /// Returns what is known after the instruction at a place.
    fn next(self, code: &ProcessCode, table: &[Option<Self>], place: u16, instr: Instr) -> Self
        requires readable { IsReadable (instrs_of code.now) table.now self }
        requires instr { slice_get (instrs_of code.now) place ≡ Some (plain code.now instr) }
        requires fact { fact_at table.now place ≡ Some self }
        requires fits { Fits (plain code.now instr) (value (instrs_of code.now) table.now self) }
        ensures value { value (instrs_of code.now) table.now result
            ≡ after (plain code.now instr) (value (instrs_of code.now) table.now self) }
        ensures readable { IsReadable (instrs_of code.now) table.now result };

    /// Returns whether two facts mean the same.
    fn same(self, other: Self, code: &ProcessCode, table: &[Option<Self>]) -> bool
        requires one { IsReadable (instrs_of code.now) table.now self }
        requires two { IsReadable (instrs_of code.now) table.now other }
        ensures { (result ≡ true)
            ↔ (value (instrs_of code.now) table.now self
            ≡ value (instrs_of code.now) table.now other) };

    /// Lets two facts that mean the same share what they rest on, so that they soon compare as the same.
    fn share(self, other: Self, code: &ProcessCode, table: &mut Vec<Option<Self>>)
        requires one { IsReadable (instrs_of code.now) table.old.items self }
        requires two { IsReadable (instrs_of code.now) table.old.items other }
        requires same { value (instrs_of code.now) table.old.items self
            ≡ value (instrs_of code.now) table.old.items other }
        requires readable { AllReadable (IsReadable (instrs_of code.now) table.old.items) table.old.items }
        ensures { IsKept (value (instrs_of code.now)) (IsReadable (instrs_of code.now))
            table.old.items table.new.items };

    // what is known at entries needs no table
    ghost firsts: { (first : Self) → IsFirst first → (instrs : List Instr) (table : List (Option Self))
        → IsReadable instrs table first × (value instrs table first ≡ start first) };

    // a fact at a place that had none changes none of the others
    ghost keeps: { (instrs : List Instr) (table : List (Option Self)) (p : ℕ) (new fact : Self) → fact_at table p ≡ None → IsReadable instrs table fact
        → IsReadable instrs (slice_set table p (Some new)) fact × (value instrs (slice_set table p (Some new)) fact ≡ value instrs table fact) };
}

/// Returns whether nothing else is known at a place.
fn agrees<F: Fact>(code: &ProcessCode, table: &[Option<F>], fact: F, place: u16) -> bool
    requires place { place < length table.now }
    requires readable { AllReadable (F.IsReadable (instrs_of code.now) table.now) table.now }
    requires fact { F.IsReadable (instrs_of code.now) table.now fact }
    ensures { (result ≡ true) ↔ AgreesAt (F.value (instrs_of code.now) table.now) table.now fact place }
{
    match table[place as usize] {
        None => true,
        Some(found) => found.same(fact, code, table),
    }
}

/// Notes a fact at a place of which nothing is known.
fn note<F: Fact>(table: &mut Vec<Option<F>>, fact: F, place: u16)
    requires { place < length table.old.items }
    ensures { table.new.items ≡ with_note table.old.items fact place }
{
    let at = place as usize;
    if table[at].is_none() {
        table[at] = Some(fact);
    }
}

/// Returns whether nothing else is known where the instruction may jump to.
fn agrees_at_target<F: Fact>(code: &ProcessCode, table: &[Option<F>], fact: F, instr: Instr) -> bool
    requires target { IfSome (target_of (plain code.now instr)) (λ next. next < length table.now) }
    requires readable { AllReadable (F.IsReadable (instrs_of code.now) table.now) table.now }
    requires fact { F.IsReadable (instrs_of code.now) table.now fact }
    ensures { (result ≡ true)
        ↔ ((q : ℕ) → target_of (plain code.now instr) ≡ Some q
        → AgreesAt (F.value (instrs_of code.now) table.now) table.now fact q) }
{
    match target(instr) {
        None => true,
        Some(next) => agrees(code, table, fact, next),
    }
}

/// Returns whether nothing else is known wherever the instruction at a place leads to.
fn all_agree<F: Fact>(
    code: &ProcessCode,
    table: &[Option<F>],
    fact: F,
    instr: Instr,
    place: u16,
) -> bool
    requires inside { LeadsBelow (plain code.now instr) place (length table.now) }
    requires readable { AllReadable (F.IsReadable (instrs_of code.now) table.now) table.now }
    requires fact { F.IsReadable (instrs_of code.now) table.now fact }
    ensures { (result ≡ true)
        ↔ ((q : ℕ) → Contains (followers (plain code.now instr) place) q
        → AgreesAt (F.value (instrs_of code.now) table.now) table.now fact q) }
{
    if !agrees_at_target(code, table, fact, instr) {
        return false;
    }
    if !falls_through(instr) {
        return true;
    }
    agrees(code, table, fact, place + 1)
}

/// Notes a fact wherever the instruction at a place leads to and nothing is known.
fn note_all<F: Fact>(
    table: &mut Vec<Option<F>>,
    fact: F,
    code: &ProcessCode,
    instr: Instr,
    place: u16,
)
    requires { LeadsBelow (plain code.now instr) place (length table.old.items) }
    ensures { table.new.items
        ≡ with_notes table.old.items fact (followers (plain code.now instr) place) }
{
    if let Some(next) = target(instr) {
        note(table, fact, next);
    }
    if falls_through(instr) {
        note(table, fact, place + 1);
    }
}

/// Lets a fact share what the one that is known at a place rests on.
fn share_at<F: Fact>(table: &mut Vec<Option<F>>, fact: F, code: &ProcessCode, place: u16)
    requires place { place < length table.old.items }
    requires readable { AllReadable (F.IsReadable (instrs_of code.now) table.old.items) table.old.items }
    requires fact { F.IsReadable (instrs_of code.now) table.old.items fact }
    requires agrees { AgreesAt (F.value (instrs_of code.now) table.old.items) table.old.items fact place }
    ensures { IsKept (F.value (instrs_of code.now)) (F.IsReadable (instrs_of code.now))
        table.old.items table.new.items }
{
    if let Some(found) = table[place as usize] {
        found.share(fact, code, table);
    }
}

/// Lets a fact share what the one rests on that is known where the instruction may jump to.
fn share_at_target<F: Fact>(table: &mut Vec<Option<F>>, fact: F, code: &ProcessCode, instr: Instr)
    requires target { IfSome (target_of (plain code.now instr)) (λ next. next < length table.old.items) }
    requires readable { AllReadable (F.IsReadable (instrs_of code.now) table.old.items) table.old.items }
    requires fact { F.IsReadable (instrs_of code.now) table.old.items fact }
    requires agrees { (q : ℕ) → target_of (plain code.now instr) ≡ Some q
        → AgreesAt (F.value (instrs_of code.now) table.old.items) table.old.items fact q }
    ensures { IsKept (F.value (instrs_of code.now)) (F.IsReadable (instrs_of code.now))
        table.old.items table.new.items }
{
    if let Some(next) = target(instr) {
        share_at(table, fact, code, next);
    }
}

/// Lets a fact share what those rest on that are known wherever the instruction at a place leads to.
fn share_all<F: Fact>(
    table: &mut Vec<Option<F>>,
    fact: F,
    code: &ProcessCode,
    instr: Instr,
    place: u16,
)
    requires inside { LeadsBelow (plain code.now instr) place (length table.old.items) }
    requires readable { AllReadable (F.IsReadable (instrs_of code.now) table.old.items) table.old.items }
    requires fact { F.IsReadable (instrs_of code.now) table.old.items fact }
    requires agree { (q : ℕ) → Contains (followers (plain code.now instr) place) q
        → AgreesAt (F.value (instrs_of code.now) table.old.items) table.old.items fact q }
    ensures { IsKept (F.value (instrs_of code.now)) (F.IsReadable (instrs_of code.now))
        table.old.items table.new.items }
{
    share_at_target(table, fact, code, instr);
    if falls_through(instr) {
        share_at(table, fact, code, place + 1);
    }
}

/// Returns a table in which the entries alone have a fact, the first one.
fn opening_table<F: Fact>(
    alloc: Global,
    entries: &[u16],
    code: &ProcessCode,
    first: F,
) -> Result<Vec<Option<F>>, NoMemory>
    requires { (p : ℕ) → Contains entries.now p → p < length (instrs_of code.now) }
    ensures { IfOk result (λ table. IsOpening entries.now (length (instrs_of code.now)) first table.items) }
{
    let mut table: Vec<Option<F>> = vec![in alloc; None; places(code)]?;
    for entry in entries {
        table[*entry as usize] = Some(first);
    }
    Ok(table)
}

/// Returns what is known at each reached place, or none if a place can't be given one fact that serves
/// each way of reaching it.
pub fn spread<F: Fact>(
    alloc: Global,
    entries: &[u16],
    code: &ProcessCode,
    order: &[u16],
    first: F,
) -> Result<Option<Vec<Option<F>>>, NoMemory>
    requires inside { StaysInside entries.now (instrs_of code.now) }
    requires reached { (p : ℕ) → Contains order.now p ↔ IsReachedPlace entries.now (instrs_of code.now) p }
    requires grown { IsGrown entries.now (instrs_of code.now) order.now }
    requires first { F.IsFirst first }
    ensures yes { IfOk result (λ answer. IfSome answer (λ table.
        IsLeast (rules_of (F.start first) F.Fits F.after) entries.now (instrs_of code.now)
        (notes_of (F.value (instrs_of code.now) table.items) table.items))) }
    ensures readable { IfOk result (λ answer. IfSome answer (λ table.
        AllReadable (F.IsReadable (instrs_of code.now) table.items) table.items)) }
    ensures long { IfOk result (λ answer. IfSome answer
        (λ table. length table.items ≡ length (instrs_of code.now))) }
    ensures no { IfOk result (λ answer. IfNone answer
        (¬ CanBeAnnotated (rules_of (F.start first) F.Fits F.after) entries.now (instrs_of code.now))) }
{
    let mut table = opening_table(alloc, entries, code, first)?;
    for place in order {
        let instr = instr_at(code, *place as usize);
        let Some(fact) = table[*place as usize] else {
            unreachable!()
        };
        let facts: &[Option<F>] = &table;
        if !fact.fits(code, facts, instr) {
            return Ok(None);
        }
        let next = fact.next(code, facts, *place, instr);
        if !all_agree(code, facts, next, instr, *place) {
            return Ok(None);
        }
        share_all(&mut table, next, code, instr, *place);
        note_all(&mut table, next, code, instr, *place);
    }
    Ok(Some(table))
}

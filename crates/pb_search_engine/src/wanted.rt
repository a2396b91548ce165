//! Whether an outcome is one that is wanted.

ghost use Rattle.std.specs.Prelude.{◌≡◌, ◌≢◌, ◌<◌, ◌↔◌, ◌++◌, ℕ, All, IfOk, IfNone, IfSome, IsTrue, List, Some, false, get_or, length, map, slice_get};
ghost use Rattle.std.specs.List.Sorted.{IsPermutation};
ghost use Rattle.pb_search.specs.Outcomes.{found_view, process_outcome_view};
ghost use Rattle.pb_search_engine.specs.Expected.{ArePrints, HasNoFault, IsFirstOther, IsWanted};

use pb_base::NoMemory;
use pb_search::{Found, ProcessOutcome};
use pb_search_stages::Print;
use std::alloc::Global;

/// What the prints of a run are to be.
#[derive(Clone, Copy)]
pub struct Wanted<'t> {
    /// The prints.
    pub prints: &'t [Print],
    /// Whether they may be made in any order.
    pub any_order: bool,
}

/// Returns the place of the first outcome that is not wanted, if there is one.
pub fn first_other(
    alloc: Global,
    wanted: Wanted<'_>,
    found: &[Found],
) -> Result<Option<usize>, NoMemory>
    ensures some { IfOk result (λ at. IfSome at (IsFirstOther wanted.entry.any_order wanted.entry.prints.now (map found_view found.now))) }
    ensures none { IfOk result (λ at. IfNone at (All (λ f. IsWanted wanted.entry.any_order wanted.entry.prints.now f.outcome) (map found_view found.now))) }
{
    for i in 0..found.len() {
        if !is_wanted(alloc, wanted, &found[i])? {
            return Ok(Some(i));
        }
    }
    Ok(None)
}

/// Returns whether an outcome is wanted.
fn is_wanted(alloc: Global, wanted: Wanted<'_>, found: &Found) -> Result<bool, NoMemory>
    ensures { IfOk result (λ is. IsTrue is ↔ IsWanted wanted.entry.any_order wanted.entry.prints.now (found_view found.now).outcome) }
{
    if has_fault(&found.outcome) {
        return Ok(false);
    }
    if wanted.any_order {
        return are_some_order(alloc, wanted.prints, &found.prints);
    }
    Ok(found.prints.as_slice() == wanted.prints)
}

/// Returns whether some process has faulted.
pub fn has_fault(outcome: &[ProcessOutcome]) -> bool
    ensures { result ≡ false ↔ HasNoFault (map process_outcome_view outcome.now) }
{
    for p in 0..outcome.len() {
        if outcome[p].faulted {
            return true;
        }
    }
    false
}

/// Returns whether these prints are the others in some order.
fn are_some_order(alloc: Global, wanted: &[Print], prints: &[Print]) -> Result<bool, NoMemory>
    ensures { IfOk result (λ are. IsTrue are ↔ IsPermutation wanted.now prints.now) }
{
    if wanted.len() != prints.len() {
        return Ok(false);
    }
    let mut left = Vec::from_slice(alloc, wanted)?;
    for i in 0..prints.len() {
        match place_in(&left, prints[i]) {
            Some(at) => {
                left.remove(at);
            }
            None => return Ok(false),
        }
    }
    Ok(true)
}

/// Returns where a print is in a list.
fn place_in(prints: &[Print], print: Print) -> Option<usize>
    ensures some { IfSome result (λ at. slice_get prints.now at ≡ Some print) }
    ensures none { IfNone result ((at : ℕ) → slice_get prints.now at ≢ Some print) }
{
    for at in 0..prints.len() {
        if prints[at] == print {
            return Some(at);
        }
    }
    None
}

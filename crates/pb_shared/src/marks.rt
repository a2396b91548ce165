//! Marks of arms that were refused.

ghost use Rattle.std.specs.Prelude.{◌≡◌, slice_set, map, true, false};
ghost use Rattle.pb_shared.specs.Ledgers.{is_marked, mark_place};

use pb_base::Pick;
use pb_base::limits::MAX_ARMS;

/// Returns the place of an arm in the list of marks.
fn mark_place(pick: Pick) -> usize
    ensures { result ≡ mark_place pick }
{
    MAX_ARMS * usize::from(pick.process) + usize::from(pick.arm)
}

/// Returns whether an arm is marked.
pub fn is_marked(marks: &[bool], pick: Pick) -> bool
    ensures { result ≡ is_marked marks.now pick }
{
    marks.get(mark_place(pick)).copied().unwrap_or(false)
}

/// Marks an arm.
pub fn mark(marks: &mut Vec<bool>, pick: Pick)
    ensures { marks.new.items ≡ slice_set marks.old.items (mark_place pick) true }
{
    let place = mark_place(pick);
    if place < marks.len() {
        marks[place] = true;
    }
}

/// Takes all marks away.
pub fn clear(marks: &mut Vec<bool>)
    ensures { marks.new.items ≡ map (λ _. false) marks.old.items }
{
    for place in 0..marks.len() {
        marks[place] = false;
    }
}

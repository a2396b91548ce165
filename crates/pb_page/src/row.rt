//! The rows of a run.

ghost use Rattle.std.specs.Prelude.{◌≡◌, ◌<◌, ◌≤◌, ◌+◌, ◌++◌, ℕ, List, length, slice_get, Some, IfOk, IfSome, OnOk};
ghost use Rattle.pb_base.specs.Lines.{HasNames, names_view};
ghost use Rattle.pb_base.specs.declared.lending.Lending.{Lending as LendingValue};
ghost use Rattle.pb_code.specs.View.{labels_view};
ghost use Rattle.pb_debug_positions.specs.Walks.{Walks, WalksBy};
ghost use Rattle.pb_history.specs.Entries.{picks_of};
ghost use Rattle.pb_history.specs.Positions.{state_after};
ghost use Rattle.pb_page.specs.Rows as spec;
ghost use Rattle.pb_page.specs.Rows.{HasNamesOf, IsRow};
ghost use Rattle.pb_page.specs.States.{IsStateBy};
ghost use Rattle.pb_page.specs.Texts.{entry_at, texts};

use crate::state::state_of;
use pb_base::limits::MAX_PICKS;
use pb_base::writing::{put, put_number};
use pb_base::{Names, NoMemory, Pick, Step, event_line};
use pb_code::Labels;
use pb_debug_positions::Walker;
use pb_history::Trace;
use pb_json::put_string;
use pb_verifier::Verified;
use std::alloc::Global;

/// Returns an entry, or nothing if there is none with this number.
fn entry(entries: &[Vec<u8>], k: usize) -> &[u8]
    ensures { result.now ≡ entry_at (texts entries.now) k }
{
    match entries.get(k) {
        Some(entry) => entry,
        None => &[],
    }
}

/// Appends an entry with its number, if it is another than it was.
fn put_change(out: &mut Vec<u8>, k: usize, before: &[u8], after: &[u8]) -> Result<(), NoMemory>
    ensures { OnOk result (out.new.items ≡ out.old.items ++ spec.change_text k before.now after.now) }
{
    if after == before {
        return Ok(());
    }
    put_number(out, b",", k)?;
    put(out, b",")?;
    put(out, after)
}

/// Appends the entries that differ, each with its number.
pub fn put_changes(out: &mut Vec<u8>, before: &[Vec<u8>], after: &[Vec<u8>]) -> Result<(), NoMemory>
    ensures { OnOk result (out.new.items
        ≡ out.old.items ++ spec.changes_text (texts before.now) (texts after.now)) }
{
    for k in 0..after.len() {
        put_change(out, k, entry(before, k), entry(after, k))?;
    }
    Ok(())
}

/// Appends the line of the event that a pick shows, if it shows one.
pub fn put_shown(
    out: &mut Vec<u8>,
    alloc: Global,
    names: &Names,
    step: &Step,
) -> Result<(), NoMemory>
    requires { HasNamesOf (names_view names.now) step.now }
    ensures { OnOk result (out.new.items ≡ out.old.items ++ spec.shown_text (names_view names.now) step.now) }
{
    match step {
        Step::Did(event) => {
            let line = event_line(alloc, names, event)?;
            put(out, b",")?;
            put_string(out, &line)
        }
        Step::Silent | Step::NotEnabled => Ok(()),
    }
}

/// Appends a row.
fn put_row(
    out: &mut Vec<u8>,
    alloc: Global,
    names: &Names,
    pick: Pick,
    before: &[Vec<u8>],
    after: &[Vec<u8>],
    step: &Step,
) -> Result<(), NoMemory>
    requires { HasNamesOf (names_view names.now) step.now }
    ensures { OnOk result (out.new.items ≡ out.old.items
        ++ spec.row_text (names_view names.now) pick (texts before.now) (texts after.now) step.now) }
{
    put_number(out, b"[", pick.process)?;
    put_number(out, b",", pick.arm)?;
    put_changes(out, before, after)?;
    put_shown(out, alloc, names, step)?;
    put(out, b"]")
}

/// Makes the next pick, and appends its row. `state` has the entries of the state before it, and then of that
/// after it.
pub(crate) fn put_next_row(
    out: &mut Vec<u8>,
    alloc: Global,
    verified: &Verified,
    labels: &Labels,
    trace: &Trace,
    walker: &mut Walker,
    state: &mut Vec<Vec<u8>>,
) -> Result<(), NoMemory>
    requires few { length (picks_of trace.now.entries) ≤ MAX_PICKS }
    requires walks { Walks verified.now (picks_of trace.now.entries) walker.old }
    requires within { walker.old.at < length (picks_of trace.now.entries) }
    ensures walks { OnOk result ((lending : LendingValue) → WalksBy lending verified.now (picks_of trace.now.entries) walker.old
        → WalksBy lending verified.now (picks_of trace.now.entries) walker.new) }
    ensures at { OnOk result (walker.new.at ≡ walker.old.at + 1) }
    ensures state { OnOk result ((lending : LendingValue) → WalksBy lending verified.now (picks_of trace.now.entries) walker.old
        → IsStateBy lending verified.now.code (labels_view labels.now)
        (state_after verified.now.code (picks_of trace.now.entries) walker.new.at) (texts state.new.items)) }
    ensures row { OnOk result ((row : List ℕ) × (out.new.items ≡ out.old.items ++ row)
        × ((lending : LendingValue) → WalksBy lending verified.now (picks_of trace.now.entries) walker.old
        → IsStateBy lending verified.now.code (labels_view labels.now)
        (state_after verified.now.code (picks_of trace.now.entries) walker.old.at) (texts state.old.items)
        → IsRow lending verified.now.code (labels_view labels.now) (picks_of trace.now.entries) walker.old.at row)) }
{
    let code = verified.code();
    let pick = trace.pick(walker.at);
    let step = walker.advance(verified, trace);
    let after = state_of(alloc, verified, labels, &walker.machine)?;
    put_row(out, alloc, &code.names, pick, state, &after, &step)?;
    *state = after;
    Ok(())
}

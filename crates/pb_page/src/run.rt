//! The document of a run.

ghost use Rattle.std.specs.Prelude.{◌≡◌, ◌<◌, ◌≤◌, ◌-◌, ◌+◌, ◌++◌, ℕ, List, length, IfOk, OnOk};
ghost use Rattle.pb_base.specs.declared.lending.Lending.{Lending as LendingValue};
ghost use Rattle.pb_code.specs.View.{labels_view};
ghost use Rattle.pb_debug_positions.specs.Walks.{Walks, WalksBy};
ghost use Rattle.pb_history.specs.Entries.{picks_of};
ghost use Rattle.pb_history.specs.Positions.{AreEnabledBy, state_after};
ghost use Rattle.pb_json.specs.Strings.{string_text};
ghost use Rattle.pb_json.specs.Values.{comma};
ghost use Rattle.pb_page.specs.Runs as spec;
ghost use Rattle.pb_page.specs.Runs.{AreRows, IsEnd, IsRunDocument};
ghost use Rattle.pb_page.specs.States.{IsStateBy};
ghost use Rattle.pb_page.specs.Texts.{texts};

use crate::lend::put_lend;
use crate::row::put_next_row;
use crate::state::state_of;
use pb_base::limits::MAX_PICKS;
use pb_base::writing::{put, put_number};
use pb_base::{Lending, NoMemory};
use pb_code::Labels;
use pb_debug_positions::Walker;
use pb_history::Trace;
use pb_json::{put_comma, put_string};
use pb_machine::Machine;
use pb_verifier::Verified;
use std::alloc::Global;

/// Which part of a run a document shows.
#[derive(Clone, Copy)]
pub struct Shown {
    /// The position with which it begins; the last one if there are not so many picks.
    pub from: u32,
    /// The most rows.
    pub rows: u32,
}

/// Appends an entry of a state, with the comma before it.
fn put_entry(out: &mut Vec<u8>, k: usize, entry: &[u8]) -> Result<(), NoMemory>
    ensures { OnOk result (out.new.items ≡ out.old.items ++ (comma k ++ entry.now)) }
{
    put_comma(out, k)?;
    put(out, entry)
}

/// Appends the entries of a state as a list.
pub fn put_state(out: &mut Vec<u8>, entries: &[Vec<u8>]) -> Result<(), NoMemory>
    ensures { OnOk result (out.new.items ≡ out.old.items ++ spec.state_text (texts entries.now)) }
{
    put(out, b"[")?;
    for k in 0..entries.len() {
        put_entry(out, k, &entries[k])?;
    }
    put(out, b"]")
}

/// Appends a text after words.
fn put_text(out: &mut Vec<u8>, words: &[u8], text: &[u8]) -> Result<(), NoMemory>
    ensures { OnOk result (out.new.items ≡ out.old.items ++ (words.now ++ string_text text.now)) }
{
    put(out, words)?;
    put_string(out, text)
}

/// Appends what a document begins with.
fn put_head(
    out: &mut Vec<u8>,
    source: &[u8],
    object: &[u8],
    lending: Lending,
    picks: u32,
    from: u32,
) -> Result<(), NoMemory>
    ensures { OnOk result (out.new.items ≡ out.old.items ++ spec.head_text source.now object.now lending picks from) }
{
    put_text(out, b"{\"parbegin\":1,\"kind\":\"run\",\"text\":", source)?;
    put_text(out, b",\"object\":", object)?;
    put_lend(out, lending)?;
    put_number(out, b",\"picks\":", picks)?;
    put_number(out, b",\"from\":", from)
}

/// Appends the state with which a document begins, up to the first row.
fn put_start(out: &mut Vec<u8>, state: &[Vec<u8>]) -> Result<(), NoMemory>
    ensures { OnOk result (out.new.items ≡ out.old.items ++ spec.start_text (texts state.now)) }
{
    put(out, b",\"start\":")?;
    put_state(out, state)?;
    put(out, b",\"rows\":[")
}

/// Appends what is after the last row.
fn put_end(out: &mut Vec<u8>, end: &[u8]) -> Result<(), NoMemory>
    ensures { OnOk result (out.new.items ≡ out.old.items ++ spec.end_text end.now) }
{
    put(out, b"],\"end\":\"")?;
    put(out, end)?;
    put(out, b"\"}\n")
}

/// Returns a machine at a position of a run under this lending.
fn walker_at(
    alloc: Global,
    verified: &Verified,
    lending: Lending,
    trace: &Trace,
    position: u32,
) -> Result<Walker, NoMemory>
    requires enabled { AreEnabledBy lending verified.now.code (picks_of trace.now.entries) }
    requires within { position ≤ length (picks_of trace.now.entries) }
    ensures walks { IfOk result (WalksBy lending verified.now (picks_of trace.now.entries)) }
    ensures at { IfOk result (λ walker. walker.at ≡ position) }
{
    let machine = Machine::new_by(alloc, verified, lending)?;
    let mut walker = Walker { machine, at: 0 };
    walker.walk_to(verified, trace, position);
    Ok(walker)
}

/// Appends the rows of the next picks, with commas between them.
fn put_rows(
    out: &mut Vec<u8>,
    alloc: Global,
    verified: &Verified,
    labels: &Labels,
    trace: &Trace,
    walker: &mut Walker,
    state: &mut Vec<Vec<u8>>,
    rows: u32,
) -> Result<(), NoMemory>
    requires few { length (picks_of trace.now.entries) ≤ MAX_PICKS }
    requires walks { Walks verified.now (picks_of trace.now.entries) walker.old }
    requires within { walker.old.at + rows ≤ length (picks_of trace.now.entries) }
    ensures walks { OnOk result ((lending : LendingValue) → WalksBy lending verified.now (picks_of trace.now.entries) walker.old
        → WalksBy lending verified.now (picks_of trace.now.entries) walker.new) }
    ensures at { OnOk result (walker.new.at ≡ walker.old.at + rows) }
    ensures rows { OnOk result ((written : List ℕ) × (out.new.items ≡ out.old.items ++ written)
        × ((lending : LendingValue) → WalksBy lending verified.now (picks_of trace.now.entries) walker.old
        → IsStateBy lending verified.now.code (labels_view labels.now)
        (state_after verified.now.code (picks_of trace.now.entries) walker.old.at) (texts state.old.items)
        → AreRows lending verified.now.code (labels_view labels.now) (picks_of trace.now.entries) walker.old.at rows written)) }
{
    for k in 0..rows {
        put_comma(out, k as usize)?;
        put_next_row(out, alloc, verified, labels, trace, walker, state)?;
    }
    Ok(())
}

/// Returns what is after the last row, which is at position `last`: `ending`, if no pick is after it.
fn end_word<'a>(trace: &Trace, last: u32, ending: &'a [u8]) -> &'a [u8]
    requires { last ≤ length (picks_of trace.now.entries) }
    ensures { IsEnd (picks_of trace.now.entries) ending.now last result.now }
{
    if last < trace.len() { b"more" } else { ending }
}

/// Returns the document of the run with this trace, which is of a replay of the code under this lending, with its
/// text and its object: the state at the first position that is shown, and a row for each pick from there on, up to
/// a limit, which the document tells. Behind the last pick of all it has `ending`, a word for how the run has ended.
pub fn run_document(
    alloc: Global,
    verified: &Verified,
    labels: &Labels,
    lending: Lending,
    trace: &Trace,
    source: &[u8],
    object: &[u8],
    shown: Shown,
    ending: &[u8],
) -> Result<Vec<u8>, NoMemory>
    requires enabled { AreEnabledBy lending verified.now.code (picks_of trace.now.entries) }
    requires few { length (picks_of trace.now.entries) ≤ MAX_PICKS }
    ensures { IfOk result (λ document. IsRunDocument lending verified.now.code (labels_view labels.now) (picks_of trace.now.entries)
        source.now object.now shown.from shown.rows ending.now document.items) }
{
    let picks = trace.len();
    let from = shown.from.min(picks);
    let rows = shown.rows.min(picks - from);
    let mut walker = walker_at(alloc, verified, lending, trace, from)?;
    let mut state = state_of(alloc, verified, labels, &walker.machine)?;
    let mut out = Vec::new(alloc);
    put_head(&mut out, source, object, lending, picks, from)?;
    put_start(&mut out, &state)?;
    put_rows(
        &mut out,
        alloc,
        verified,
        labels,
        trace,
        &mut walker,
        &mut state,
        rows,
    )?;
    put_end(&mut out, end_word(trace, walker.at, ending))?;
    Ok(out)
}

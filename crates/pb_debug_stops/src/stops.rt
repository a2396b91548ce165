//! Picks after which a person stops.

ghost use Rattle.std.specs.Prelude.{◌≡◌, ◌↔◌, ◌+◌, ◌<◌, ◌≤◌, ℕ, length, slice_get, IsTrue};
ghost use Rattle.pb_code.specs.View.{labels_view};
ghost use Rattle.pb_history.specs.Entries.{picks_of};
ghost use Rattle.pb_machine.specs.Views.{machine_view};
ghost use Rattle.pb_debug_positions.specs.Searches.{IsFirst, IsLast, line_in};
ghost use Rattle.pb_debug_positions.specs.Walks.{Walks};
ghost use Rattle.pb_debug_stops.specs.Stops.{Arrives, ComesTo, Moves};

use pb_base::limits::MAX_PICKS;
use pb_code::Labels;
use pb_debug_positions::{Walker, line_of_arm};
use pb_history::Trace;
use pb_machine::Machine;
use pb_verifier::Verified;

/// Returns whether two lines differ.
fn differ(a: Option<u32>, b: Option<u32>) -> bool
    ensures { IsTrue result ↔ (a ≡ b → ⊥) }
{
    match a {
        Some(a) => match b {
            Some(b) => a != b,
            None => true,
        },
        None => match b {
            Some(_) => true,
            None => false,
        },
    }
}

/// Makes the next pick of a trace. Returns whether it moves an arm to another line.
pub fn moves(
    walker: &mut Walker,
    verified: &Verified,
    labels: &Labels,
    trace: &Trace,
    p: usize,
    arm: usize,
) -> bool
    requires few { length (picks_of trace.now.entries) ≤ MAX_PICKS }
    requires walks { Walks verified.now (picks_of trace.now.entries) walker.old }
    requires within { walker.old.at < length (picks_of trace.now.entries) }
    ensures walks { Walks verified.now (picks_of trace.now.entries) walker.new }
    ensures at { walker.new.at ≡ walker.old.at + 1 }
    ensures moves { IsTrue result ↔ Moves verified.now.code (labels_view labels.now) (picks_of trace.now.entries) p arm walker.old.at }
{
    let before = line_of_arm(labels, &walker.machine, p, arm);
    let _ = walker.advance(verified, trace);
    let after = line_of_arm(labels, &walker.machine, p, arm);
    differ(before, after)
}

/// Returns whether an arm comes to one of these lines from the one where it was before.
fn comes(before: Option<u32>, after: Option<u32>, lines: &[u32]) -> bool
    ensures { IsTrue result ↔ ComesTo lines.now before after }
{
    match after {
        Some(line) => differ(before, after) && lines.contains(&line),
        None => false,
    }
}

/// Returns whether an arm of a process comes to one of these lines between two states.
fn arrives(labels: &Labels, before: &Machine, after: &Machine, p: usize, lines: &[u32]) -> bool
    ensures { IsTrue result ↔ ((a : ℕ) × ComesTo lines.now
        (line_in (slice_get (labels_view labels.now) p) (slice_get (machine_view before.now).processes p) a)
        (line_in (slice_get (labels_view labels.now) p) (slice_get (machine_view after.now).processes p) a)) }
{
    if after.processes() <= p {
        return false;
    }
    for arm in 0..after.proc(p).arms() {
        let left = line_of_arm(labels, before, p, arm);
        let right = line_of_arm(labels, after, p, arm);
        if comes(left, right, lines) {
            return true;
        }
    }
    false
}

/// Makes the next pick of a trace with a machine, and then with another one that stands where it stood. Returns
/// whether it brings an arm to one of these lines.
fn arrives_next(
    walker: &mut Walker,
    behind: &mut Walker,
    verified: &Verified,
    labels: &Labels,
    trace: &Trace,
    lines: &[u32],
) -> bool
    requires few { length (picks_of trace.now.entries) ≤ MAX_PICKS }
    requires walks { Walks verified.now (picks_of trace.now.entries) walker.old }
    requires behind { Walks verified.now (picks_of trace.now.entries) behind.old }
    requires together { behind.old.at ≡ walker.old.at }
    requires within { walker.old.at < length (picks_of trace.now.entries) }
    ensures walks { Walks verified.now (picks_of trace.now.entries) walker.new }
    ensures behind { Walks verified.now (picks_of trace.now.entries) behind.new }
    ensures at { walker.new.at ≡ walker.old.at + 1 }
    ensures together { behind.new.at ≡ walker.new.at }
    ensures arrives { IsTrue result
        ↔ Arrives verified.now.code (labels_view labels.now) (picks_of trace.now.entries) lines.now walker.old.at }
{
    let pick = trace.pick(walker.at);
    let p = usize::from(pick.process);
    let _ = walker.advance(verified, trace);
    let found = arrives(labels, &behind.machine, &walker.machine, p, lines);
    let _ = behind.advance(verified, trace);
    found
}

/// Makes the picks of a trace with two machines up to the first that brings an arm to one of these lines, or to
/// the last. Returns its number.
pub fn first_arrival(
    walker: &mut Walker,
    behind: &mut Walker,
    verified: &Verified,
    labels: &Labels,
    trace: &Trace,
    lines: &[u32],
) -> Option<u32>
    requires few { length (picks_of trace.now.entries) ≤ MAX_PICKS }
    requires walks { Walks verified.now (picks_of trace.now.entries) walker.old }
    requires behind { Walks verified.now (picks_of trace.now.entries) behind.old }
    requires together { behind.old.at ≡ walker.old.at }
    ensures { IsFirst (Arrives verified.now.code (labels_view labels.now) (picks_of trace.now.entries) lines.now) walker.old.at
        (length (picks_of trace.now.entries)) result }
{
    while walker.at < trace.len() {
        let at = walker.at;
        if arrives_next(walker, behind, verified, labels, trace, lines) {
            return Some(at);
        }
    }
    None
}

/// Makes the picks of a trace with two machines up to a position. Returns the number of the last that brings an
/// arm to one of these lines.
pub fn last_arrival(
    walker: &mut Walker,
    behind: &mut Walker,
    verified: &Verified,
    labels: &Labels,
    trace: &Trace,
    past: u32,
    lines: &[u32],
) -> Option<u32>
    requires few { length (picks_of trace.now.entries) ≤ MAX_PICKS }
    requires walks { Walks verified.now (picks_of trace.now.entries) walker.old }
    requires behind { Walks verified.now (picks_of trace.now.entries) behind.old }
    requires together { behind.old.at ≡ walker.old.at }
    requires before { walker.old.at ≤ past }
    requires within { past ≤ length (picks_of trace.now.entries) }
    ensures { IsLast (Arrives verified.now.code (labels_view labels.now) (picks_of trace.now.entries) lines.now) walker.old.at past result }
{
    let mut last = None;
    while walker.at < past {
        let at = walker.at;
        if arrives_next(walker, behind, verified, labels, trace, lines) {
            last = Some(at);
        }
    }
    last
}

/// Makes the picks of a trace up to the first that moves an arm to another line, or to the last. Returns its
/// number.
pub fn first_move(
    walker: &mut Walker,
    verified: &Verified,
    labels: &Labels,
    trace: &Trace,
    p: usize,
    arm: usize,
) -> Option<u32>
    requires few { length (picks_of trace.now.entries) ≤ MAX_PICKS }
    requires walks { Walks verified.now (picks_of trace.now.entries) walker.old }
    ensures { IsFirst (Moves verified.now.code (labels_view labels.now) (picks_of trace.now.entries) p arm) walker.old.at
        (length (picks_of trace.now.entries)) result }
{
    while walker.at < trace.len() {
        let at = walker.at;
        if moves(walker, verified, labels, trace, p, arm) {
            return Some(at);
        }
    }
    None
}

/// Makes the picks of a trace up to a position. Returns the number of the last that moves an arm to another
/// line.
pub fn last_move(
    walker: &mut Walker,
    verified: &Verified,
    labels: &Labels,
    trace: &Trace,
    past: u32,
    p: usize,
    arm: usize,
) -> Option<u32>
    requires few { length (picks_of trace.now.entries) ≤ MAX_PICKS }
    requires walks { Walks verified.now (picks_of trace.now.entries) walker.old }
    requires before { walker.old.at ≤ past }
    requires within { past ≤ length (picks_of trace.now.entries) }
    ensures { IsLast (Moves verified.now.code (labels_view labels.now) (picks_of trace.now.entries) p arm) walker.old.at past result }
{
    let mut last = None;
    while walker.at < past {
        let at = walker.at;
        if moves(walker, verified, labels, trace, p, arm) {
            last = Some(at);
        }
    }
    last
}

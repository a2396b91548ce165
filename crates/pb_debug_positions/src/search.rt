//! Searches along the picks.

ghost use Rattle.std.specs.Prelude.{◌≡◌, ◌↔◌, ◌+◌, ◌<◌, ◌≤◌, length, slice_get, IsTrue};
ghost use Rattle.pb_code.specs.View.{labels_view};
ghost use Rattle.pb_debug_positions.specs.Searches.{Does, IsFirst, IsLast, faulted_at, faulted_in, line_in, value_at, value_in};
ghost use Rattle.pb_debug_positions.specs.Walks.{Walks};
ghost use Rattle.pb_history.specs.Entries.{picks_of};
ghost use Rattle.pb_machine.specs.Views.{machine_view};

use crate::walker::Walker;
use pb_base::Step;
use pb_base::limits::MAX_PICKS;
use pb_code::Labels;
use pb_history::Trace;
use pb_machine::Machine;
use pb_verifier::Verified;

/// What a search looks for.
#[derive(Clone, Copy)]
pub enum Watch {
    /// A pick that shows an event.
    Event,
    /// A pick that changes an integer of a process.
    Integer {
        process: usize,
        integer: usize,
    },
    /// A pick after which an arm is at a line, and before which it is not.
    Line {
        process: usize,
        arm: usize,
        line: u32,
    },
    /// A pick with which a process faults.
    Fault {
        process: usize,
    },
}

/// Returns an integer of a process of a machine, if both are there.
pub fn value_of(machine: &Machine, p: usize, x: usize) -> Option<i64>
    ensures { result ≡ value_in (slice_get (machine_view machine.now).processes p) x }
{
    if machine.processes() <= p {
        return None;
    }
    let vars = machine.proc(p).vars();
    if vars.len() <= x {
        return None;
    }
    Some(vars[x])
}

/// Returns the line of an arm of a process of a machine, if it is live and its place has one.
pub fn line_of_arm(labels: &Labels, machine: &Machine, p: usize, arm: usize) -> Option<u32>
    ensures { result ≡ line_in (slice_get (labels_view labels.now) p)
        (slice_get (machine_view machine.now).processes p) arm }
{
    if labels.processes.len() <= p || machine.processes() <= p {
        return None;
    }
    let process = machine.proc(p);
    if process.arms() <= arm {
        return None;
    }
    let place = usize::from(process.thread(arm).place()?);
    let lines = &labels.processes[p].lines;
    if lines.len() <= place {
        return None;
    }
    lines[place]
}

/// Returns whether two values differ.
fn differ(a: Option<i64>, b: Option<i64>) -> bool
    ensures { IsTrue result ↔ (a ≡ b → ⊥) }
{
    match a {
        Some(a) => match b {
            Some(b) => a != b,
            None => true,
        },
        None => match b {
            Some(_) => true,
            None => false,
        },
    }
}

/// Makes the next pick of a trace. Returns whether it changes an integer of a process.
fn changes(walker: &mut Walker, verified: &Verified, trace: &Trace, p: usize, x: usize) -> bool
    requires few { length (picks_of trace.now.entries) ≤ MAX_PICKS }
    requires walks { Walks verified.now (picks_of trace.now.entries) walker.old }
    requires within { walker.old.at < length (picks_of trace.now.entries) }
    ensures walks { Walks verified.now (picks_of trace.now.entries) walker.new }
    ensures at { walker.new.at ≡ walker.old.at + 1 }
    ensures changes { IsTrue result
        ↔ (value_at verified.now.code (picks_of trace.now.entries) walker.old.at p x
        ≡ value_at verified.now.code (picks_of trace.now.entries) (walker.old.at + 1) p x → ⊥) }
{
    let before = value_of(&walker.machine, p, x);
    let _ = walker.advance(verified, trace);
    let after = value_of(&walker.machine, p, x);
    differ(before, after)
}

/// Returns whether a line is this one.
fn is_line(line: Option<u32>, wanted: u32) -> bool
    ensures { IsTrue result ↔ (line ≡ Some wanted) }
{
    match line {
        Some(line) => line == wanted,
        None => false,
    }
}

/// Returns whether a first is false and a second true.
fn begins(before: bool, after: bool) -> bool
    ensures { IsTrue result ↔ ((IsTrue before → ⊥) × IsTrue after) }
{
    !before && after
}

/// Makes the next pick of a trace. Returns whether an arm comes to a line with it.
fn comes_to(
    walker: &mut Walker,
    verified: &Verified,
    labels: &Labels,
    trace: &Trace,
    p: usize,
    arm: usize,
    line: u32,
) -> bool
    requires few { length (picks_of trace.now.entries) ≤ MAX_PICKS }
    requires walks { Walks verified.now (picks_of trace.now.entries) walker.old }
    requires within { walker.old.at < length (picks_of trace.now.entries) }
    ensures walks { Walks verified.now (picks_of trace.now.entries) walker.new }
    ensures at { walker.new.at ≡ walker.old.at + 1 }
    ensures comes { IsTrue result ↔ Does verified.now.code (labels_view labels.now) (picks_of trace.now.entries)
        (Watch.Line p arm line) walker.old.at }
{
    let before = line_of_arm(labels, &walker.machine, p, arm);
    let _ = walker.advance(verified, trace);
    let after = line_of_arm(labels, &walker.machine, p, arm);
    begins(is_line(before, line), is_line(after, line))
}

/// Returns whether a process of a machine is there and has faulted.
fn has_faulted(machine: &Machine, p: usize) -> bool
    ensures { result ≡ faulted_in (slice_get (machine_view machine.now).processes p) }
{
    p < machine.processes() && machine.proc(p).faulted()
}

/// Makes the next pick of a trace. Returns whether a process faults with it.
fn faults(walker: &mut Walker, verified: &Verified, trace: &Trace, p: usize) -> bool
    requires few { length (picks_of trace.now.entries) ≤ MAX_PICKS }
    requires walks { Walks verified.now (picks_of trace.now.entries) walker.old }
    requires within { walker.old.at < length (picks_of trace.now.entries) }
    ensures walks { Walks verified.now (picks_of trace.now.entries) walker.new }
    ensures at { walker.new.at ≡ walker.old.at + 1 }
    ensures faults { IsTrue result
        ↔ ((IsTrue (faulted_at verified.now.code (picks_of trace.now.entries) walker.old.at p) → ⊥)
        × IsTrue (faulted_at verified.now.code (picks_of trace.now.entries) (walker.old.at + 1) p)) }
{
    let before = has_faulted(&walker.machine, p);
    let _ = walker.advance(verified, trace);
    let after = has_faulted(&walker.machine, p);
    begins(before, after)
}

/// Makes the next pick of a trace. Returns whether it does what is looked for.
fn does(
    walker: &mut Walker,
    verified: &Verified,
    labels: &Labels,
    trace: &Trace,
    watch: Watch,
) -> bool
    requires few { length (picks_of trace.now.entries) ≤ MAX_PICKS }
    requires walks { Walks verified.now (picks_of trace.now.entries) walker.old }
    requires within { walker.old.at < length (picks_of trace.now.entries) }
    ensures walks { Walks verified.now (picks_of trace.now.entries) walker.new }
    ensures at { walker.new.at ≡ walker.old.at + 1 }
    ensures does { IsTrue result ↔ Does verified.now.code (labels_view labels.now) (picks_of trace.now.entries) watch walker.old.at }
{
    match watch {
        Watch::Event => match walker.advance(verified, trace) {
            Step::Did(_) => true,
            Step::Silent | Step::NotEnabled => false,
        },
        Watch::Integer { process, integer } => changes(walker, verified, trace, process, integer),
        Watch::Line { process, arm, line } => comes_to(
            walker, verified, labels, trace, process, arm, line,
        ),
        Watch::Fault { process } => faults(walker, verified, trace, process),
    }
}

/// Makes the picks of a trace up to the first that does what is looked for, or to the last. Returns its
/// number.
pub fn first_in(
    walker: &mut Walker,
    verified: &Verified,
    labels: &Labels,
    trace: &Trace,
    watch: Watch,
) -> Option<u32>
    requires few { length (picks_of trace.now.entries) ≤ MAX_PICKS }
    requires walks { Walks verified.now (picks_of trace.now.entries) walker.old }
    ensures { IsFirst (Does verified.now.code (labels_view labels.now) (picks_of trace.now.entries) watch) walker.old.at
        (length (picks_of trace.now.entries)) result }
{
    while walker.at < trace.len() {
        let at = walker.at;
        if does(walker, verified, labels, trace, watch) {
            return Some(at);
        }
    }
    None
}

/// Makes the picks of a trace up to a position. Returns the number of the last that does what is looked for.
pub fn last_in(
    walker: &mut Walker,
    verified: &Verified,
    labels: &Labels,
    trace: &Trace,
    past: u32,
    watch: Watch,
) -> Option<u32>
    requires few { length (picks_of trace.now.entries) ≤ MAX_PICKS }
    requires walks { Walks verified.now (picks_of trace.now.entries) walker.old }
    requires before { walker.old.at ≤ past }
    requires within { past ≤ length (picks_of trace.now.entries) }
    ensures { IsLast (Does verified.now.code (labels_view labels.now) (picks_of trace.now.entries) watch) walker.old.at past result }
{
    let mut last = None;
    while walker.at < past {
        let at = walker.at;
        if does(walker, verified, labels, trace, watch) {
            last = Some(at);
        }
    }
    last
}

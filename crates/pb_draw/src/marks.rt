//! The events, the reads and the assignments of a run, each at its pick, with the line of its arm.

ghost use Rattle.std.specs.Prelude.{◌≡◌, ◌++◌, IfOk, OnOk, Some, length, slice_get};
ghost use Rattle.pb_code.specs.View.{labels_view};
ghost use Rattle.pb_debug_positions.specs.Searches as searches;
ghost use Rattle.pb_debug_positions.specs.Searches.{line_in};
ghost use Rattle.pb_draw.specs.Marks as spec;
ghost use Rattle.pb_draw.specs.Marks.{mark_list, marks_before};
ghost use Rattle.pb_history.specs.Entries.{picks_of};
ghost use Rattle.pb_history.specs.Positions.{AreEnabledBy};
ghost use Rattle.pb_machine.specs.Views.{machine_view};

use crate::accesses::{Access, access_of};
use crate::drawing::{Happening, Integers, Mark};
use crate::walk::advance;
use pb_base::{Event, Lending, NoMemory, Pick};
use pb_code::Labels;
use pb_debug_positions::{line_of_arm, value_of};
use pb_history::Trace;
use pb_machine::Machine;
use pb_verifier::Verified;
use std::alloc::Global;

/// Returns the mark of what a pick shows, with the line of its arm before it.
fn mark_of(at: u32, pick: Pick, what: Happening, line: Option<u32>) -> Mark
    ensures { result ≡ record { at = at; pick = pick; what = what; line = line } }
{
    Mark {
        at,
        pick,
        what,
        line,
    }
}

/// Adds the mark of what this pick shows, if it does, with the line of its arm before it.
fn add_mark(
    marks: &mut Vec<Mark>,
    at: u32,
    pick: Pick,
    what: Option<Happening>,
    line: Option<u32>,
) -> Result<(), NoMemory>
    ensures { OnOk result (marks.new.items ≡ marks.old.items ++ mark_list what (Some pick) line at) }
{
    match what {
        Some(Happening::Did(event)) => {
            marks.push(mark_of(at, pick, Happening::Did(event), line))?;
        }
        Some(Happening::Read { integer, value }) => {
            let what = Happening::Read { integer, value };
            marks.push(mark_of(at, pick, what, line))?;
        }
        Some(Happening::Assigned { integer, value }) => {
            let what = Happening::Assigned { integer, value };
            marks.push(mark_of(at, pick, what, line))?;
        }
        None => {}
    }
    Ok(())
}

/// Returns an integer of the process of a pick in a machine, if it is there.
fn value_in(machine: &Machine, pick: Pick, integer: u8) -> Option<i64>
    ensures { result ≡ searches.value_in (slice_get (machine_view machine.now).processes pick.process) integer }
{
    value_of(machine, usize::from(pick.process), usize::from(integer))
}

/// Returns the read of an integer that is this.
fn read(integer: u8, value: Option<i64>) -> Option<Happening>
    ensures { result ≡ spec.read integer value }
{
    let value = value?;
    Some(Happening::Read { integer, value })
}

/// Returns the assignment to an integer that is this then.
fn assigned(integer: u8, value: Option<i64>) -> Option<Happening>
    ensures { result ≡ spec.assigned integer value }
{
    let value = value?;
    Some(Happening::Assigned { integer, value })
}

/// Returns the read that a pick makes, if it is one and reads are drawn. The machine is before that pick.
fn read_by(
    integers: Integers,
    access: Option<Access>,
    machine: &Machine,
    pick: Pick,
) -> Option<Happening>
    ensures { result ≡ spec.read_by integers (λ x. searches.value_in (slice_get (machine_view machine.now).processes pick.process) x) access }
{
    match access {
        Some(Access::Reads(x)) => {
            if integers.reads {
                read(x, value_in(machine, pick, x))
            } else {
                None
            }
        }
        Some(Access::Assigns(_)) => None,
        None => None,
    }
}

/// Returns the assignment that a pick makes, if it is one and assignments are drawn. The machine is after that pick.
fn assigned_by(
    integers: Integers,
    access: Option<Access>,
    machine: &Machine,
    pick: Pick,
) -> Option<Happening>
    ensures { result ≡ spec.assigned_by integers (λ x. searches.value_in (slice_get (machine_view machine.now).processes pick.process) x) access }
{
    match access {
        Some(Access::Reads(_)) => None,
        Some(Access::Assigns(x)) => {
            if integers.assignments {
                assigned(x, value_in(machine, pick, x))
            } else {
                None
            }
        }
        None => None,
    }
}

/// Returns what a pick shows: its event, or else its read or its assignment, if there is one.
fn happening(
    event: Option<Event>,
    read: Option<Happening>,
    assigned: Option<Happening>,
) -> Option<Happening>
    ensures { result ≡ spec.happening_of event (spec.or_else read assigned) }
{
    if let Some(event) = event {
        return Some(Happening::Did(event));
    }
    match read {
        Some(read) => Some(read),
        None => assigned,
    }
}

/// Returns the source line of the arm of a pick, if it is live and its place has one.
fn line_of(labels: &Labels, machine: &Machine, pick: Pick) -> Option<u32>
    ensures { result ≡ line_in (slice_get (labels_view labels.now) pick.process)
        (slice_get (machine_view machine.now).processes pick.process) pick.arm }
{
    line_of_arm(
        labels,
        machine,
        usize::from(pick.process),
        usize::from(pick.arm),
    )
}

/// Returns a mark for each event of the run, at the pick that shows it, and for each read and each assignment if these are
/// drawn.
pub(crate) fn marks_of(
    alloc: Global,
    verified: &Verified,
    labels: &Labels,
    lending: Lending,
    integers: Integers,
    trace: &Trace,
) -> Result<Vec<Mark>, NoMemory>
    requires { AreEnabledBy lending verified.now.code (picks_of trace.now.entries) }
    ensures { IfOk result (λ marks.
        marks.items ≡ marks_before integers verified.now.code (labels_view labels.now) (picks_of trace.now.entries) (length trace.now.entries)) }
{
    let mut machine = Machine::new_by(alloc, verified, lending)?;
    let mut marks = Vec::new(alloc);
    for at in 0..trace.len() {
        let pick = trace.pick(at);
        let line = line_of(labels, &machine, pick);
        let access = access_of(verified, &machine, pick);
        let read = read_by(integers, access, &machine, pick);
        let event = advance(verified, trace, &mut machine, at);
        let assigned = assigned_by(integers, access, &machine, pick);
        let what = happening(event, read, assigned);
        add_mark(&mut marks, at, pick, what, line)?;
    }
    Ok(marks)
}

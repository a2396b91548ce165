//! Whether the machine and the source are in the same state.

ghost use Rattle.std.specs.Prelude.{◌<◌, length};
ghost use Rattle.pb_banker.specs.Lenders.{lender_state};
ghost use Rattle.pb_base.specs.Banker.{processes};

use pb_banker::{Banker, Lender};
use pb_code::Labels;
use pb_machine::{Machine, Proc};
use pb_rewrite::Source;
use std::alloc::Global;

/// In what the two sides differ.
#[derive(Clone, Copy)]
pub(super) enum Difference {
    /// In the result of a pick.
    Answer,
    /// In the integers of a process.
    Integers,
    /// In the line at which an arm is, or whether it is at one.
    Lines,
    /// In what is lent.
    Loans,
    /// In whether all processes are over.
    Finished,
    /// Not in these, but in what a silent run makes and in what the same picks make one by one.
    Run,
}

fn same_integers(machine: &Machine, source: &Source<Global>) -> bool {
    if machine.processes() != source.processes() {
        return false;
    }
    for p in 0..machine.processes() {
        if machine.proc(p).vars() != source.vars(p) {
            return false;
        }
    }
    true
}

/// Returns the line of a place of the code, if an arm is at one that has a line.
fn line_at(labels: &Labels, p: usize, place: Option<u16>) -> Option<u32> {
    let lines = &labels.processes.get(p)?.lines;
    *lines.get(usize::from(place?))?
}

/// Returns whether each arm of a process is at the same line on both sides, those that are not live at none.
fn same_lines_in(labels: &Labels, process: &Proc, source: &Source<Global>, p: usize) -> bool {
    for arm in 0..process.arms() {
        if line_at(labels, p, process.thread(arm).place()) != source.head_line(p, arm) {
            return false;
        }
    }
    true
}

fn same_lines(labels: &Labels, machine: &Machine, source: &Source<Global>) -> bool {
    for p in 0..machine.processes() {
        if !same_lines_in(labels, machine.proc(p), source, p) {
            return false;
        }
    }
    true
}

fn same_loans_of(one: &Lender, other: &Banker, p: usize) -> bool
    requires one { p < processes (lender_state one.now) }
    requires other { p < processes other.now.state }
{
    if one.resources() != other.resources() {
        return false;
    }
    for r in 0..one.resources() {
        if one.loan(p, r) != other.loan(p, r) {
            return false;
        }
    }
    true
}

/// Returns whether a lender and a banker have lent the same.
pub(super) fn same_loans(one: &Lender, other: &Banker) -> bool {
    if one.processes() != other.processes() {
        return false;
    }
    for p in 0..one.processes() {
        if !same_loans_of(one, other, p) {
            return false;
        }
    }
    true
}

/// Returns in what the machine and the source differ first, if they do.
pub(super) fn first_difference(
    labels: &Labels,
    machine: &Machine,
    source: &Source<Global>,
) -> Option<Difference> {
    if machine.finished() != source.finished() {
        return Some(Difference::Finished);
    }
    if !same_integers(machine, source) {
        return Some(Difference::Integers);
    }
    if !same_loans(machine.lender(), source.banker()) {
        return Some(Difference::Loans);
    }
    if !same_lines(labels, machine, source) {
        return Some(Difference::Lines);
    }
    None
}

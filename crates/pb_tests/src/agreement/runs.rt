//! Silent runs, beside the same picks made one by one.

ghost use Rattle.pb_machine.specs.Views.{IsMachineOf};
ghost use Rattle.pb_rewrite.specs.Sources.{IsSource};

use crate::agreement::sides::{Seen, shown, step_both};
use crate::agreement::states::{Difference, first_difference, same_loans};
use crate::agreement::tally::Tally;
use pb_banker::Lender;
use pb_base::{NoMemory, Pick};
use pb_codegen::Compiled;
use pb_machine::Machine;
use pb_rewrite::Source;
use std::alloc::Global;

/// A silent run of an arm, of at most `max` picks.
#[derive(Clone, Copy)]
pub(super) struct Run {
    pub(super) pick: Pick,
    pub(super) max: u32,
}

/// Returns whether both machines are in the same state.
fn same_machines(one: &Machine, other: &Machine) -> bool {
    if one.processes() != other.processes() {
        return false;
    }
    for p in 0..one.processes() {
        if !one.proc(p).same(other.proc(p)) {
            return false;
        }
    }
    match other.lender() {
        Lender::Banker(banker) => same_loans(one.lender(), banker),
        Lender::Till(_) => false,
    }
}

/// Returns whether a pick showed nothing, and was made.
pub(super) fn is_silent(seen: Seen) -> bool {
    matches!(seen, Seen::Skipped | Seen::Silent)
}

/// Makes the picks of a run that made `count` of them, one by one in the machine and in the source. Returns
/// in what they differ.
fn make_each(
    alloc: Global,
    compiled: &Compiled,
    machine: &mut Machine,
    source: &mut Source<Global>,
    pick: Pick,
    count: u32,
    tally: &mut Tally,
) -> Result<Option<Difference>, NoMemory>
    requires machine { IsMachineOf compiled.now.verified machine.old }
    requires source { IsSource source.old }
    ensures machine { IsMachineOf compiled.now.verified machine.new }
    ensures source { IsSource source.new }
{
    for _made in 0..count {
        let seen = step_both(alloc, compiled.verified(), machine, source, pick)?;
        tally.count(seen);
        if !is_silent(seen) {
            return Ok(Some(Difference::Run));
        }
        let difference = first_difference(compiled.labels(), machine, source);
        if difference.is_some() {
            return Ok(difference);
        }
    }
    Ok(None)
}

/// Makes one pick in both machines and in the source. Returns in what they differ, also if it is silent and
/// must not be.
fn make_one(
    alloc: Global,
    compiled: &Compiled,
    machine: &mut Machine,
    beside: &mut Machine,
    source: &mut Source<Global>,
    run: Run,
    tally: &mut Tally,
) -> Result<Option<Difference>, NoMemory>
    requires machine { IsMachineOf compiled.now.verified machine.old }
    requires beside { IsMachineOf compiled.now.verified beside.old }
    requires source { IsSource source.old }
    ensures machine { IsMachineOf compiled.now.verified machine.new }
    ensures beside { IsMachineOf compiled.now.verified beside.new }
    ensures source { IsSource source.new }
{
    let step = beside.step(compiled.verified(), run.pick);
    let seen = step_both(alloc, compiled.verified(), machine, source, run.pick)?;
    tally.count(seen);
    if let Seen::Differ(..) = seen {
        return Ok(Some(Difference::Answer));
    }
    let silent = is_silent(seen);
    if silent != is_silent(shown(run.pick, step)) || (silent && run.max > 0) {
        return Ok(Some(Difference::Run));
    }
    Ok(first_difference(compiled.labels(), machine, source))
}

/// Makes a silent run in the machine `beside`, and its picks one by one in the machine and in the source; and
/// one pick more if the run stopped before its limit, or had none to make. Returns in what they differ.
pub(super) fn make_run(
    alloc: Global,
    compiled: &Compiled,
    machine: &mut Machine,
    beside: &mut Machine,
    source: &mut Source<Global>,
    run: Run,
    tally: &mut Tally,
) -> Result<Option<Difference>, NoMemory>
    requires machine { IsMachineOf compiled.now.verified machine.old }
    requires beside { IsMachineOf compiled.now.verified beside.old }
    requires source { IsSource source.old }
    ensures machine { IsMachineOf compiled.now.verified machine.new }
    ensures beside { IsMachineOf compiled.now.verified beside.new }
    ensures source { IsSource source.new }
{
    let made = beside.run_silent(compiled.verified(), run.pick, run.max);
    let mut difference = make_each(alloc, compiled, machine, source, run.pick, made, tally)?;
    let stopped = made < run.max || run.max == 0;
    if difference.is_none() && stopped {
        difference = make_one(alloc, compiled, machine, beside, source, run, tally)?;
    }
    if difference.is_none() && !same_machines(machine, beside) {
        difference = Some(Difference::Run);
    }
    Ok(difference)
}

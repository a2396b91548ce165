//! Schedules: which picks are made.

ghost use Rattle.pb_machine.specs.Views.{IsMachineOf};
ghost use Rattle.pb_names.specs.View.{resolved_view};
ghost use Rattle.pb_rewrite.specs.Sources.{FitsClaims, IsSource};

use crate::agreement::draws::Draws;
use crate::agreement::runs::{Run, make_run};
use crate::agreement::sides::Program;
use crate::agreement::states::{Difference, first_difference};
use crate::agreement::tally::Tally;
use pb_base::{NoMemory, Pick};
use pb_codegen::Compiled;
use pb_machine::{Machine, Proc, ThreadState};
use pb_rewrite::Source;
use std::alloc::Global;

/// The most runs of one schedule: some programs have no end.
const MAX_RUNS: usize = 500;

/// A silent run is of fewer picks.
const MAX_RUN: usize = 12;

/// Adds the picks of a process's live arms.
fn push_live(process: &Proc, p: usize, picks: &mut Vec<Pick>) -> Result<(), NoMemory> {
    let Ok(process_number) = u8::try_from(p) else {
        return Ok(());
    };
    for arm in 0..process.arms() {
        let Ok(arm_number) = u8::try_from(arm) else {
            return Ok(());
        };
        if process.thread(arm).state() == ThreadState::Live {
            picks.push(Pick {
                process: process_number,
                arm: arm_number,
            })?;
        }
    }
    Ok(())
}

/// Returns the picks of all live arms.
fn live_picks(alloc: Global, machine: &Machine) -> Result<Vec<Pick>, NoMemory> {
    let mut picks = Vec::new(alloc);
    for p in 0..machine.processes() {
        push_live(machine.proc(p), p, &mut picks)?;
    }
    Ok(picks)
}

/// Returns one of some few numbers.
fn small(draws: &mut Draws, bound: usize) -> u8 {
    match u8::try_from(draws.below(bound)) {
        Ok(number) => number,
        Err(_) => u8::MAX,
    }
}

/// Returns a pick: seven times out of eight of a live arm, else of any process and arm, also one that is not
/// there.
fn draw(alloc: Global, machine: &Machine, draws: &mut Draws) -> Result<Pick, NoMemory> {
    let live = live_picks(alloc, machine)?;
    if draws.below(8) > 0 {
        if let Some(pick) = live.get(draws.below(live.len())) {
            return Ok(*pick);
        }
    }
    Ok(Pick {
        process: small(draws, machine.processes().saturating_add(1)),
        arm: small(draws, 8),
    })
}

/// Returns the limit of a silent run: 0 half of the time, so that a pick is made alone.
fn limit(draws: &mut Draws) -> u32 {
    if draws.below(2) == 0 {
        return 0;
    }
    u32::from(small(draws, MAX_RUN))
}

/// Makes drawn picks on both sides until all processes are over and some picks more, and compares the sides
/// after each. The machine `beside` makes the same picks by silent runs of drawn lengths, and is compared
/// after each run.
fn make_picks(
    alloc: Global,
    compiled: &Compiled,
    machine: &mut Machine,
    beside: &mut Machine,
    source: &mut Source<Global>,
    draws: &mut Draws,
    tally: &mut Tally,
) -> Result<Option<Difference>, NoMemory>
    requires machine { IsMachineOf compiled.now.verified machine.old }
    requires beside { IsMachineOf compiled.now.verified beside.old }
    requires source { IsSource source.old }
{
    for _made in 0..MAX_RUNS {
        if machine.finished() && draws.below(4) == 0 {
            return Ok(None);
        }
        let pick = draw(alloc, machine, draws)?;
        let max = limit(draws);
        let run = Run { pick, max };
        let difference = make_run(alloc, compiled, machine, beside, source, run, tally)?;
        if difference.is_some() {
            return Ok(difference);
        }
    }
    Ok(None)
}

/// Steps a program on both sides under a schedule, and returns in what they first differ, if they do.
pub(super) fn follow(
    alloc: Global,
    program: &Program,
    schedule: u64,
    tally: &mut Tally,
) -> Result<Option<Difference>, NoMemory>
    requires { FitsClaims (resolved_view program.now.analysis.program) program.now.analysis.claims }
{
    let compiled = &program.compiled;
    let analysis = &program.analysis;
    let mut machine = Machine::new(alloc, compiled.verified())?;
    let mut beside = Machine::new(alloc, compiled.verified())?;
    let mut source = Source::new(alloc, alloc, &analysis.program, &analysis.claims)?;
    let difference = first_difference(compiled.labels(), &machine, &source);
    if difference.is_some() {
        return Ok(difference);
    }
    let mut draws = Draws::new(schedule);
    make_picks(
        alloc,
        compiled,
        &mut machine,
        &mut beside,
        &mut source,
        &mut draws,
        tally,
    )
}

//! The picks of a run, counted.
ghost use Rattle.std.specs.Prelude.{◌≢◌, ◌≤◌, IfErr, IfOk, IfSome, MatchOption, None, Some, length};
ghost use Rattle.pb_base.specs.declared.lending.Lending.TheVariants.{ByBanker};
ghost use Rattle.pb_base.specs.Steppers.{State};
ghost use Rattle.pb_code.specs.Code.{CodeProcess};
ghost use Rattle.pb_machine.specs.Views.{machine_view, IsMachineBy};
ghost use Rattle.pb_record.specs.Recorded.{AreCounts, AreTooMany, IsRecorded, IsTooLong};
ghost use Rattle.pb_verifier.specs.Verified.{IsVerified};

use crate::choice::Chooser;
use crate::open::Open;
use crate::schedule::Next;
use pb_base::limits::MAX_PICKS;
use pb_base::{Lending, NoMemory};
use pb_history::{CountedPick, Trace};
use pb_machine::Machine;
use pb_options::RunOptions;
use pb_picks::count_pick;
use pb_verifier::Verified;
use pb_workers::{RunFault, run_workers};
use std::alloc::Global;
use std::sync::Wait;
use std::thread::Threads;

/// The most counted picks that an input can have, since the line of each takes at least 5 bytes.
const MAX_LINES: usize = 838_860;

/// Returns the picks of a run of the code by workers, who ask the banker; nothing if their lines would be too
/// long for an input. The numbers of workers, quantum and steps are never the fault.
pub fn report_picks<R: Threads + Wait + Sync>(
    rt: &R,
    alloc: Global,
    options: RunOptions,
    verified: &Verified,
) -> Result<Option<Vec<CountedPick>>, RunFault>
    requires { IsVerified verified.now }
    ensures picks { IfOk result (λ picks. MatchOption picks (IsTooLong ByBanker verified.now.code options.steps None)
        (λ picks. (end : State CodeProcess) × IsRecorded ByBanker verified.now.code options.steps None picks.items end)) }
    ensures limits { IfErr result (λ fault. fault ≢ RunFault.Limits) }
{
    let report = run_workers(
        rt,
        alloc,
        verified,
        options.workers,
        options.quantum,
        options.steps,
        &Open,
    )?;
    match count_picks(alloc, &report.trace) {
        Ok(picks) => Ok(picks),
        Err(_) => Err(RunFault::NoMemory),
    }
}

/// Returns the picks of a trace; nothing as soon as they are too many for an input.
fn count_picks(alloc: Global, trace: &Trace) -> Result<Option<Vec<CountedPick>>, NoMemory>
    requires { length trace.now.entries ≤ MAX_PICKS }
    ensures { IfOk result (λ picks. MatchOption picks (AreTooMany trace.now.entries)
        (λ picks. AreCounts trace.now.entries picks.items)) }
{
    let mut picks = Vec::new(alloc);
    for i in 0..trace.spans_len() {
        if picks.len() > MAX_LINES {
            return Ok(None);
        }
        let span = trace.span(i);
        count_pick(&mut picks, span.pick, span.count)?;
    }
    Ok(Some(picks))
}

/// Returns the picks of a run of the code under a lending, each drawn from those that are enabled by a generator
/// with this seed, and the machine after them; nothing if their lines would be too long for an input. The run ends
/// as soon as they are, as the steps are used up, or as no pick is enabled.
pub fn draw_picks(
    alloc: Global,
    lending: Lending,
    steps: u32,
    seed: u64,
    verified: &Verified,
) -> Result<Option<(Machine, Vec<CountedPick>)>, NoMemory>
    requires verified { IsVerified verified.now }
    requires steps { steps ≤ MAX_PICKS }
    ensures picks { IfOk result (λ drawn. MatchOption drawn (IsTooLong lending verified.now.code steps (Some seed))
        (λ made. IsRecorded lending verified.now.code steps (Some seed) made.1.items (machine_view made.0))) }
    ensures machine { IfOk result (λ drawn. IfSome drawn (λ made. IsMachineBy lending verified.now made.0)) }
{
    let mut machine = Machine::new_by(alloc, verified, lending)?;
    let mut chooser = Chooser::new(alloc, seed);
    let mut picks = Vec::new(alloc);
    let mut left = steps;
    while left > 0 {
        if picks.len() > MAX_LINES {
            return Ok(None);
        }
        match chooser.step(&mut machine, verified)? {
            Next::Silent(pick, made) => {
                count_pick(&mut picks, pick, made)?;
                left -= made;
            }
            Next::Did(pick, _) => {
                count_pick(&mut picks, pick, 1)?;
                left -= 1;
            }
            Next::NotEnabled => return Ok(Some((machine, picks))),
        }
    }
    Ok(Some((machine, picks)))
}

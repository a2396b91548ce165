//! A run by workers, told event by event.
ghost use Rattle.std.specs.Prelude.{◌≢◌};
ghost use Rattle.pb_accept.specs.View.{said_view};
ghost use Rattle.pb_command_io.specs.declared.status.Status.TheVariants as status;
ghost use Rattle.pb_engines.specs.Outcomes.{SaysOfOutcome};
ghost use Rattle.pb_engines.specs.Runs.{SaysOfCodeRun};
ghost use Rattle.pb_history.specs.Entries.{events_of};
ghost use Rattle.pb_voice.specs.Held.{at};
ghost use Rattle.pb_voice.specs.Tellings.{Speaks};
ghost use Rattle.pb_workers.specs.Reports.{IsReport};

use crate::faults::shows_fault;
use pb_accept::{Ending, Said, Teller, tell_events, tell_last};
use pb_base::Output;
use pb_command_io::Status;
use pb_options::RunOptions;
use pb_record::Open;
use pb_shared::Outcome;
use pb_verifier::Verified;
use pb_workers::{Report, RunFault, run_workers};
use std::alloc::Global;
use std::sync::Wait;
use std::thread::Threads;

/// Runs the code by workers, and tells each event and how the run ended.
pub fn tell_run<O: Output, T: Teller, R: Threads + Wait + Sync>(
    rt: &R,
    alloc: Global,
    verified: &Verified,
    options: RunOptions,
    teller: &mut T,
    output: &mut O,
) -> Status
    ensures { Speaks T.tells T.breaks (SaysOfCodeRun verified.now.code options.steps) (at O.written O.failures teller.old output.old)
        (at O.written O.failures teller.new output.new) result }
{
    let run = run_workers(
        rt,
        alloc,
        verified,
        options.workers,
        options.quantum,
        options.steps,
        &Open,
    );
    match run {
        Ok(report) => tell_report(verified, options.steps, &report, teller, output),
        Err(RunFault::NoMemory) => tell_last(teller, output, Said::NoMemory, Status::Memory),
        Err(_) => tell_last(teller, output, Said::Threads, Status::Threads),
    }
}

/// Tells what workers report of the code.
fn tell_report<O: Output, T: Teller>(
    verified: &Verified,
    steps: u32,
    report: &Report,
    teller: &mut T,
    output: &mut O,
) -> Status
    requires { IsReport verified.now.code steps report.now }
    ensures { Speaks T.tells T.breaks (SaysOfCodeRun verified.now.code steps) (at O.written O.failures teller.old output.old)
        (at O.written O.failures teller.new output.new) result }
{
    let (last, status) = last_of(report, steps);
    match tell_events(&verified.code().names, &report.trace, teller, output) {
        Ok(()) => tell_last(teller, output, last, status),
        Err(_) => Status::Device,
    }
}

/// Returns what is said after the events of a report, and the status.
fn last_of(report: &Report, steps: u32) -> (Said<'static>, Status)
    ensures said { SaysOfOutcome (events_of report.now.trace.entries) steps report.now.outcome (said_view result.0) result.1 }
    ensures no_device { result.1 ≢ status.Device }
{
    match report.outcome {
        Outcome::Limit => (Said::Limit(steps), Status::Limit),
        Outcome::Done => {
            if shows_fault(&report.trace) {
                return (Said::Ended(Ending::Over), Status::Fault);
            }
            (Said::Ended(Ending::Over), Status::Done)
        }
    }
}

//! A batch runner: jobs run on several threads, and each has a result.
//!
//! The jobs are the processes of a text on standard input. The result of a job is what it prints last.
#![tactic(auto)]

ghost use Rattle.std.specs.Prelude.{◌≡◌, ◌≤◌, IfOk};
ghost use Rattle.pb_example_batch.specs.Results.{AreResults, last_print, last_prints, result_after};
ghost use Rattle.pb_history.specs.Entries.{events_of};

use anyhow::Result;
use pb_base::{Event, NoMemory, Output, StandardInput, StandardOutput, read_whole, write_all};
use pb_codegen::compile;
use pb_history::Trace;
use pb_shared::Outcome;
use pb_verifier::Verified;
use pb_workers::{Gate, RunFault, run_workers};
use std::alloc::Global;
use std::sync::Wait;
use std::sync::atomic::{AtomicU64, Ordering};
use std::thread::Threads;

/// The longest text of a batch, in bytes.
const MAX_TEXT: usize = 65_536;

/// The most picks that the jobs make in all.
const LIMIT: u32 = 1_000_000;

/// A gate that counts the turns of the workers. It might also wait, to slow a run down.
#[derive(Drop)]
struct Turns {
    made: AtomicU64,
}

impl Gate for Turns {
    fn between(&self, _worker: usize, _turn: u64) {
        self.made.fetch_add(1, Ordering::SeqCst);
    }
}

/// Why a batch has no results.
#[derive(Debug, Drop, thiserror::Error)]
enum BatchFault {
    #[error("{0}")]
    Run(RunFault),
    #[error("the picks were used up before all jobs were over")]
    Limit,
}

impl From<NoMemory> for BatchFault {
    fn from(_: NoMemory) -> BatchFault {
        BatchFault::Run(RunFault::NoMemory)
    }
}

/// Returns the result of a job after an event: what it printed, or else its result before.
fn result_after(job: u8, before: Option<i64>, event: Event) -> Option<i64>
    ensures { result ≡ result_after job before event }
{
    match event {
        Event::Printed { pick, value } if pick.process == job => Some(value),
        _ => before,
    }
}

/// Returns what a job printed last, if it printed anything.
fn last_print(job: u8, trace: &Trace) -> Option<i64>
    ensures { result ≡ last_print job (events_of trace.now.entries) }
{
    let mut last = None;
    for i in 0..trace.events_len() {
        last = result_after(job, last, trace.event(i));
    }
    last
}

/// Returns what each job printed last.
fn results(alloc: Global, jobs: usize, trace: &Trace) -> Result<Vec<Option<i64>>, NoMemory>
    requires { jobs ≤ 64 }
    ensures { IfOk result (λ r. r.items ≡ last_prints jobs (events_of trace.now.entries)) }
{
    let mut results = Vec::new(alloc);
    for job in 0..jobs {
        results.push(last_print(job as u8, trace))?;
    }
    Ok(results)
}

/// Runs all jobs to their ends, by `workers` threads, and returns the result of each.
fn run_batch<G: Gate, R: Threads + Wait + Sync>(
    rt: &R,
    alloc: Global,
    code: &Verified,
    workers: usize,
    gate: &G,
) -> Result<Vec<Option<i64>>, BatchFault>
    ensures { IfOk result (λ results. AreResults code.now.code results.items) }
{
    let report = match run_workers(rt, alloc, code, workers, 64, LIMIT, gate) {
        Ok(report) => report,
        Err(fault) => return Err(BatchFault::Run(fault)),
    };
    if report.outcome == Outcome::Limit {
        return Err(BatchFault::Limit);
    }
    let jobs = code.code().processes.len();
    Ok(results(alloc, jobs, &report.trace)?)
}

/// Prints the name of each job with its result.
fn tell<O: Output>(
    rt: &impl Print,
    output: &mut O,
    code: &Verified,
    results: &[Option<i64>],
) -> Result<()> {
    for (name, result) in code.names().processes.iter().zip(results.iter()) {
        write_all(output, name.as_slice())?;
        match result {
            Some(value) => println!(rt; " {value}")?,
            None => println!(rt; " printed nothing")?,
        }
    }
    Ok(())
}

/// Runs the jobs, prints what they came to, and whether the workers passed the gate.
fn run_jobs<O: Output>(
    rt: &(impl Print + Threads + Wait + Sync),
    output: &mut O,
    alloc: Global,
    code: &Verified,
) -> Result<()> {
    let gate = Turns {
        made: AtomicU64::new(0),
    };
    let results = run_batch(rt, alloc, code, 4, &gate)?;
    tell(rt, output, code, results.as_slice())?;
    let turned = gate.made.load(Ordering::SeqCst) > 0;
    println!(rt; "the gate was passed: {turned}")?;
    Ok(())
}

fn main(rt: HostRuntime) -> Result<()> {
    let alloc = rt.alloc();
    let text = read_whole(alloc, &mut StandardInput::new(rt.stdin()), MAX_TEXT)?;
    let compiled = compile(alloc, alloc, text.as_slice())?;
    let mut output = StandardOutput::new(rt.stdout());
    run_jobs(&rt, &mut output, alloc, compiled.verified())
}

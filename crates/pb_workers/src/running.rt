//! Worker threads over one book.

ghost use Rattle.std.specs.Prelude.{◌≡◌, ◌↔◌, ◌<◌, ◌≤◌, IfOk, IfErr, IsTrue, MatchResult};
ghost use Rattle.pb_workers.specs.declared.fault.RunFault.TheVariants.{Limits};
ghost use Rattle.pb_workers.specs.Causes.{IsCause};
ghost use Rattle.pb_workers.specs.Reports.{InRange, IsReport};

use crate::fault::RunFault;
use crate::gate::Gate;
use crate::met::{Met, NO_MEMORY, NOTHING};
use crate::report::Report;
use crate::work::work;
use pb_base::NoMemory;
use pb_base::limits::{MAX_PICKS, MAX_QUANTUM, MAX_WORKERS};
use pb_shared::{Book, CodeBrand, Shared};
use pb_verifier::Verified;
use std::alloc::Global;
use std::marker::Brand;
use std::sync::{Mutex, Wait};
use std::thread;
use std::thread::Threads;

/// Runs the code by `workers` threads, each of which takes stretches of at most `quantum` picks, until all is
/// over or `limit` picks were made. A worker that is out of memory gives its stretch back and ends, and the
/// others go on. One worker at an open gate makes the same picks in the thread that calls, and none is
/// started.
pub fn run_workers<G: Gate, R: Threads + Wait + Sync>(
    rt: &R,
    alloc: Global,
    code: &Verified,
    workers: usize,
    quantum: u32,
    limit: u32,
    gate: &G,
) -> Result<Report, RunFault>
    ensures report { IfOk result (λ report. IsReport code.now.code limit report) }
    ensures limits { MatchResult result (λ _. InRange workers quantum limit)
        (λ fault. (fault ≡ Limits) ↔ (InRange workers quantum limit → ⊥)) }
{
    if workers == 0
        || workers > MAX_WORKERS
        || quantum == 0
        || quantum > MAX_QUANTUM
        || limit > MAX_PICKS
    {
        return Err(RunFault::Limits);
    }
    run_branded::<Brand, G, R>(rt, alloc, code, workers, quantum, limit, gate)
}

/// Returns the same, of the code that a brand stands for.
fn run_branded<C: CodeBrand, G: Gate, R: Threads + Wait + Sync>(
    rt: &R,
    alloc: Global,
    code: &Verified,
    workers: usize,
    quantum: u32,
    limit: u32,
    gate: &G,
) -> Result<Report, RunFault>
    requires brand { code.now ≡ C.code }
    requires quantum { 0 < quantum }
    requires limit { limit ≤ MAX_PICKS }
    ensures report { IfOk result (λ report. IsReport code.now.code limit report) }
    ensures limits { IfErr result (λ fault. fault ≡ Limits → ⊥) }
{
    let book: Book<'_, C> = match Book::new(alloc, code, limit) {
        Ok(book) => book,
        Err(_) => return Err(RunFault::NoMemory),
    };
    if workers == 1 && gate.is_open() {
        return run_alone(rt, book, quantum, limit);
    }
    let shared = if gate.is_open() {
        Shared::open(book)
    } else {
        Shared::new(book)
    };
    let met = Mutex::new(NOTHING);
    let all_started = start_all(rt, alloc, &shared, &met, workers, quantum, gate);
    report(shared.into_book(), limit, met.into_inner(), all_started)
}

/// Makes turns of the book until there is none.
fn run_alone<'v, C: CodeBrand, R: Wait>(
    rt: &R,
    book: Book<'v, C>,
    quantum: u32,
    limit: u32,
) -> Result<Report, RunFault>
    requires { 0 < quantum }
    ensures report { IfOk result (λ report. IsReport C.code.code limit report) }
    ensures limits { IfErr result (λ fault. fault ≡ Limits → ⊥) }
{
    let mut book = book;
    for _ in rt.forever() {
        match book.turn(quantum) {
            Ok(Some(_)) => {}
            Ok(None) => return report(book, limit, NOTHING, true),
            Err(NoMemory) => return report(book, limit, NO_MEMORY, true),
        }
    }
    unreachable!()
}

/// Starts the threads and joins those that were started. Returns whether all were.
fn start_all<'v, C: CodeBrand, G: Gate, R: Threads + Wait + Sync>(
    rt: &R,
    alloc: Global,
    shared: &Shared<'v, C>,
    met: &Mutex<Met>,
    workers: usize,
    quantum: u32,
    gate: &G,
) -> bool
    requires { 0 < quantum }
{
    thread::scope(
        thread::scope_env(),
        rt,
        move |scope| -> bool
            requires { 0 < quantum }
        {
            for worker in 0..workers {
                let started = scope.spawn(
                    move ||
                        requires { 0 < quantum }
                    {
                        let ended = work(rt, alloc, shared, worker, quantum, gate);
                        let mut all = met.lock(rt);
                        all.no_memory |= ended.no_memory;
                        all.stranger |= ended.stranger;
                    },
                );
                if started.is_err() {
                    return false;
                }
            }
            true
        },
    )
}

/// Returns what the book says once all workers have ended. A lock does not tell which book of its brand it
/// holds, so the limit is compared. If the book has an outcome, all threads were started, no stretch was a
/// stranger and the limit is that of the book, this is the outcome.
fn report<'v, C: CodeBrand>(
    book: Book<'v, C>,
    limit: u32,
    met: Met,
    all_started: bool,
) -> Result<Report, RunFault>
    ensures report { IfOk result (λ report. IsReport C.code.code limit report) }
    ensures limits { IfErr result (λ fault. fault ≡ Limits → ⊥) }
    ensures fault { IfErr result (IsCause book.entry limit met.stranger all_started) }
    ensures threads { IfOk result (λ _. IsTrue all_started) }
{
    if !all_started {
        return Err(RunFault::NoThread);
    }
    let outcome = book.outcome();
    if outcome.is_none() && met.no_memory {
        return Err(RunFault::NoMemory);
    }
    if met.stranger || book.limit() != limit {
        return Err(RunFault::Foreign);
    }
    match outcome {
        Some(outcome) => Ok(Report {
            trace: book.into_trace(),
            outcome,
        }),
        None => Err(RunFault::Foreign),
    }
}

//! Workers, whatever their number and quantum.

use crate::codes::{DEVICES, DIVIDES, FORKS, INCREMENTS, PRINT, PRINTS, TURNS, verified};
use crate::examples::EXAMPLES;
use pb_base::{NoMemory, Pick};
use pb_codegen::compile;
use pb_history::Trace;
use pb_history::replay::replay;
use pb_shared::Outcome;
use pb_verifier::Verified;
use pb_workers::{Gate, Report, RunFault, run_workers};
use std::alloc::{AllocGlobal, Global};
use std::sync::Wait;
use std::thread::Threads;

/// A gate that is open.
pub struct Open;

impl Gate for Open {
    fn is_open(&self) -> bool {
        true
    }

    fn between(&self, _worker: usize, _turn: u64) {}
}

/// A gate that is called, and does nothing.
struct Idle;

impl Gate for Idle {
    fn between(&self, _worker: usize, _turn: u64) {}
}

/// A gate that has every second stretch put back.
struct EverySecond;

impl Gate for EverySecond {
    fn between(&self, _worker: usize, _turn: u64) {}

    fn give_back(&self, _worker: usize, turn: u64) -> bool {
        turn % 2 == 0
    }
}

/// Returns whether both traces have the same events in the same order.
fn same_events(one: &Trace, other: &Trace) -> bool {
    if one.events_len() != other.events_len() {
        return false;
    }
    for i in 0..one.events_len() {
        if i < other.events_len() && one.event(i) != other.event(i) {
            return false;
        }
    }
    true
}

/// Returns whether the picks of a trace, made once more from the start, make its events.
fn replays(alloc: Global, code: &Verified, trace: &Trace) -> Result<bool, NoMemory> {
    let mut picks: Vec<Pick> = Vec::new(alloc);
    for i in 0..trace.len() {
        picks.push(trace.pick(i))?;
    }
    if picks.len() > 10_000_000 {
        return Ok(false);
    }
    match replay(alloc, code, &picks) {
        Ok((_, again)) => Ok(same_events(trace, &again)),
        Err(_) => Ok(false),
    }
}

/// Returns whether a run was reported with this outcome, `events` events, and picks that make them.
fn is_right(
    alloc: Global,
    code: &Verified,
    report: Result<Report, RunFault>,
    outcome: Outcome,
    events: usize,
) -> bool {
    let Ok(report) = report else {
        return false;
    };
    report.outcome == outcome
        && report.trace.events_len() == events
        && matches!(replays(alloc, code, &report.trace), Ok(true))
}

/// Numbers of workers, each with a quantum.
const NUMBERS: [(usize, u32); 9] = [
    (1, 1),
    (1, 64),
    (1, 4096),
    (4, 1),
    (4, 64),
    (4, 4096),
    (16, 1),
    (16, 64),
    (16, 4096),
];

/// Returns whether a run to its end is right, whatever the number of workers and the quantum.
fn are_right<G: Gate, R: AllocGlobal + Threads + Wait + Sync>(
    rt: &R,
    code: &Verified,
    gate: &G,
    events: usize,
) -> bool {
    for (workers, quantum) in NUMBERS {
        let report = run_workers(rt, rt.alloc(), code, workers, quantum, 1000, gate);
        if !is_right(rt.alloc(), code, report, Outcome::Done, events) {
            return false;
        }
    }
    true
}

/// Returns the same of a text.
fn text_is_right<R: AllocGlobal + Threads + Wait + Sync>(
    rt: &R,
    text: &[u8],
    events: usize,
) -> bool {
    match compile(rt.alloc(), rt.alloc(), text) {
        Ok(compiled) => are_right(rt, compiled.verified(), &Open, events),
        Err(_) => false,
    }
}

#[test]
fn each_example(rt: HostRuntime) {
    for (text, events) in EXAMPLES {
        let right = text_is_right(&rt, text, events);
        assert!(rt; right);
    }
}

#[test]
fn each_number_of_workers_and_quantum(rt: HostRuntime) {
    let texts = [
        (PRINT, 2),
        (DEVICES, 10),
        (FORKS, 7),
        (PRINTS, 6),
        (DIVIDES, 1),
    ];
    for (text, events) in texts {
        let Some(code) = verified(rt.alloc(), text) else {
            panic!(rt; "no code")
        };
        let open = are_right(&rt, &code, &Open, events);
        assert!(rt; open);
        let idle = are_right(&rt, &code, &Idle, events);
        assert!(rt; idle);
        let second = are_right(&rt, &code, &EverySecond, events);
        assert!(rt; second);
    }
}

/// Returns whether two runs made the same picks in the same order.
fn same_picks(one: &Result<Report, RunFault>, other: &Result<Report, RunFault>) -> bool {
    let (Ok(one), Ok(other)) = (one, other) else {
        return false;
    };
    if one.outcome != other.outcome || one.trace.len() != other.trace.len() {
        return false;
    }
    for i in 0..one.trace.len() {
        if i < other.trace.len() && one.trace.pick(i) != other.trace.pick(i) {
            return false;
        }
    }
    true
}

#[test]
fn one_worker_makes_the_same_picks_at_any_gate(rt: HostRuntime) {
    for text in [PRINT, DEVICES, FORKS, PRINTS, DIVIDES, INCREMENTS] {
        let Some(code) = verified(rt.alloc(), text) else {
            panic!(rt; "no code")
        };
        for (quantum, limit) in [(1u32, 1000u32), (2, 1000), (3, 7), (64, 1000)] {
            let open = run_workers(&rt, rt.alloc(), &code, 1, quantum, limit, &Open);
            let idle = run_workers(&rt, rt.alloc(), &code, 1, quantum, limit, &Idle);
            assert!(rt; same_picks(&open, &idle));
        }
    }
}

#[test]
fn a_run_keeps_to_its_limit(rt: HostRuntime) {
    let Some(code) = verified(rt.alloc(), TURNS) else {
        panic!(rt; "no code")
    };
    for (workers, quantum) in NUMBERS {
        let report = run_workers(&rt, rt.alloc(), &code, workers, quantum, 5000, &Open);
        let Ok(report) = report else {
            panic!(rt; "no report")
        };
        assert!(rt; report.outcome == Outcome::Limit);
        assert!(rt; report.trace.len() == 5000);
    }
}

#[test]
fn numbers_out_of_range(rt: HostRuntime) {
    let Some(code) = verified(rt.alloc(), PRINT) else {
        panic!(rt; "no code")
    };
    let numbers = [
        (0usize, 1u32, 10u32),
        (17, 1, 10),
        (1, 0, 10),
        (1, 4097, 10),
        (1, 1, 10_000_001),
    ];
    for (workers, quantum, limit) in numbers {
        let report = run_workers(&rt, rt.alloc(), &code, workers, quantum, limit, &Open);
        let Err(fault) = report else {
            panic!(rt; "a report")
        };
        assert!(rt; fault == RunFault::Limits);
    }
}

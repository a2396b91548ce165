//! What workers do at a gate: two are at work at once, no lock is kept while one of them is there, and the
//! gate decides what is given back.

use crate::codes::{PRINT, PRINTS, verified};
use pb_shared::Outcome;
use pb_workers::{Gate, run_workers};
use std::sync::atomic::{AtomicBool, AtomicU64, Ordering};

/// A gate that holds the first call, whichever worker makes it, until the other worker has made its call for
/// turn 1.
#[derive(Drop)]
struct Meeting {
    taken: AtomicBool,
    other_has_come: AtomicBool,
    has_held: AtomicBool,
}

impl Gate for Meeting {
    fn between(&self, _worker: usize, turn: u64) {
        if turn == 0 && !self.taken.swap(true, Ordering::SeqCst) {
            for _ in 0..50_000_000u32 {
                if self.other_has_come.load(Ordering::SeqCst) {
                    self.has_held.store(true, Ordering::SeqCst);
                    return;
                }
            }
        } else if turn == 1 {
            self.other_has_come.store(true, Ordering::SeqCst);
        }
    }
}

#[test]
fn two_workers_run_at_once(rt: HostRuntime) {
    let Some(code) = verified(rt.alloc(), PRINTS) else {
        panic!(rt; "no code")
    };
    let mut have_met = false;
    for _ in 0..20 {
        let gate = Meeting {
            taken: AtomicBool::new(false),
            other_has_come: AtomicBool::new(false),
            has_held: AtomicBool::new(false),
        };
        let report = run_workers(&rt, rt.alloc(), &code, 2, 64, 1000, &gate);
        let Ok(report) = report else {
            panic!(rt; "no report")
        };
        assert!(rt; report.outcome == Outcome::Done);
        if gate.has_held.load(Ordering::SeqCst) {
            have_met = true;
            break;
        }
    }
    assert!(rt; have_met);
}

/// A gate that counts its calls, and has the stretches of the first turns given back.
#[derive(Drop)]
struct Counting {
    given_back: u64,
    runs: AtomicU64,
    questions: AtomicU64,
    is_wrong: AtomicBool,
}

impl Gate for Counting {
    fn between(&self, worker: usize, turn: u64) {
        let before = self.runs.fetch_add(1, Ordering::SeqCst);
        if worker != 0 || before != turn {
            self.is_wrong.store(true, Ordering::SeqCst);
        }
    }

    fn give_back(&self, worker: usize, turn: u64) -> bool {
        let before = self.questions.fetch_add(1, Ordering::SeqCst);
        if worker != 0
            || before != turn
            || self.runs.load(Ordering::SeqCst) != turn.wrapping_add(1)
        {
            self.is_wrong.store(true, Ordering::SeqCst);
        }
        turn < self.given_back
    }
}

/// The process prints and ends, in two turns; each stretch that is given back is one turn more.
#[test]
fn what_is_given_back_is_taken_again(rt: HostRuntime) {
    let Some(code) = verified(rt.alloc(), PRINT) else {
        panic!(rt; "no code")
    };
    for given_back in [0u64, 1, 5] {
        let gate = Counting {
            given_back,
            runs: AtomicU64::new(0),
            questions: AtomicU64::new(0),
            is_wrong: AtomicBool::new(false),
        };
        let report = run_workers(&rt, rt.alloc(), &code, 1, 64, 1000, &gate);
        let Ok(report) = report else {
            panic!(rt; "no report")
        };
        assert!(rt; report.outcome == Outcome::Done);
        assert!(rt; report.trace.len() == 3);
        assert!(rt; !gate.is_wrong.load(Ordering::SeqCst));
        assert!(rt; gate.runs.load(Ordering::SeqCst) == given_back.wrapping_add(2));
        assert!(rt; gate.questions.load(Ordering::SeqCst) == given_back.wrapping_add(2));
    }
}

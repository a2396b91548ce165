//! The parts of outcomes and deadlocks, collected.

ghost use Rattle.std.specs.Prelude.{◌≡◌, ◌++◌, OnOk, map};
ghost use Rattle.pb_search.specs.Deadlocks.{stuck_view};
ghost use Rattle.pb_search.specs.Outcomes.{process_outcome_view};
ghost use Rattle.pb_search_engine.specs.Parts.{ask_parts, deadlock_parts, end_parts, holds_part, hold_parts, integer_parts};
ghost use Rattle.pb_search_engine.specs.Parts.{outcome_parts, stuck_parts};
ghost use Rattle.pb_search_engine.specs.Parts as spec;

use crate::part::Part;
use pb_base::NoMemory;
use pb_search::{Ask, ProcessOutcome, StuckProcess, StuckState};

/// Returns where a process is that has ended, by whether it has faulted.
fn end_state(faulted: bool) -> StuckState
    ensures { result ≡ spec.end_state faulted }
{
    if faulted {
        StuckState::Faulted
    } else {
        StuckState::Ended
    }
}

/// Appends the integers of a process.
fn put_integers(parts: &mut Vec<Part>, process: usize, values: &[i64]) -> Result<(), NoMemory>
    ensures { OnOk result (parts.new.items ≡ parts.old.items ++ integer_parts process values.now) }
{
    for x in 0..values.len() {
        parts.push(Part::Integer {
            process,
            integer: x,
            value: values[x],
        })?;
    }
    Ok(())
}

/// Appends how much a process holds of a resource, if it holds some.
fn put_hold(
    parts: &mut Vec<Part>,
    process: usize,
    resource: usize,
    amount: u32,
) -> Result<(), NoMemory>
    ensures { OnOk result (parts.new.items ≡ parts.old.items ++ holds_part process resource amount) }
{
    if amount > 0 {
        parts.push(Part::Holds {
            process,
            resource,
            amount,
        })?;
    }
    Ok(())
}

/// Appends what a process holds.
fn put_holds(parts: &mut Vec<Part>, process: usize, holds: &[u32]) -> Result<(), NoMemory>
    ensures { OnOk result (parts.new.items ≡ parts.old.items ++ hold_parts process holds.now) }
{
    for r in 0..holds.len() {
        put_hold(parts, process, r, holds[r])?;
    }
    Ok(())
}

/// Appends what the arms of a process ask for.
fn put_asks(parts: &mut Vec<Part>, process: usize, asks: &[Ask]) -> Result<(), NoMemory>
    ensures { OnOk result (parts.new.items ≡ parts.old.items ++ ask_parts process asks.now) }
{
    for i in 0..asks.len() {
        parts.push(Part::Asks {
            process,
            ask: asks[i],
        })?;
    }
    Ok(())
}

/// Appends how a process ended, and its integers.
fn put_end(parts: &mut Vec<Part>, process: usize, outcome: &ProcessOutcome) -> Result<(), NoMemory>
    ensures { OnOk result (parts.new.items ≡ parts.old.items ++ end_parts process (process_outcome_view outcome.now)) }
{
    parts.push(Part::Stands {
        process,
        state: end_state(outcome.faulted),
    })?;
    put_integers(parts, process, &outcome.integers)
}

/// Appends where a process is in a deadlock, its integers, what it holds and what its arms ask for.
fn put_stuck(parts: &mut Vec<Part>, process: usize, stuck: &StuckProcess) -> Result<(), NoMemory>
    ensures { OnOk result (parts.new.items ≡ parts.old.items ++ stuck_parts process (stuck_view stuck.now)) }
{
    parts.push(Part::Stands {
        process,
        state: stuck.state,
    })?;
    put_integers(parts, process, &stuck.integers)?;
    put_holds(parts, process, &stuck.holds)?;
    put_asks(parts, process, &stuck.asks)
}

/// Appends the parts of an outcome.
pub fn put_outcome_parts(parts: &mut Vec<Part>, outcome: &[ProcessOutcome]) -> Result<(), NoMemory>
    ensures { OnOk result (parts.new.items ≡ parts.old.items ++ outcome_parts (map process_outcome_view outcome.now)) }
{
    for p in 0..outcome.len() {
        put_end(parts, p, &outcome[p])?;
    }
    Ok(())
}

/// Appends the parts of a deadlock.
pub fn put_deadlock_parts(parts: &mut Vec<Part>, processes: &[StuckProcess]) -> Result<(), NoMemory>
    ensures { OnOk result (parts.new.items ≡ parts.old.items ++ deadlock_parts (map stuck_view processes.now)) }
{
    for p in 0..processes.len() {
        put_stuck(parts, p, &processes[p])?;
    }
    Ok(())
}

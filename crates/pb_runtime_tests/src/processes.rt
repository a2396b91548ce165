//! Processes of one code: copied, set to one another, and exchanged in a machine.

use crate::codes::{DIVIDES, verified};
use pb_base::{NoMemory, Pick};
use pb_machine::{Machine, Proc};
use pb_verifier::Verified;
use std::alloc::Global;

/// The arm that pushes 1 and 0.
const PUSHES: Pick = Pick { process: 0, arm: 0 };

/// Returns whether the first arm of a process has these operands, the lowest first.
fn has_operands(process: &Proc, operands: &[i64]) -> bool {
    process.arms() > 0 && process.thread(0).operands() == operands
}

/// Returns whether a copy of a process that has no operands yet takes over the two that the process has then.
fn takes_over(alloc: Global, code: &Verified) -> Result<bool, NoMemory> {
    let mut machine = Machine::new(alloc, code)?;
    if machine.processes() == 0 {
        return Ok(false);
    }
    let mut copy = machine.proc(0).copy(alloc)?;
    let had_none = has_operands(&copy, &[]);
    let made = machine.run_silent(code, PUSHES, 9);
    if machine.processes() == 0 {
        return Ok(false);
    }
    // Called for its contract alone, which the proof needs.
    let _ = code.code();
    copy.set_to(machine.proc(0));
    Ok(had_none && made == 2 && has_operands(&copy, &[1, 0]))
}

/// Returns whether a machine whose process has two operands gets one with none, and returns its own.
fn exchanges(alloc: Global, code: &Verified) -> Result<bool, NoMemory> {
    let mut machine = Machine::new(alloc, code)?;
    if machine.processes() == 0 {
        return Ok(false);
    }
    let mut copy = machine.proc(0).copy(alloc)?;
    let made = machine.run_silent(code, PUSHES, 9);
    if machine.processes() == 0 {
        return Ok(false);
    }
    machine.exchange(0, &mut copy);
    if machine.processes() == 0 {
        return Ok(false);
    }
    Ok(made == 2 && has_operands(&copy, &[1, 0]) && has_operands(machine.proc(0), &[]))
}

#[test]
fn a_copy_takes_over_a_process(rt: HostRuntime) {
    let Some(code) = verified(rt.alloc(), DIVIDES) else {
        panic!(rt; "no code")
    };
    assert!(rt; matches!(takes_over(rt.alloc(), &code), Ok(true)));
}

#[test]
fn a_machine_exchanges_a_process(rt: HostRuntime) {
    let Some(code) = verified(rt.alloc(), DIVIDES) else {
        panic!(rt; "no code")
    };
    assert!(rt; matches!(exchanges(rt.alloc(), &code), Ok(true)));
}

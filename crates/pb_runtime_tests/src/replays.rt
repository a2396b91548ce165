//! Examples under a recorded schedule, forward to the end and back to the start.

ghost use Rattle.std.specs.Prelude.{◌≤◌, length};

use crate::recorded::{
    EXAMPLES_1, EXAMPLES_2, EXAMPLES_3, EXAMPLES_4, EXAMPLES_5, EXAMPLES_6, Example,
};
use pb_banker::Lender;
use pb_base::Pick;
use pb_codegen::{Compiled, compile};
use pb_debug::Debugger;
use pb_history::replay::replay;
use pb_machine::Machine;
use std::alloc::Global;

/// Returns the picks of an example, one by one.
fn picks_of(alloc: Global, example: &Example) -> Option<Vec<Pick>> {
    let mut picks = Vec::new(alloc);
    for span in example.picks.chunks_exact(3) {
        let pick = Pick {
            process: span[0],
            arm: span[1],
        };
        for _ in 0..span[2] {
            picks.push(pick).ok()?;
        }
    }
    Some(picks)
}

/// Returns whether two lenders have lent the same.
fn have_lent_alike(a: &Lender, b: &Lender) -> bool {
    if a.processes() != b.processes() || a.resources() != b.resources() {
        return false;
    }
    for p in 0..a.processes() {
        for r in 0..a.resources() {
            if a.loan(p, r) != b.loan(p, r) {
                return false;
            }
        }
    }
    true
}

/// Returns whether the debugger shows the processes and the loans of a machine.
fn shows(debugger: &Debugger, machine: &Machine) -> bool {
    for p in 0..machine.processes() {
        match debugger.threads(p) {
            Ok(process) if process.same(machine.proc(p)) => {}
            _ => return false,
        }
    }
    have_lent_alike(debugger.loans(), machine.lender())
}

/// Returns whether the debugger shows what a replay of these picks ends in.
fn shows_replay(alloc: Global, compiled: &Compiled, debugger: &Debugger, picks: &[Pick]) -> bool
    requires { length picks.now ≤ 10000000 }
{
    match replay(alloc, compiled.verified(), picks) {
        Ok((machine, _)) => shows(debugger, &machine),
        Err(_) => false,
    }
}

/// Returns whether each position shows what a replay of the picks before it ends in, on the way to the end.
fn goes_there(
    alloc: Global,
    compiled: &Compiled,
    debugger: &mut Debugger<'_>,
    picks: &[Pick],
) -> bool
    requires { length picks.now ≤ 10000000 }
{
    for i in 0..picks.len() {
        if !shows_replay(alloc, compiled, debugger, &picks[..i]) || debugger.step(1).is_err() {
            return false;
        }
    }
    true
}

/// Returns whether each position shows what a replay of the picks before it ends in, on the way back from the
/// end.
fn goes_back(
    alloc: Global,
    compiled: &Compiled,
    debugger: &mut Debugger<'_>,
    picks: &[Pick],
) -> bool
    requires { length picks.now ≤ 10000000 }
{
    for i in 0..picks.len() {
        let before = &picks[..picks.len() - i];
        if !shows_replay(alloc, compiled, debugger, before) || debugger.back(1).is_err() {
            return false;
        }
    }
    true
}

/// Returns whether each position shows what a replay of the picks before it ends in, on the way to the end
/// and back to the start.
fn goes_there_and_back(alloc: Global, compiled: &Compiled, picks: &[Pick]) -> bool
    requires { length picks.now ≤ 10000000 }
{
    match Debugger::new(alloc, compiled, picks) {
        Ok(mut debugger) => {
            goes_there(alloc, compiled, &mut debugger, picks)
                && goes_back(alloc, compiled, &mut debugger, picks)
                && debugger.position() == 0
                && shows_replay(alloc, compiled, &debugger, &[])
        }
        Err(_) => false,
    }
}

/// Returns whether an example is replayed there and back by its picks, of which there are at most 400.
fn is_replayed(alloc: Global, example: &Example) -> bool {
    let Some(picks) = picks_of(alloc, example) else {
        return false;
    };
    if 400 < picks.len() {
        return false;
    }
    match compile(alloc, alloc, example.text) {
        Ok(compiled) => goes_there_and_back(alloc, &compiled, &picks),
        Err(_) => false,
    }
}

#[test]
fn examples_forward_and_back_1(rt: HostRuntime) {
    for example in &EXAMPLES_1 {
        assert!(rt; is_replayed(rt.alloc(), example));
    }
}

#[test]
fn examples_forward_and_back_2(rt: HostRuntime) {
    for example in &EXAMPLES_2 {
        assert!(rt; is_replayed(rt.alloc(), example));
    }
}

#[test]
fn examples_forward_and_back_3(rt: HostRuntime) {
    for example in &EXAMPLES_3 {
        assert!(rt; is_replayed(rt.alloc(), example));
    }
}

#[test]
fn examples_forward_and_back_4(rt: HostRuntime) {
    for example in &EXAMPLES_4 {
        assert!(rt; is_replayed(rt.alloc(), example));
    }
}

#[test]
fn examples_forward_and_back_5(rt: HostRuntime) {
    for example in &EXAMPLES_5 {
        assert!(rt; is_replayed(rt.alloc(), example));
    }
}

#[test]
fn examples_forward_and_back_6(rt: HostRuntime) {
    for example in &EXAMPLES_6 {
        assert!(rt; is_replayed(rt.alloc(), example));
    }
}

//! Picks that are chosen one by one, and what they are to show.

ghost use Rattle.pb_machine.specs.Views.{IsMachineOf};
ghost use Rattle.pb_names.specs.View.{resolved_view};
ghost use Rattle.pb_rewrite.specs.Sources.{FitsClaims, IsSource};

use crate::agreement::runs::is_silent;
use crate::agreement::sides::{Program, Seen, program_of, step_both};
use crate::agreement::states::{first_difference, same_loans};
use crate::texts::{FAULT, INCREMENTS, NESTED};
use pb_base::{FaultKind, NoMemory, Pick};
use pb_codegen::Compiled;
use pb_example_texts::first::DEVICES;
use pb_machine::Machine;
use pb_rewrite::Source;
use std::alloc::Global;

/// Picks of one arm of a process: the process, the arm, and their number.
type Turn = (u8, u8, usize);

/// Makes the picks of a turn on both sides, and adds what they show, if it is more than a silent step.
fn take_turn(
    alloc: Global,
    compiled: &Compiled,
    machine: &mut Machine,
    source: &mut Source<Global>,
    turn: Turn,
    all: &mut Vec<Seen>,
) -> Result<(), NoMemory>
    requires machine { IsMachineOf compiled.now.verified machine.old }
    requires source { IsSource source.old }
    ensures machine { IsMachineOf compiled.now.verified machine.new }
    ensures source { IsSource source.new }
{
    let (process, arm, picks) = turn;
    let pick = Pick { process, arm };
    for _made in 0..picks {
        let seen = step_both(alloc, compiled.verified(), machine, source, pick)?;
        if !is_silent(seen) {
            all.push(seen)?;
        }
        if first_difference(compiled.labels(), machine, source).is_some() {
            all.push(Seen::Differ(process, arm))?;
        }
    }
    Ok(())
}

/// Returns whether these turns show what is wanted.
fn takes_turns(
    alloc: Global,
    compiled: &Compiled,
    machine: &mut Machine,
    source: &mut Source<Global>,
    turns: &[Turn],
    wanted: &[Seen],
) -> bool
    requires machine { IsMachineOf compiled.now.verified machine.old }
    requires source { IsSource source.old }
{
    let mut all = Vec::new(alloc);
    for turn in turns {
        if take_turn(alloc, compiled, machine, source, *turn, &mut all).is_err() {
            return false;
        }
    }
    all.as_slice() == wanted
}

/// Returns whether these turns show what is wanted, and at their end all processes are over and nothing is
/// lent.
fn replays_in(alloc: Global, program: &Program, turns: &[Turn], wanted: &[Seen]) -> Option<bool>
    requires { FitsClaims (resolved_view program.now.analysis.program) program.now.analysis.claims }
{
    let compiled = &program.compiled;
    let analysis = &program.analysis;
    let opening = Machine::new(alloc, compiled.verified()).ok()?;
    let mut machine = Machine::new(alloc, compiled.verified()).ok()?;
    let mut source = Source::new(alloc, alloc, &analysis.program, &analysis.claims).ok()?;
    if !takes_turns(alloc, compiled, &mut machine, &mut source, turns, wanted) {
        return Some(false);
    }
    Some(source.finished() && same_loans(opening.lender(), source.banker()))
}

/// Returns the same of the program of a text.
fn replays(alloc: Global, text: &[u8], turns: &[Turn], wanted: &[Seen]) -> Option<bool> {
    let program = program_of(alloc, text).ok()?;
    replays_in(alloc, &program, turns, wanted)
}

const AN_UPDATE_IS_LOST: [Turn; 5] = [(0, 0, 1), (0, 1, 1), (0, 2, 5), (0, 1, 4), (0, 0, 4)];

const AN_UPDATE_IS_LOST_SEEN: [Seen; 2] = [Seen::Printed(0, 0, 1), Seen::Finished(0)];

/// Both arms read the 0 before one of them writes its 1.
#[test]
fn an_update_is_lost(rt: HostRuntime) {
    assert!(rt;
        replays(
            rt.alloc(),
            INCREMENTS,
            &AN_UPDATE_IS_LOST,
            &AN_UPDATE_IS_LOST_SEEN
        ) == Some(true)
    );
}

const NO_UPDATE_IS_LOST: [Turn; 4] = [(0, 0, 1), (0, 1, 5), (0, 2, 5), (0, 0, 4)];

const NO_UPDATE_IS_LOST_SEEN: [Seen; 2] = [Seen::Printed(0, 0, 2), Seen::Finished(0)];

/// One arm after the other.
#[test]
fn no_update_is_lost(rt: HostRuntime) {
    assert!(rt;
        replays(
            rt.alloc(),
            INCREMENTS,
            &NO_UPDATE_IS_LOST,
            &NO_UPDATE_IS_LOST_SEEN
        ) == Some(true)
    );
}

const TWO_JOBS_DO_NOT_DEADLOCK: [Turn; 10] = [
    (0, 0, 1),
    (1, 0, 1),
    (0, 0, 3),
    (1, 0, 1),
    (0, 0, 1),
    (1, 0, 1),
    (0, 0, 1),
    (1, 0, 4),
    (0, 0, 1),
    (1, 0, 3),
];

const TWO_JOBS_DO_NOT_DEADLOCK_SEEN: [Seen; 15] = [
    Seen::Granted(0, 0),
    Seen::Waits(1, 0),
    Seen::Granted(0, 0),
    Seen::Printed(0, 0, 1),
    Seen::Waits(1, 0),
    Seen::Returned(0, 0),
    Seen::Waits(1, 0),
    Seen::Returned(0, 0),
    Seen::Granted(1, 0),
    Seen::Granted(1, 0),
    Seen::Printed(1, 0, 2),
    Seen::Finished(0),
    Seen::Returned(1, 0),
    Seen::Returned(1, 0),
    Seen::Finished(1),
];

/// Once the first job has its tape, the second waits for its disk until the first has given both back.
#[test]
fn two_jobs_do_not_deadlock(rt: HostRuntime) {
    assert!(rt;
        replays(
            rt.alloc(),
            DEVICES,
            &TWO_JOBS_DO_NOT_DEADLOCK,
            &TWO_JOBS_DO_NOT_DEADLOCK_SEEN
        ) == Some(true)
    );
}

const A_FAULT_BESIDE_A_HOLD: [Turn; 5] = [(0, 0, 1), (0, 1, 1), (0, 2, 3), (0, 1, 1), (0, 0, 1)];

const A_FAULT_BESIDE_A_HOLD_SEEN: [Seen; 4] = [
    Seen::Granted(0, 1),
    Seen::Faulted(0, 2, FaultKind::Divide),
    Seen::Waits(0, 1),
    Seen::Waits(0, 0),
];

/// What an arm holds comes back without a word when the other arm ends their process by a fault.
#[test]
fn a_fault_beside_a_hold(rt: HostRuntime) {
    assert!(rt;
        replays(
            rt.alloc(),
            FAULT,
            &A_FAULT_BESIDE_A_HOLD,
            &A_FAULT_BESIDE_A_HOLD_SEEN
        ) == Some(true)
    );
}

const A_PARBEGIN_IN_AN_ARM: [Turn; 10] = [
    (0, 0, 1),
    (0, 3, 1),
    (0, 1, 1),
    (0, 4, 3),
    (0, 1, 1),
    (0, 3, 3),
    (0, 1, 2),
    (0, 0, 1),
    (0, 2, 3),
    (0, 0, 4),
];

const A_PARBEGIN_IN_AN_ARM_SEEN: [Seen; 8] = [
    Seen::Waits(0, 3),
    Seen::Printed(0, 4, 2),
    Seen::Waits(0, 1),
    Seen::Printed(0, 3, 1),
    Seen::Waits(0, 0),
    Seen::Printed(0, 2, 3),
    Seen::Printed(0, 0, 4),
    Seen::Finished(0),
];

/// The arms of the inner parbegin have the numbers 3 and 4: those of the outer one are numbered first.
#[test]
fn a_parbegin_in_an_arm(rt: HostRuntime) {
    assert!(rt;
        replays(
            rt.alloc(),
            NESTED,
            &A_PARBEGIN_IN_AN_ARM,
            &A_PARBEGIN_IN_AN_ARM_SEEN
        ) == Some(true)
    );
}

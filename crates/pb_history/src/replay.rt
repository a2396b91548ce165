//! Picks made once more, from the start.

ghost use Rattle.std.specs.Prelude.{◌≡◌, ◌+◌, ◌≤◌, ◌++◌, length, replicate, IfOk, IfErr, OnErr, OnOk};
ghost use Rattle.pb_base.specs.declared.lending.Lending.{Lending as LendingValue};
ghost use Rattle.pb_history.specs.Entries.{picks_of};
ghost use Rattle.pb_history.specs.Replays.{HaveLed, IsReplay, IsReplayBy, IsRun, IsStopped, IsStoppedBy, MakesSome, spread};
ghost use Rattle.pb_machine.specs.Views.{machine_view, IsMachine, IsMachineBy, IsMachineOf};

use crate::counted::CountedPick;
use crate::fault::ReplayFault;
use crate::trace::Trace;
use pb_base::limits::MAX_PICKS;
use pb_base::{Lending, Pick, Step};
use pb_machine::Machine;
use pb_verifier::Verified;
use std::alloc::Global;

/// Makes these picks in turn under the banker, from the start of the code: returns the machine after the last,
/// and the trace of all. The fault is the first pick that is not enabled, or out of memory.
pub fn replay(
    alloc: Global,
    verified: &Verified,
    picks: &[Pick],
) -> Result<(Machine, Trace), ReplayFault>
    requires { length picks.now ≤ MAX_PICKS }
    ensures replay { IfOk result (λ made.
        IsReplay verified.now.code picks.now made.1.entries (machine_view made.0)) }
    ensures machine { IfOk result (λ made. IsMachineOf verified.now made.0) }
    ensures stopped { IfErr result (λ fault. IsStopped verified.now.code picks.now fault) }
{
    replay_by(alloc, verified, Lending::ByBanker, picks)
}

/// Makes these picks in turn under a lending, from the start of the code: returns the machine after the last,
/// and the trace of all. The fault is the first pick that is not enabled, or out of memory.
pub fn replay_by(
    alloc: Global,
    verified: &Verified,
    lending: Lending,
    picks: &[Pick],
) -> Result<(Machine, Trace), ReplayFault>
    requires { length picks.now ≤ MAX_PICKS }
    ensures replay { IfOk result (λ made.
        IsReplayBy lending verified.now.code picks.now made.1.entries (machine_view made.0)) }
    ensures machine { IfOk result (λ made. IsMachineBy lending verified.now made.0) }
    ensures stopped { IfErr result (λ fault. IsStoppedBy lending verified.now.code picks.now fault) }
{
    let mut machine = Machine::new_by(alloc, verified, lending)?;
    let mut trace = Trace::new(alloc);
    for i in 0..picks.len() {
        let event = match machine.step(verified, picks[i]) {
            Step::Silent => None,
            Step::Did(event) => Some(event),
            Step::NotEnabled => return Err(ReplayFault::NotEnabled(i as u32)),
        };
        trace.push(picks[i], event)?;
    }
    Ok((machine, trace))
}

/// Makes each of these picks as often as its count says, under the banker: the same as `replay` of all the
/// picks one by one, which are never spread out in memory.
pub fn replay_counted(
    alloc: Global,
    verified: &Verified,
    picks: &[CountedPick],
) -> Result<(Machine, Trace), ReplayFault>
    requires { length (spread picks.now) ≤ MAX_PICKS }
    ensures replay { IfOk result (λ made.
        IsReplay verified.now.code (spread picks.now) made.1.entries (machine_view made.0)) }
    ensures machine { IfOk result (λ made. IsMachineOf verified.now made.0) }
    ensures stopped { IfErr result (λ fault. IsStopped verified.now.code (spread picks.now) fault) }
{
    replay_counted_by(alloc, verified, Lending::ByBanker, picks)
}

/// Makes each of these picks as often as its count says, under a lending: the same as `replay_by` of all the
/// picks one by one, which are never spread out in memory.
pub fn replay_counted_by(
    alloc: Global,
    verified: &Verified,
    lending: Lending,
    picks: &[CountedPick],
) -> Result<(Machine, Trace), ReplayFault>
    requires { length (spread picks.now) ≤ MAX_PICKS }
    ensures replay { IfOk result (λ made.
        IsReplayBy lending verified.now.code (spread picks.now) made.1.entries (machine_view made.0)) }
    ensures machine { IfOk result (λ made. IsMachineBy lending verified.now made.0) }
    ensures stopped { IfErr result (λ fault. IsStoppedBy lending verified.now.code (spread picks.now) fault) }
{
    let mut machine = Machine::new_by(alloc, verified, lending)?;
    let mut trace = Trace::new(alloc);
    for i in 0..picks.len() {
        repeat(verified, &mut machine, &mut trace, picks[i])?;
    }
    Ok((machine, trace))
}

/// Makes a pick as often as its count says, after those of the trace, which have led the machine to its
/// state. The fault is the first pick that is not enabled, counted with those of the trace, or out of memory:
/// then the picks before it, or some of them, have been made, and the trace has just those that were.
pub fn repeat(
    verified: &Verified,
    machine: &mut Machine,
    trace: &mut Trace,
    counted: CountedPick,
) -> Result<(), ReplayFault>
    requires led { (lending : LendingValue) × HaveLed lending verified.now trace.old.entries machine.old }
    requires fits { length trace.old.entries + counted.count ≤ MAX_PICKS }
    ensures picks { OnOk result (picks_of trace.new.entries
        ≡ picks_of trace.old.entries ++ replicate counted.count counted.pick) }
    ensures led { OnOk result ((lending : LendingValue) → HaveLed lending verified.now trace.old.entries machine.old
        → HaveLed lending verified.now trace.new.entries machine.new) }
    ensures stopped { IfErr result (λ fault. (lending : LendingValue)
        → HaveLed lending verified.now trace.old.entries machine.old
        → IsStoppedBy lending verified.now.code
        (picks_of trace.old.entries ++ replicate counted.count counted.pick) fault) }
    ensures some { OnErr result ((lending : LendingValue) → HaveLed lending verified.now trace.old.entries machine.old
        → MakesSome lending verified.now.code trace.old.entries trace.new.entries counted
        (machine_view machine.new)) }
    ensures still { OnErr result ((lending : LendingValue)
        → HaveLed lending verified.now trace.old.entries machine.old → IsMachineBy lending verified.now machine.new) }
{
    let pick = counted.pick;
    let mut left = counted.count;
    while left > 0 {
        trace.reserve(1)?;
        let (silent, step) = run(verified, machine, pick, left);
        match step {
            Step::Silent => {
                trace.push_run(pick, silent, None);
                left -= silent;
            }
            Step::Did(event) => {
                trace.push_run(pick, silent, Some(event));
                left -= silent + 1;
            }
            Step::NotEnabled => {
                trace.push_run(pick, silent, None);
                return Err(ReplayFault::NotEnabled(trace.len()));
            }
        }
    }
    Ok(())
}

/// Makes picks of one arm, at most `max`, up to the first that is not silent: returns how many were silent
/// before it, and what it came to. The machine makes all silent ones in one call.
fn run(verified: &Verified, machine: &mut Machine, pick: Pick, max: u32) -> (u32, Step)
    requires { IsMachine verified.now machine.old }
    ensures run { (lending : LendingValue) → IsMachineBy lending verified.now machine.old
        → IsRun lending verified.now.code (machine_view machine.old) pick max result.0 result.1
        (machine_view machine.new) }
    ensures machine { (lending : LendingValue) → IsMachineBy lending verified.now machine.old
        → IsMachineBy lending verified.now machine.new }
{
    let made = machine.run_silent(verified, pick, max);
    if made == max {
        return (made, Step::Silent);
    }
    (made, machine.step(verified, pick))
}

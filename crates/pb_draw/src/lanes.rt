//! The state of each arm over a run.

ghost use Rattle.std.specs.Prelude.{◌≡◌, ◌↔◌, ◌++◌, ◌-◌, ◌<◌, ℕ, List, All, IfOk, IsTrue, OnOk, Some, length, map, slice_get};
ghost use Rattle.pb_banker.specs.Lenders.{lender_state, lending_by};
ghost use Rattle.pb_base.specs.Banker.{BankerState, processes, resources, IsWithinClaim};
ghost use Rattle.pb_base.specs.Steppers.{Bundle as AnyBundle};
ghost use Rattle.pb_base.specs.declared.lending.Lending.{Lending as LendingValue};
ghost use Rattle.pb_code.specs.Code.{ProcessCode};
ghost use Rattle.pb_draw.specs.Arms.{arms_before, arms_from};
ghost use Rattle.pb_draw.specs.Drawings.{AreLanes};
ghost use Rattle.pb_code.specs.Whole.{Code as AnyCode};
ghost use Rattle.pb_draw.specs.Lanes.{AreAlike, IsAsking, IsLane, IsStanding, IsStandingAfter, ShowsStandings};
ghost use Rattle.pb_debug_texts.specs.Reasons.{IsReasonBy};
ghost use Rattle.pb_history.specs.Entries.{picks_of};
ghost use Rattle.pb_history.specs.Positions.{AreEnabledBy};
ghost use Rattle.pb_machine.specs.Views.{IsMachine, IsMachineBy, machine_view};

use crate::drawing::{Lane, LaneStep, Standing};
use crate::walk::advance;
use pb_banker::Lender;
use pb_base::{Bundle, Lending, NoMemory, Pick};
use pb_debug_texts::{Why, asked, reason};
use pb_history::Trace;
use pb_machine::Machine;
use pb_verifier::Verified;
use std::alloc::Global;

/// No code has as many processes, and no process as many arms.
const MAX_LANES: usize = 255;

/// Returns the state of an arm whose request comes to this.
fn standing_for(why: Why) -> Standing
    ensures { (lending : LendingValue) (s : BankerState) (p : ℕ) (bundle : AnyBundle) → IsReasonBy lending s p bundle why
        → IsAsking lending s p bundle result }
{
    match why {
        Why::Cash { .. } => Standing::Short,
        Why::Rest(rest) => Standing::KeptBack(rest),
        Why::NotAsking | Why::Order(_) | Why::Granted => Standing::Going,
    }
}

/// Returns the state of an arm of a process that asks for a bundle within its claim.
fn asking(alloc: Global, bank: &Lender, p: usize, bundle: &Bundle) -> Result<Standing, NoMemory>
    requires process { p < processes (lender_state bank.now) }
    requires below { All (λ pair. pair.resource < resources (lender_state bank.now)) bundle.now }
    requires within_claim { IsWithinClaim (lender_state bank.now) p bundle.now }
    ensures { IfOk result (IsAsking (lending_by bank.now) (lender_state bank.now) p bundle.now) }
{
    let why = reason(alloc, bank, p, bundle)?;
    Ok(standing_for(why))
}

/// Returns the state of an arm.
fn standing_of(
    alloc: Global,
    verified: &Verified,
    machine: &Machine,
    pick: Pick,
) -> Result<Standing, NoMemory>
    requires { IsMachine verified.now machine.now }
    ensures { IfOk result (λ standing. (lending : LendingValue) → IsMachineBy lending verified.now machine.now
        → IsStanding lending verified.now.code (machine_view machine.now) pick standing) }
{
    let code = verified.code();
    let p = usize::from(pick.process);
    let arm = usize::from(pick.arm);
    if machine.processes() <= p || machine.proc(p).arms() <= arm {
        return Ok(Standing::Away);
    }
    let thread = machine.proc(p).thread(arm);
    if thread.place().is_none() {
        return Ok(Standing::Away);
    }
    match asked(&code.processes[p], thread) {
        Some(bundle) => asking(alloc, machine.lender(), p, bundle),
        None => Ok(Standing::Going),
    }
}

/// Returns a lane that begins so.
fn first_step(alloc: Global, standing: Standing) -> Result<Vec<LaneStep>, NoMemory>
    ensures some { IfOk result (λ steps. 0 < length steps.items) }
    ensures shows { IfOk result (λ steps. (lending : LendingValue) (code : AnyCode) (picks : List Pick) (arm : Pick)
        → IsStandingAfter lending code picks arm 0 standing
        → ShowsStandings (IsStandingAfter lending code picks arm) 0 steps.items) }
{
    let mut steps = Vec::new(alloc);
    steps.push(LaneStep { at: 0, standing })?;
    Ok(steps)
}

/// Returns whether both say the same of an arm.
fn are_alike(a: &Standing, b: &Standing) -> bool
    ensures { IsTrue result ↔ AreAlike a.now b.now }
{
    match a {
        Standing::Away => matches!(b, Standing::Away),
        Standing::Going => matches!(b, Standing::Going),
        Standing::Short => matches!(b, Standing::Short),
        Standing::KeptBack(rest) => match b {
            Standing::KeptBack(others) => rest.as_slice() == others.as_slice(),
            Standing::Away | Standing::Going | Standing::Short => false,
        },
    }
}

/// Adds a step to a lane if the state of its arm is another than it was.
fn add_step(steps: &mut Vec<LaneStep>, at: u32, standing: Standing) -> Result<(), NoMemory>
    requires later { 0 < at }
    requires some { 0 < length steps.old.items }
    ensures some { OnOk result (0 < length steps.new.items) }
    ensures shows { OnOk result ((lending : LendingValue) (code : AnyCode) (picks : List Pick) (arm : Pick)
        → IsStandingAfter lending code picks arm at standing
        → ShowsStandings (IsStandingAfter lending code picks arm) (at - 1) steps.old.items
        → ShowsStandings (IsStandingAfter lending code picks arm) at steps.new.items) }
{
    let last = &steps[steps.len() - 1];
    if are_alike(&last.standing, &standing) {
        return Ok(());
    }
    steps.push(LaneStep { at, standing })?;
    Ok(())
}

/// Returns the state of an arm at each position.
fn lane_of(
    alloc: Global,
    verified: &Verified,
    lending: Lending,
    trace: &Trace,
    pick: Pick,
) -> Result<Lane, NoMemory>
    requires { AreEnabledBy lending verified.now.code (picks_of trace.now.entries) }
    ensures lane { IfOk result (IsLane lending verified.now.code (picks_of trace.now.entries)) }
    ensures arm { IfOk result (λ lane. lane.pick ≡ pick) }
{
    let mut machine = Machine::new_by(alloc, verified, lending)?;
    let first = standing_of(alloc, verified, &machine, pick)?;
    let mut steps = first_step(alloc, first)?;
    for i in 0..trace.len() {
        let _ = advance(verified, trace, &mut machine, i);
        let standing = standing_of(alloc, verified, &machine, pick)?;
        add_step(&mut steps, i + 1, standing)?;
    }
    Ok(Lane { pick, steps })
}

/// Adds the lanes of a process.
fn add_lanes(
    alloc: Global,
    verified: &Verified,
    lending: Lending,
    trace: &Trace,
    process: u8,
    lanes: &mut Vec<Lane>,
) -> Result<(), NoMemory>
    requires enabled { AreEnabledBy lending verified.now.code (picks_of trace.now.entries) }
    requires lanes { AreLanes lending verified.now.code (picks_of trace.now.entries) lanes.old.items }
    requires process { process < length verified.now.code.processes }
    ensures lanes { OnOk result (AreLanes lending verified.now.code (picks_of trace.now.entries) lanes.new.items) }
    ensures arms { OnOk result ((code : ProcessCode) → slice_get verified.now.code.processes process ≡ Some code
        → map (λ lane. lane.pick) lanes.new.items
        ≡ map (λ lane. lane.pick) lanes.old.items ++ arms_before process (length code.entries)) }
{
    let arms = verified.code().processes[usize::from(process)]
        .entries
        .len();
    for arm in 0..arms.min(MAX_LANES) as u8 {
        let pick = Pick { process, arm };
        let lane = lane_of(alloc, verified, lending, trace, pick)?;
        lanes.push(lane)?;
    }
    Ok(())
}

/// Returns the state of each arm of each process at each position.
pub(crate) fn lanes_of(
    alloc: Global,
    verified: &Verified,
    lending: Lending,
    trace: &Trace,
) -> Result<Vec<Lane>, NoMemory>
    requires { AreEnabledBy lending verified.now.code (picks_of trace.now.entries) }
    ensures lanes { IfOk result (λ lanes. AreLanes lending verified.now.code (picks_of trace.now.entries) lanes.items) }
    ensures arms { IfOk result (λ lanes. map (λ lane. lane.pick) lanes.items ≡ arms_from 0 verified.now.code.processes) }
{
    let mut lanes = Vec::new(alloc);
    let processes = verified.code().processes.len();
    for process in 0..processes.min(MAX_LANES) as u8 {
        add_lanes(alloc, verified, lending, trace, process, &mut lanes)?;
    }
    Ok(lanes)
}

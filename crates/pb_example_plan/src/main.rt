//! Checks a plan and runs it, pick by pick, by a schedule of its own.
//!
//! The plan is an object on standard input. Nothing of it is believed: it runs only if it is verified.
#![tactic(auto)]

ghost use Rattle.std.specs.Prelude.{◌≡◌, ◌<◌, IfOk, length};
ghost use Rattle.pb_base.specs.Steppers.{IsFinished};
ghost use Rattle.pb_code.specs.Code.{code_over};
ghost use Rattle.pb_example_plan.specs.Schedule.{MakesSome, MakesSomeOf};
ghost use Rattle.pb_machine.specs.Views.{IsMachineOf, machine_view};
ghost use Rattle.pb_verifier.specs.Verified.{IsVerified};

use anyhow::Result;
use pb_base::limits::MAX_INPUT;
use pb_base::{
    Output, Pick, StandardInput, StandardOutput, Step, event_line, read_whole, write_all,
};
use pb_machine::Machine;
use pb_object::read_any;
use pb_verifier::{Verified, verify};
use std::alloc::Global;

/// The most picks that are made.
const LIMIT: u32 = 1_000_000;

/// Makes an enabled pick of one job, if there is one.
fn step_job(machine: &mut Machine, verified: &Verified, job: u8) -> Step
    requires verified { IsVerified verified.now }
    requires machine { IsMachineOf verified.now machine.old }
    requires job { job < length (machine_view machine.old).processes }
    ensures machine { IsMachineOf verified.now machine.new }
    ensures step { MakesSomeOf verified.now.code (machine_view machine.old) job result (machine_view machine.new) }
{
    for arm in 0..machine.proc(usize::from(job)).arms() {
        let pick = Pick {
            process: job,
            arm: arm as u8,
        };
        match machine.step(verified, pick) {
            Step::Silent => return Step::Silent,
            Step::Did(event) => return Step::Did(event),
            Step::NotEnabled => {}
        }
    }
    Step::NotEnabled
}

/// Makes an enabled pick. If there is none, every job has ended or faulted: jobs never wait for one another.
fn step(machine: &mut Machine, verified: &Verified) -> Step
    requires verified { IsVerified verified.now }
    requires machine { IsMachineOf verified.now machine.old }
    ensures machine { IsMachineOf verified.now machine.new }
    ensures step { MakesSome verified.now.code (machine_view machine.old) result (machine_view machine.new) }
{
    for job in 0..machine.processes() {
        match step_job(machine, verified, job as u8) {
            Step::Silent => return Step::Silent,
            Step::Did(event) => return Step::Did(event),
            Step::NotEnabled => {}
        }
    }
    Step::NotEnabled
}

/// Runs the plan, writes the line of each event, and returns the number of picks. Fewer than `limit` were
/// made only if every job has ended or faulted.
fn run<O: Output>(
    alloc: Global,
    verified: &Verified,
    machine: &mut Machine,
    limit: u32,
    output: &mut O,
) -> Result<u32>
    requires verified { IsVerified verified.now }
    requires machine { IsMachineOf verified.now machine.old }
    ensures machine { IsMachineOf verified.now machine.new }
    ensures over { IfOk result (λ made. made < limit → IsFinished code_over (machine_view machine.new)) }
{
    for made in 0..limit {
        match step(machine, verified) {
            Step::Silent => {}
            Step::Did(event) => {
                let line = event_line(alloc, verified.names(), &event)?;
                write_all(output, line.as_slice())?;
                write_all(output, b"\n")?;
            }
            Step::NotEnabled => return Ok(made),
        }
    }
    Ok(limit)
}

/// Reads the object of a plan and verifies it.
fn read_plan(alloc: Global, object: &[u8]) -> Result<Verified>
    ensures { IfOk result (λ verified. IsVerified verified) }
{
    let (code, _labels) = read_any(alloc, object)?;
    Ok(verify(alloc, code).map_err(|(_, fault)| fault)?)
}

/// Makes a machine for the plan, runs it, and returns the number of picks.
fn run_plan<O: Output>(alloc: Global, verified: &Verified, output: &mut O) -> Result<u32>
    requires { IsVerified verified.now }
{
    let mut machine = Machine::new(alloc, verified)?;
    run(alloc, verified, &mut machine, LIMIT, output)
}

fn main(rt: HostRuntime) -> Result<()> {
    let alloc = rt.alloc();
    let object = read_whole(alloc, &mut StandardInput::new(rt.stdin()), MAX_INPUT)?;
    let verified = read_plan(alloc, object.as_slice())?;
    let made = run_plan(alloc, &verified, &mut StandardOutput::new(rt.stdout()))?;
    println!(rt; "{made} picks")?;
    Ok(())
}

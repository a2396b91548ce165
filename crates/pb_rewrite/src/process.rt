//! The state of one process of the source, and one step of it.

ghost use Rattle.std.specs.Prelude.{◌≡◌, ◌↔◌, ◌<◌, pos, replicate, Some, IfOk, OnErr, IsSome, IsTrue};
ghost use Rattle.pb_base.specs.Banker.{processes, resources, row_of};
ghost use Rattle.pb_names.specs.Source.{Doing as doing, find, items_of, put, source_over};
ghost use Rattle.pb_names.specs.View.{block_view};
ghost use Rattle.pb_rewrite.specs.Found.{line_in};
ghost use Rattle.pb_rewrite.specs.Sound.{IsSingle, IsSoundRun};
ghost use Rattle.pb_rewrite.specs.Steps.{IsHeld, IsProcessStep, IsRunStep, IsSettled, PickAsksBelow};
ghost use Rattle.pb_rewrite.specs.View.{arm_view, process_view};

use crate::arm::{Arm, Found, find_line, is_ended, swap};
use crate::stepping::{Outcome, Stepped, step_arm};
use pb_banker::Banker;
use pb_base::{Event, FaultKind, NoMemory, Pick, Step};
use pb_names::Stmt;
use std::alloc::{Allocator, Global};

/// A process: its integers, and its run, which is arm 0, or nothing after a fault.
#[derive(Drop)]
pub struct SourceProcess<A: Allocator> {
    vars: Vec<i64>,
    run: Option<Arm<A>>,
}

impl<A: Allocator> SourceProcess<A> {
    /// Returns the process before its first step: its integers, all 0, and its body.
    pub(crate) fn new(
        alloc: Global,
        integers: usize,
        body: Vec<Stmt<A>, A>,
    ) -> Result<SourceProcess<A>, NoMemory>
        ensures { IfOk result (λ p. process_view p
            ≡ record { vars = replicate integers (pos 0); run = Some (doing (items_of (block_view body.items))) }) }
    {
        let vars = zeros(alloc, integers)?;
        Ok(SourceProcess {
            vars,
            run: Some(Arm::Fresh(body)),
        })
    }

    /// Returns its integers, by number.
    pub fn vars(&self) -> &[i64]
        ensures { result.now ≡ (process_view self.now).vars }
    {
        &self.vars
    }

    /// Returns whether it has ended or faulted.
    pub fn is_over(&self) -> bool
        ensures { IsTrue result ↔ source_over (process_view self.now) }
    {
        match &self.run {
            None => true,
            Some(run) => is_ended(run),
        }
    }

    /// Returns the line of the first item of an arm; none if the arm does not run or its list is empty.
    pub fn head_line(&self, arm: usize) -> Option<u32>
        ensures { result ≡ line_in (process_view self.now) arm }
    {
        match &self.run {
            None => None,
            Some(run) => match find_line(run, arm, 0) {
                Found::At(line) => line,
                Found::Nowhere => None,
            },
        }
    }
}

impl<A: Allocator + Clone> SourceProcess<A> {
    /// Steps the arm of the pick, if it can. If out of memory, nothing changes.
    pub(crate) fn step(
        &mut self,
        banker: &mut Banker,
        alloc: &A,
        pick: Pick,
    ) -> Result<Step, NoMemory>
        requires process { pick.process < processes banker.old.state }
        requires sound { IsSoundRun (resources banker.old.state) (row_of banker.old.state.loans pick.process)
            (process_view self.old).run }
        ensures ok { IfOk result (λ answer. IsProcessStep banker.old.state (process_view self.old) pick answer
            (process_view self.new) banker.new.state) }
        ensures same { OnErr result (process_view self.new ≡ process_view self.old) }
        ensures same_loans { OnErr result (banker.new.state ≡ banker.old.state) }
    {
        match &mut self.run {
            None => Ok(Step::NotEnabled),
            Some(run) => match step_run(run, &mut self.vars, banker, alloc, pick) {
                Ok(outcome) => Ok(self.settle(banker, pick, outcome)),
                Err(error) => Err(error),
            },
        }
    }

    /// Returns what is left to do after a step of an arm, and what it shows.
    fn settle(&mut self, banker: &mut Banker, pick: Pick, outcome: Outcome) -> Step
        requires process { pick.process < processes banker.old.state }
        requires held { IsHeld banker.old.state pick.process outcome }
        ensures { IsSettled banker.old.state (process_view self.old) pick outcome result (process_view self.new)
            banker.new.state }
    {
        match outcome {
            Outcome::Silent => Step::Silent,
            Outcome::Prints(value) => Step::Did(Event::Printed { pick, value }),
            Outcome::Takes(bundle) => Step::Did(Event::Granted { pick, bundle }),
            Outcome::Returns(bundle) => {
                banker.give(pick.process as usize, &bundle);
                Step::Did(Event::Returned { pick, bundle })
            }
            Outcome::Faults(kind) => self.fault(banker, pick, kind),
            Outcome::Ends => {
                if pick.arm == 0 {
                    Step::Did(Event::Finished {
                        process: pick.process,
                    })
                } else {
                    Step::Silent
                }
            }
            Outcome::Waits => Step::NotEnabled,
        }
    }

    /// Ends the run by a fault, and all that the process holds comes back.
    #[cold]
    fn fault(&mut self, banker: &mut Banker, pick: Pick, kind: FaultKind) -> Step
        requires process { pick.process < processes banker.old.state }
        ensures { IsSettled banker.old.state (process_view self.old) pick (Outcome.Faults kind) result
            (process_view self.new) banker.new.state }
    {
        self.run = None;
        banker.drop_all(pick.process as usize);
        Step::Did(Event::Faulted { pick, kind })
    }
}

/// Returns `count` integers, all 0.
fn zeros(alloc: Global, count: usize) -> Result<Vec<i64>, NoMemory>
    ensures { IfOk result (λ vars. vars.items ≡ replicate count (pos 0)) }
{
    let mut vars = Vec::new(alloc);
    vars.resize(count, 0)?;
    Ok(vars)
}

/// Takes the arm of the pick out of its run, if it is there, steps it, and puts it back.
fn step_run<A: Allocator + Clone>(
    run: &mut Arm<A>,
    vars: &mut [i64],
    banker: &mut Banker,
    alloc: &A,
    pick: Pick,
) -> Result<Outcome, NoMemory>
    requires process { pick.process < processes banker.old.state }
    requires single { IsSingle pick.arm (arm_view run.old) }
    requires below { PickAsksBelow (resources banker.old.state) pick vars.old (arm_view run.old) }
    ensures ok { IfOk result (λ made. IsRunStep banker.old.state pick vars.old (arm_view run.old) made
        vars.new (arm_view run.new) banker.new.state) }
    ensures same_vars { OnErr result (vars.new ≡ vars.old) }
    ensures same_run { OnErr result (arm_view run.new ≡ arm_view run.old) }
    ensures same_loans { OnErr result (banker.new.state ≡ banker.old.state) }
{
    let mut arm = Arm::Ended;
    let wanted = pick.arm as usize;
    if !swap(run, wanted, 0, &mut arm) {
        return Ok(Outcome::Waits);
    }
    match step_arm(arm, vars, banker, pick.process as usize, alloc) {
        Ok(stepped) => {
            let Stepped { arm, outcome } = stepped;
            put_back(run, wanted, arm);
            Ok(outcome)
        }
        Err(arm) => {
            put_back(run, wanted, arm);
            Err(NoMemory)
        }
    }
}

/// Puts an arm where another was taken out.
fn put_back<A: Allocator>(run: &mut Arm<A>, wanted: usize, arm: Arm<A>)
    requires single { IsSingle wanted (arm_view run.old) }
    requires there { IsSome (find wanted 0 (arm_view run.old)) }
    ensures { arm_view run.new ≡ put wanted (arm_view arm) 0 (arm_view run.old) }
{
    let mut arm = arm;
    let _ = swap(run, wanted, 0, &mut arm);
}

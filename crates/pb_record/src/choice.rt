//! The next pick, drawn from all that are enabled.
ghost use Rattle.std.specs.Prelude.{◌≡◌, ◌+◌, ◌%◌, ◌<◌, IfOk, OnOk, length};
ghost use Rattle.pb_record.specs.Choices.{AreCandidatesBefore, AreCandidates};
ghost use Rattle.pb_record.specs.Draws.{IsDrawn, generator_of};
ghost use Rattle.pb_record.specs.Schedule.{MakesAtMost, StepsSome};
ghost use Rattle.pb_base.specs.declared.lending.Lending.{Lending as LendingValue};
ghost use Rattle.pb_machine.specs.Views.{machine_view, IsMachine, IsMachineBy};
ghost use Rattle.pb_verifier.specs.Verified.{IsVerified};
ghost use Rattle.rand_pcg.specs.Pcg.{pcg32};

use crate::schedule::{Next, step_arm};
use pb_base::{NoMemory, Pick};
use pb_machine::{Look, Machine};
use pb_verifier::Verified;
use rand_core::utils::NextWord;
use rand_pcg::Pcg32;
use std::alloc::Global;

/// The stream of the generator, which each seed starts at a place of its own.
const STREAM: u64 = 54;

/// Draws the next pick of a run, again and again.
#[derive(Drop)]
pub struct Chooser {
    generator: Pcg32,
    /// The candidates of a pick that is drawn, kept so that their memory is used again.
    candidates: Vec<Pick>,
}

impl Chooser {
    /// Draws by a generator with this seed. No memory is taken.
    pub fn new(alloc: Global, seed: u64) -> Chooser
        ensures { result.generator ≡ generator_of seed }
    {
        Chooser {
            generator: Pcg32::new(seed, STREAM),
            candidates: Vec::new(alloc),
        }
    }

    /// Makes the next pick, drawn from those that are enabled.
    pub fn step(&mut self, machine: &mut Machine, verified: &Verified) -> Result<Next, NoMemory>
        requires verified { IsVerified verified.now }
        requires machine { IsMachine verified.now machine.old }
        ensures machine { (lending : LendingValue) → IsMachineBy lending verified.now machine.old
            → IsMachineBy lending verified.now machine.new }
        ensures step { IfOk result (λ next. (lending : LendingValue) → IsMachineBy lending verified.now machine.old
            → StepsSome lending verified.now.code (machine_view machine.old) next (machine_view machine.new)) }
        ensures drawn { IfOk result (λ next. (lending : LendingValue) → IsMachineBy lending verified.now machine.old
            → IsDrawn lending verified.now.code (machine_view machine.old) self.old.generator next self.new.generator) }
        ensures within { IfOk result (MakesAtMost 1) }
    {
        step_drawn(machine, verified, &mut self.generator, &mut self.candidates)
    }
}

/// Makes a pick that is drawn from the candidates. If the lender refuses it, another is drawn from the rest.
/// The list is for the candidates; what it holds before makes no difference.
fn step_drawn(
    machine: &mut Machine,
    verified: &Verified,
    generator: &mut Pcg32,
    candidates: &mut Vec<Pick>,
) -> Result<Next, NoMemory>
    requires verified { IsVerified verified.now }
    requires machine { IsMachine verified.now machine.old }
    ensures machine { (lending : LendingValue) → IsMachineBy lending verified.now machine.old
        → IsMachineBy lending verified.now machine.new }
    ensures step { IfOk result (λ next. (lending : LendingValue) → IsMachineBy lending verified.now machine.old
        → StepsSome lending verified.now.code (machine_view machine.old) next (machine_view machine.new)) }
    ensures drawn { IfOk result (λ next. (lending : LendingValue) → IsMachineBy lending verified.now machine.old
        → IsDrawn lending verified.now.code (machine_view machine.old) generator.old next generator.new) }
    ensures within { IfOk result (MakesAtMost 1) }
{
    find_candidates(machine, verified, candidates)?;
    while !candidates.is_empty() {
        let pick = candidates.remove(below(generator, candidates.len()));
        match step_arm(machine, verified, pick, 1) {
            Next::Silent(_, made) => return Ok(Next::Silent(pick, made)),
            Next::Did(_, event) => return Ok(Next::Did(pick, event)),
            Next::NotEnabled => {}
        }
    }
    Ok(Next::NotEnabled)
}

/// Returns a drawn number below this one: the rest of the next word.
fn below(generator: &mut Pcg32, end: usize) -> usize
    requires { 0 < end }
    ensures number { result ≡ (pcg32 generator.old).0 % end }
    ensures generator { generator.new ≡ (pcg32 generator.old).1 }
    ensures below { result < end }
{
    generator.next_word() as usize % end
}

/// Puts the candidates in the place of what the list held, in the order of their processes and then of their
/// arms.
fn find_candidates(
    machine: &Machine,
    verified: &Verified,
    picks: &mut Vec<Pick>,
) -> Result<(), NoMemory>
    requires verified { IsVerified verified.now }
    requires machine { IsMachine verified.now machine.now }
    ensures { OnOk result (AreCandidates verified.now.code (machine_view machine.now) picks.new.items) }
{
    picks.clear();
    for process in 0..machine.processes() {
        push_candidates(machine, verified, process as u8, picks)?;
    }
    Ok(())
}

/// Adds the candidates of a process after those of the processes before it.
fn push_candidates(
    machine: &Machine,
    verified: &Verified,
    process: u8,
    picks: &mut Vec<Pick>,
) -> Result<(), NoMemory>
    requires verified { IsVerified verified.now }
    requires machine { IsMachine verified.now machine.now }
    requires process { process < length (machine_view machine.now).processes }
    requires before { AreCandidatesBefore verified.now.code (machine_view machine.now) process 0 picks.old.items }
    ensures { OnOk result (AreCandidatesBefore verified.now.code (machine_view machine.now) (process + 1) 0 picks.new.items) }
{
    for arm in 0..machine.proc(usize::from(process)).arms() {
        let pick = Pick {
            process,
            arm: arm as u8,
        };
        match machine.look(verified, pick) {
            Look::Stays => {}
            Look::Silent | Look::Visible => picks.push(pick)?,
        }
    }
    Ok(())
}

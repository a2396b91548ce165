//! The commands `outcomes --run` and `outcomes --deadlock`: a run to one outcome or to one deadlock.

ghost use Rattle.std.specs.Prelude.{◌≡◌, ◌≤◌, ◌-◌, ◌++◌, List, IfOk, OnOk, length, map, option_map};
ghost use Rattle.std.specs.Borrow.{Bor};
ghost use Rattle.pb_base.specs.declared.pick.Pick.{Pick as PickValue};
ghost use Rattle.pb_base.specs.declared.limits.TheConstants.{MAX_INPUT};
ghost use Rattle.pb_code.specs.Limits.{AreLabels};
ghost use Rattle.pb_command_io.specs.Answers.{Tells};
ghost use Rattle.pb_command_io.specs.Faults.{TellsWriteFaults};
ghost use Rattle.pb_command_io.specs.Inputs.{SaysOfInput};
ghost use Rattle.pb_search.specs.Deadlocks.{deadlock_view};
ghost use Rattle.pb_search.specs.Outcomes.{found_view};
ghost use Rattle.pb_search_engine.specs.OutcomeLines.{last_line};
ghost use Rattle.pb_search_engine.specs.SaysOfOne.{SaysOfOne, SaysOfOneRun, none_line, none_status, picks_to};
ghost use Rattle.pb_search_engine.specs.SaysOutcomes.{mode_for, until_for};

use crate::counts::count_picks;
use crate::lines::{put_head, put_last};
use crate::outcomes::{mode, until};
use pb_accept::run_text::run_text;
use pb_accept::{compile_text, refuse};
use pb_base::limits::MAX_INPUT;
use pb_base::{NoMemory, Output, Pick};
use pb_codegen::Compiled;
use pb_command_io::{Reply, Status, tell};
use pb_options::OutcomesOptions;
use pb_search::explore::explore_by;
use pb_search::{Extent, Outcomes};
use std::alloc::Global;

/// An outcome or a deadlock, by its number from 1 in what `outcomes` writes.
#[derive(Clone, Copy, Debug, PartialEq, Eq)]
pub enum Target {
    Outcome(u32),
    Deadlock(u32),
}

/// Writes a text with picks that lead to one outcome or one deadlock of it, as `replay` reads it; or that there is
/// none with this number.
pub fn tell_one_run<O: Output>(
    alloc: Global,
    options: OutcomesOptions,
    target: Target,
    text: &[u8],
    output: &mut O,
) -> Status
    requires { length text.now ≤ MAX_INPUT }
    ensures text { Tells (SaysOfInput (SaysOfOne target options.lend options.first_deadlock options.prints options.states) text.now)
        (O.written output.old) (O.written output.new) result }
    ensures faults { TellsWriteFaults (O.failures output.old) (O.failures output.new) result }
{
    match compile_text(alloc, text) {
        Ok(compiled) => tell(
            alloc,
            reply(alloc, options, target, text, &compiled),
            output,
        ),
        Err(refusal) => refuse(alloc, refusal, output),
    }
}

/// Returns what is said of a compiled text.
fn reply(
    alloc: Global,
    options: OutcomesOptions,
    target: Target,
    text: &[u8],
    compiled: &Compiled,
) -> Result<Reply, NoMemory>
    requires { AreLabels compiled.now.verified.code compiled.now.labels }
    ensures { IfOk result (λ r.
        SaysOfOneRun target (mode_for options.lend options.prints) (until_for options.first_deadlock) compiled.now.verified.code
        options.states text.now r.text.items r.status) }
{
    let verified = compiled.verified();
    let code = verified.code();
    let mode = mode(options.lend, options.prints);
    let until = until(options.first_deadlock);
    let states = options.states;
    let told = explore_by(alloc, verified, mode, until, states)?;
    match picks_to(target, &told) {
        Some(picks) => {
            let counted = count_picks(alloc, picks)?;
            run_text(alloc, text, &code.names, &counted)
        }
        None => no_run(alloc, target, &told, states),
    }
}

/// Returns the picks that lead to an outcome or a deadlock, if there is one with its number.
fn picks_to(target: Target, told: &Outcomes) -> Option<&[Pick]>
    ensures { option_map (λ (picks : Bor (List Pick)). picks.now) result
        ≡ picks_to target (map found_view told.now.found.items) (map deadlock_view told.now.deadlocks.items) }
{
    match target {
        Target::Outcome(number) => match told.found.get(place(number)) {
            Some(found) => Some(&found.picks),
            None => None,
        },
        Target::Deadlock(number) => match told.deadlocks.get(place(number)) {
            Some(deadlock) => Some(&deadlock.picks),
            None => None,
        },
    }
}

/// Returns the place of the one with this number, counted from 0.
fn place(number: u32) -> usize
    ensures { result ≡ number - 1 }
{
    number.saturating_sub(1) as usize
}

/// Returns the answer that there is none with this number, with how many there are.
fn no_run(alloc: Global, target: Target, told: &Outcomes, states: u32) -> Result<Reply, NoMemory>
    ensures { IfOk result (λ r.
        (r.text.items ≡ none_line target
        ++ last_line states (length told.now.found.items) (length told.now.deadlocks.items) told.now.extent)
        × (r.status ≡ none_status told.now.extent)) }
{
    let mut text = Vec::new(alloc);
    put_none(&mut text, target)?;
    let outcomes = told.found.len();
    let deadlocks = told.deadlocks.len();
    put_last(&mut text, outcomes, deadlocks, told.extent, states)?;
    Ok(Reply {
        text,
        status: none_status(told.extent),
    })
}

/// Appends that there is none with this number.
fn put_none(text: &mut Vec<u8>, target: Target) -> Result<(), NoMemory>
    ensures { OnOk result (text.new.items ≡ text.old.items ++ none_line target) }
{
    match target {
        Target::Outcome(number) => put_head(text, b"no outcome ", number as usize),
        Target::Deadlock(number) => put_head(text, b"no deadlock ", number as usize),
    }
}

/// Returns the status if there is none with the number that is asked for.
fn none_status(extent: Extent) -> Status
    ensures { result ≡ none_status extent }
{
    match extent {
        Extent::All { .. } => Status::Refused,
        Extent::TooMany | Extent::TooLong | Extent::AtDeadlock => Status::Limit,
    }
}

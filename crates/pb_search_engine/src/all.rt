//! All outcomes and deadlocks.

ghost use Rattle.std.specs.Prelude.{◌≡◌, ◌≢◌, IfOk, IsTrue, false, map};
ghost use Rattle.pb_code.specs.Limits.{AreLabels};
ghost use Rattle.pb_command_io.specs.declared.status.Status.TheVariants.{Device};
ghost use Rattle.pb_search.specs.Outcomes.{IsBounded};
ghost use Rattle.pb_search.specs.declared.found.Extent.TheVariants.{All as AllFound};
ghost use Rattle.pb_search_engine.specs.Items.{given_item_view};
ghost use Rattle.pb_search_engine.specs.SaysOutcomes.{SaysFairly, SaysOfSearch, mode_for, status_of, until_for};
ghost use Rattle.pb_search_fair.specs.CodeRuns.{TellsFairRuns};
ghost use Rattle.pb_search_engine.specs.FairLines.{status_with};

use crate::answer::Answer;
use crate::items::{fair_item, found_items};
use crate::outcomes::{mode, until};
use pb_base::NoMemory;
use pb_codegen::Compiled;
use pb_command_io::Status;
use pb_options::OutcomesOptions;
use pb_search::Extent;
use pb_search::explore::explore_by;
use pb_search_fair::{FairRuns, fair_runs};
use std::alloc::Global;

/// Returns the outcomes and deadlocks of a compiled text, and what is told of its fair runs if that is asked.
pub fn all_found(
    alloc: Global,
    options: OutcomesOptions,
    compiled: &Compiled,
) -> Result<Answer, NoMemory>
    requires { AreLabels compiled.now.verified.code compiled.now.labels }
    ensures said { IfOk result (λ a.
        SaysFairly options.fair (mode_for options.lend options.prints) (until_for options.first_deadlock) compiled.now.verified.code
        options.states (map given_item_view a.items.items) a.status) }
    ensures no_device { IfOk result (λ a. a.status ≢ Device) }
{
    let found = found(alloc, options, compiled)?;
    if !options.fair {
        return Ok(found.answer);
    }
    let told = fair_told(alloc, options, compiled, found.all_end)?;
    let Answer { mut items, status } = found.answer;
    items.push(fair_item(told, options.states))?;
    Ok(Answer {
        items,
        status: status_with(status, told),
    })
}

/// Returns the status, by what is told of fair runs.
fn status_with(status: Status, told: FairRuns) -> Status
    ensures { result ≡ status_with status told }
{
    match told {
        FairRuns::AllEnd | FairRuns::SomeDoNotEnd => status,
        FairRuns::TooMany => Status::Limit,
    }
}

/// What is found of outcomes and deadlocks, and whether it is known that every run ends.
#[derive(Drop)]
struct FoundAnswer {
    answer: Answer,
    all_end: bool,
}

/// Returns the outcomes and deadlocks of a compiled text.
fn found(
    alloc: Global,
    options: OutcomesOptions,
    compiled: &Compiled,
) -> Result<FoundAnswer, NoMemory>
    requires { AreLabels compiled.now.verified.code compiled.now.labels }
    ensures said { IfOk result (λ f.
        SaysOfSearch (mode_for options.lend options.prints) (until_for options.first_deadlock) compiled.now.verified.code
        options.states (map given_item_view f.answer.items.items) f.answer.status) }
    ensures no_device { IfOk result (λ f. f.answer.status ≢ Device) }
    ensures all_end { IfOk result (λ f.
        IsTrue f.all_end → IsBounded (mode_for options.lend options.prints) compiled.now.verified.code) }
{
    let verified = compiled.verified();
    let mode = mode(options.lend, options.prints);
    let until = until(options.first_deadlock);
    let states = options.states;
    let told = explore_by(alloc, verified, mode, until, states)?;
    let items = found_items(alloc, &told, states)?;
    Ok(FoundAnswer {
        answer: Answer {
            items,
            status: status(told.extent, told.deadlocks.len()),
        },
        all_end: all_end(told.extent),
    })
}

/// Returns whether all was found, and no run never ends.
fn all_end(extent: Extent) -> bool
    ensures { IsTrue result → extent ≡ AllFound false }
{
    match extent {
        Extent::All { cycles } => !cycles,
        Extent::TooMany | Extent::TooLong | Extent::AtDeadlock => false,
    }
}

/// Returns what is told of the fair runs of a compiled text, of which it may be known that every run ends.
fn fair_told(
    alloc: Global,
    options: OutcomesOptions,
    compiled: &Compiled,
    all_end: bool,
) -> Result<FairRuns, NoMemory>
    requires { IsTrue all_end → IsBounded (mode_for options.lend options.prints) compiled.now.verified.code }
    ensures { IfOk result (TellsFairRuns (mode_for options.lend false) compiled.now.verified.code options.states) }
{
    if all_end {
        return Ok(FairRuns::AllEnd);
    }
    fair_runs(
        alloc,
        compiled.verified(),
        options.lend.lending(),
        options.states,
    )
}

/// Returns the status, by how much was found and how many deadlocks there are.
fn status(extent: Extent, deadlocks: usize) -> Status
    ensures of { result ≡ status_of extent deadlocks }
    ensures no_device { result ≢ Device }
{
    match extent {
        Extent::All { .. } if deadlocks == 0 => Status::Done,
        Extent::All { .. } => Status::Deadlock,
        Extent::TooMany => Status::Limit,
        Extent::TooLong => Status::Limit,
        Extent::AtDeadlock => Status::Deadlock,
    }
}

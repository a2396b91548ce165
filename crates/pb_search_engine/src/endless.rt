//! What is found of a run that never ends.

ghost use Rattle.std.specs.Prelude.{◌≡◌, ◌≢◌, ◌∷◌, [], IfOk, map};
ghost use Rattle.pb_command_io.specs.declared.status.Status.TheVariants.{Device};
ghost use Rattle.pb_options.specs.Lends.{lending_for};
ghost use Rattle.pb_search_engine.specs.Items.{More, given_item_view};
ghost use Rattle.pb_search_engine.specs.SaysEndless.{SaysOfCircle, TellsCircle};

use crate::answer::{Answer, alone};
use crate::counts::count_picks;
use crate::item::{Bound, Item};
use pb_base::NoMemory;
use pb_base::limits::MAX_PICKS;
use pb_codegen::Compiled;
use pb_command_io::Status;
use pb_options::OutcomesOptions;
use pb_search_fair::{Circle, EndlessRun, endless_run};
use std::alloc::Global;

/// Returns picks of a compiled text that lead into a circle and picks that go round it, if some run never ends, or that
/// every run ends. With `options.fair` only fair runs count.
pub fn endless_found(
    alloc: Global,
    options: OutcomesOptions,
    compiled: &Compiled,
) -> Result<Answer, NoMemory>
    ensures said { IfOk result (λ a. SaysOfCircle options.fair (lending_for options.lend) compiled.now.verified.code
        options.states (map given_item_view a.items.items) a.status) }
    ensures no_device { IfOk result (λ a. a.status ≢ Device) }
{
    let lending = options.lend.lending();
    let fair = options.fair;
    let states = options.states;
    match endless_run(alloc, compiled.verified(), lending, fair, states)? {
        EndlessRun::AllEnd => alone(alloc, Item::AllEnd { fair }, Status::Done),
        EndlessRun::Some(circle) => circle_found(alloc, fair, &circle),
        EndlessRun::TooMany => more_than(alloc, Bound::Configurations, states),
    }
}

/// Returns that there is more than this of something.
fn more_than(alloc: Global, bound: Bound, limit: u32) -> Result<Answer, NoMemory>
    ensures items { IfOk result (λ a. map given_item_view a.items.items ≡ More bound limit ∷ []) }
    ensures status { IfOk result (λ a. a.status ≡ Status.Limit) }
{
    alone(alloc, Item::More { bound, limit }, Status::Limit)
}

/// Returns the picks of a circle, or that they are more than a run may have.
fn circle_found(alloc: Global, fair: bool, circle: &Circle) -> Result<Answer, NoMemory>
    ensures told { IfOk result (λ a. TellsCircle fair circle.now.lead.items circle.now.round.items
        (map given_item_view a.items.items) a.status) }
    ensures no_device { IfOk result (λ a. a.status ≢ Device) }
{
    if circle.lead.len() > MAX_PICKS as usize || circle.round.len() > MAX_PICKS as usize {
        return more_than(alloc, Bound::Picks, MAX_PICKS);
    }
    let lead = count_picks(alloc, &circle.lead)?;
    let round = count_picks(alloc, &circle.round)?;
    let mut items = Vec::new(alloc);
    items.push(Item::Lead(lead))?;
    items.push(Item::Round(round))?;
    items.push(Item::SomeDoNotEnd { fair })?;
    Ok(Answer {
        items,
        status: Status::Done,
    })
}

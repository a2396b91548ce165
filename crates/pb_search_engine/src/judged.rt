//! What is found of runs that are compared with what is expected of them.

ghost use Rattle.std.specs.Prelude.{◌≡◌, ◌≤◌, [], ◌∷◌, IfOk, length, map};
ghost use Rattle.pb_base.specs.declared.limits.TheConstants.{MAX_PICKS as MOST_PICKS};
ghost use Rattle.pb_search.specs.Deadlocks.{deadlock_view};
ghost use Rattle.pb_search.specs.Outcomes.{found_view, process_outcome_view};
ghost use Rattle.pb_search_engine.specs.Items.{AsExpected, More, NotAsExpected, given_item_view};
ghost use Rattle.pb_search_engine.specs.SaysExpected.{IsOther, IsPlain, TellsDeadlock, TellsOutcome, fair_status, fair_verdict};

use crate::answer::{Answer, alone};
use crate::item::{Bound, Item};
use crate::items::{deadlock_block, outcome_block};
use crate::other::Other;
use crate::wanted::has_fault;
use pb_base::NoMemory;
use pb_base::limits::MAX_PICKS;
use pb_command_io::Status;
use pb_search::{Deadlock, Extent, Found, ProcessOutcome};
use pb_search_fair::FairRuns;
use std::alloc::Global;

/// Returns an outcome that is not as expected, and what of it is not. It alone is told, so its number is 1.
pub fn other_outcome(alloc: Global, found: &Found) -> Result<Answer, NoMemory>
    requires { length found.now.picks.items ≤ MOST_PICKS }
    ensures { IfOk result (λ a. TellsOutcome (found_view found.now) (map given_item_view a.items.items) × (a.status ≡ Status.Unexpected)) }
{
    let block = outcome_block(alloc, 1, found)?;
    shown(alloc, Item::Outcome(block), other_of(&found.outcome))
}

/// Returns a deadlock, and that it is not as expected. It alone is told, so its number is 1.
pub fn other_deadlock(alloc: Global, deadlock: &Deadlock) -> Result<Answer, NoMemory>
    requires { length deadlock.now.picks.items ≤ MOST_PICKS }
    ensures { IfOk result (λ a. TellsDeadlock (deadlock_view deadlock.now) (map given_item_view a.items.items) × (a.status ≡ Status.Unexpected)) }
{
    let block = deadlock_block(alloc, 1, deadlock)?;
    shown(alloc, Item::Deadlock(block), Other::Deadlock)
}

/// Returns what is not as expected of an outcome that is not.
fn other_of(outcome: &[ProcessOutcome]) -> Other
    ensures { IsOther (map process_outcome_view outcome.now) result }
{
    if has_fault(outcome) {
        Other::Fault
    } else {
        Other::Prints
    }
}

/// Returns an outcome or a deadlock, and what is not as expected of it.
fn shown(alloc: Global, item: Item, other: Other) -> Result<Answer, NoMemory>
    ensures { IfOk result (λ a. (map given_item_view a.items.items ≡ given_item_view item ∷ NotAsExpected other ∷ [])
        × (a.status ≡ Status.Unexpected)) }
{
    let mut items = Vec::new(alloc);
    items.push(item)?;
    items.push(Item::NotAsExpected(other))?;
    Ok(Answer {
        items,
        status: Status::Unexpected,
    })
}

/// Returns what is said if every outcome that was found is as expected and there is no deadlock, by how much was found.
pub fn plain_answer(alloc: Global, extent: Extent, states: u32) -> Result<Answer, NoMemory>
    ensures { IfOk result (λ a. IsPlain states extent (map given_item_view a.items.items) a.status) }
{
    match extent {
        Extent::All { cycles: true } => unexpected(alloc, Other::Endless { fair: false }),
        Extent::All { cycles: false } | Extent::AtDeadlock => as_expected(alloc),
        Extent::TooMany => more(alloc, Bound::Configurations, states),
        Extent::TooLong => more(alloc, Bound::Picks, MAX_PICKS),
    }
}

/// Returns what is said if each run that ends is as expected and some run does not end, by what is told of fair runs.
pub fn fair_answer(alloc: Global, told: FairRuns, states: u32) -> Result<Answer, NoMemory>
    ensures { IfOk result (λ a. (map given_item_view a.items.items ≡ fair_verdict states told ∷ []) × (a.status ≡ fair_status told)) }
{
    match told {
        FairRuns::AllEnd => as_expected(alloc),
        FairRuns::SomeDoNotEnd => unexpected(alloc, Other::Endless { fair: true }),
        FairRuns::TooMany => more(alloc, Bound::FairRuns, states),
    }
}

/// Returns that all is as expected.
fn as_expected(alloc: Global) -> Result<Answer, NoMemory>
    ensures { IfOk result (λ a. (map given_item_view a.items.items ≡ AsExpected ∷ []) × (a.status ≡ Status.Done)) }
{
    alone(alloc, Item::AsExpected, Status::Done)
}

/// Returns what is not as expected, and nothing else.
fn unexpected(alloc: Global, other: Other) -> Result<Answer, NoMemory>
    ensures { IfOk result (λ a. (map given_item_view a.items.items ≡ NotAsExpected other ∷ [])
        × (a.status ≡ Status.Unexpected)) }
{
    alone(alloc, Item::NotAsExpected(other), Status::Unexpected)
}

/// Returns that there is more than this of something.
fn more(alloc: Global, bound: Bound, limit: u32) -> Result<Answer, NoMemory>
    ensures { IfOk result (λ a. (map given_item_view a.items.items ≡ More bound limit ∷ [])
        × (a.status ≡ Status.Limit)) }
{
    alone(alloc, Item::More { bound, limit }, Status::Limit)
}

//! Picks that follow one another, counted.

ghost use Rattle.std.specs.Prelude.{◌≤◌, IfOk, length};
ghost use Rattle.pb_base.specs.declared.limits.TheConstants.{MAX_PICKS};
ghost use Rattle.pb_search_engine.specs.OutcomeLines.{AreCounted};

use pb_base::{NoMemory, Pick};
use pb_history::CountedPick;
use pb_picks::count_pick;
use std::alloc::Global;

/// Returns the picks, those of one arm that follow one another as one entry.
pub fn count_picks(alloc: Global, picks: &[Pick]) -> Result<Vec<CountedPick>, NoMemory>
    requires { length picks.now ≤ MAX_PICKS }
    ensures { IfOk result (λ counted. AreCounted picks.now counted.items) }
{
    let mut counted = Vec::new(alloc);
    for i in 0..picks.len() {
        count_pick(&mut counted, picks[i], 1)?;
    }
    Ok(counted)
}

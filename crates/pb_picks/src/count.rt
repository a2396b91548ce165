//! Picks that are counted as they are made.

ghost use Rattle.std.specs.Prelude.{◌≡◌, ◌+◌, ◌<◌, ◌≤◌, ◌++◌, length, replicate, OnOk, OnErr};
ghost use Rattle.pb_history.specs.Replays.{spread};
ghost use Rattle.pb_picks.specs.Counted.{AreApart};

use pb_base::limits::MAX_PICKS;
use pb_base::{NoMemory, Pick};
use pb_history::CountedPick;

/// Counts further picks of one arm, at least one: adds them to the last entry if that is of the same arm, or
/// as an entry of their own. All picks together are at most 10,000,000. If out of memory, nothing has
/// changed.
pub fn count_pick(counted: &mut Vec<CountedPick>, pick: Pick, count: u32) -> Result<(), NoMemory>
    requires some { 0 < count }
    requires fits { length (spread counted.old.items) + count ≤ MAX_PICKS }
    requires apart { AreApart counted.old.items }
    ensures picks { OnOk result (spread counted.new.items ≡ spread counted.old.items ++ replicate count pick) }
    ensures apart { OnOk result (AreApart counted.new.items) }
    ensures err { OnErr result (counted.new.items ≡ counted.old.items) }
{
    match counted.pop() {
        None => counted.push(CountedPick { pick, count })?,
        Some(last) if last.pick == pick => counted.push(CountedPick {
            pick,
            count: last.count + count,
        })?,
        Some(last) => {
            counted.push(last)?;
            counted.push(CountedPick { pick, count })?;
        }
    }
    Ok(())
}

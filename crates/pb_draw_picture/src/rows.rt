//! The rows of a picture: one for each arm that is ever live.

ghost use Rattle.std.specs.Prelude.{◌≡◌, ◌≤◌, ◌+◌, ◌*◌, ◌^◌, IfOk, length};
ghost use Rattle.pb_draw_picture.specs.Rows as spec;
ghost use Rattle.pb_draw_picture.specs.Lanes as lanes;
ghost use Rattle.pb_draw_picture.specs.Places as places;

use crate::row::Row;
use crate::sizes::{ABOVE, BELOW, BETWEEN, HOLD, LOWEST, ROW_MOST, TOP, TRACK};
use pb_base::{NoMemory, Pick};
use pb_draw::{Bar, Lane, LaneStep, Standing};
use std::alloc::Global;

impl Row {
    /// Returns where the line of the arm is.
    fn track(&self) -> u64
        ensures { result ≡ places.track_in self.now }
    {
        self.y + ABOVE
    }

    /// Returns how high the row is.
    fn height(&self) -> u64
        ensures height { result ≡ spec.height_in self.now }
        ensures low { result ≤ ROW_MOST }
    {
        if self.shown {
            ABOVE + TRACK + BETWEEN + self.deepest * HOLD + BELOW
        } else {
            0
        }
    }
}

/// Returns whether both are of one arm of one process.
fn is_arm(a: Pick, b: Pick) -> bool
    ensures { result ≡ places.is_arm a b }
{
    a.process == b.process && a.arm == b.arm
}

/// Returns where the line of an arm is.
pub(crate) fn track_of(rows: &[Row], pick: Pick) -> u64
    ensures y { result ≡ places.track_of rows.now pick }
    ensures high { result ≤ 2 ^ 63 }
{
    for row in rows {
        if is_arm(row.pick, pick) {
            return row.track();
        }
    }
    0
}

/// Returns whether an arm is live from a step on.
fn is_live(step: &LaneStep) -> bool
    ensures { result ≡ lanes.is_live step.now.standing }
{
    match &step.standing {
        Standing::Away => false,
        Standing::Going => true,
        Standing::Short => true,
        Standing::KeptBack(_) => true,
    }
}

/// Returns whether an arm is ever live.
pub(crate) fn is_ever_live(lane: &Lane) -> bool
    ensures { result ≡ lanes.is_ever_live lane.now }
{
    for step in &lane.steps {
        if is_live(step) {
            return true;
        }
    }
    false
}

/// Returns for how many holds, one below the other, an arm needs room because of a hold.
fn room_of(pick: Pick, bar: &Bar) -> u64
    ensures room { result ≡ spec.room_of pick bar.now }
    ensures few { result ≤ 2 ^ 32 }
{
    if is_arm(pick, bar.pick) {
        u64::from(bar.depth) + 1
    } else {
        0
    }
}

/// Returns for how many holds, one below the other, an arm needs room.
fn room_for(pick: Pick, bars: &[Bar]) -> u64
    ensures room { result ≡ spec.room_for pick bars.now }
    ensures few { result ≤ 2 ^ 32 }
{
    let mut room: u64 = 0;
    for bar in bars {
        room = room.max(room_of(pick, bar));
    }
    room
}

/// Returns the row of an arm at a height.
fn row_at(y: u64, lane: &Lane, bars: &[Bar]) -> Row
    requires { y ≤ LOWEST }
    ensures row { spec.IsRowOf lane.now bars.now result }
    ensures y { result.y ≡ y }
{
    Row {
        pick: lane.pick,
        y,
        shown: is_ever_live(lane),
        deepest: room_for(lane.pick, bars),
    }
}

/// Returns the rows of arms, one below the other, and where they end.
pub(crate) fn rows_of(
    alloc: Global,
    lanes: &[Lane],
    bars: &[Bar],
) -> Result<(Vec<Row>, u64), NoMemory>
    ensures rows { IfOk result (λ made. spec.AreRowsOf lanes.now bars.now made.0.items) }
    ensures pile { IfOk result (λ made. spec.IsPile TOP made.0.items made.1) }
    ensures low { IfOk result (λ made. made.1 ≤ TOP + length lanes.now * ROW_MOST) }
    ensures lowest { IfOk result (λ made. made.1 ≤ LOWEST) }
{
    let mut rows = Vec::new(alloc);
    let mut end = TOP;
    for i in 0..lanes.len() {
        let lane = &lanes[i];
        let row = row_at(end, lane, bars);
        end = (end + row.height()).min(LOWEST);
        rows.push(row)?;
    }
    Ok((rows, end))
}

//! Where things are in a picture.

ghost use Rattle.std.specs.Prelude.{◌≡◌, ◌≤◌, ◌+◌, ◌^◌, IfOk, length, map};
ghost use Rattle.pb_base.specs.Lines.{names_view};
ghost use Rattle.pb_code.specs.View.{labels_view};
ghost use Rattle.pb_draw_picture.specs.Axis.{AreKnots, IsAxis, IsChain};
ghost use Rattle.pb_draw_picture.specs.Axis as axis;
ghost use Rattle.pb_draw_picture.specs.Places as spec;
ghost use Rattle.pb_draw.specs.Arms.{AreDifferent};
ghost use Rattle.pb_draw_picture.specs.Rows.{AreStacked, HaveNoLine};

use crate::axis::{axis_of, x_of};
use crate::knot::Knot;
use crate::row::Row;
use crate::rows::{rows_of, track_of};
use crate::sizes::{BETWEEN, CHARACTER, HOLD, LOWEST, MAX_NAME, MAX_ROWS, NAME_SIDE, TOP, TRACK};
use pb_base::{Names, NoMemory, Pick};
use pb_code::Labels;
use pb_draw::{Bar, Drawing};
use std::alloc::Global;

/// The axis, the position at which it ends, the rows of the arms, and where the rows end.
#[derive(Drop)]
pub(crate) struct Grid {
    pub knots: Vec<Knot>,
    pub end: u64,
    pub rows: Vec<Row>,
    pub bottom: u64,
}

impl Grid {
    /// Returns where a position begins.
    pub(crate) fn x(&self, position: u64) -> u64
        requires { IsChain self.now.knots.items }
        ensures x { result ≡ (spec.places_of self.now).x position }
        ensures near { result ≤ 2 ^ 44 }
    {
        x_of(&self.knots, position)
    }

    /// Returns where the time of the run ends.
    pub(crate) fn right(&self) -> u64
        requires { IsChain self.now.knots.items }
        ensures x { result ≡ (spec.places_of self.now).right }
        ensures near { result ≤ 2 ^ 44 }
    {
        x_of(&self.knots, self.end)
    }

    /// Returns where a position begins, or where the time ends.
    pub(crate) fn x_or_end(&self, position: Option<u64>) -> u64
        requires { IsChain self.now.knots.items }
        ensures x { result ≡ spec.end_of (spec.places_of self.now) position }
    {
        match position {
            None => self.right(),
            Some(position) => self.x(position),
        }
    }

    /// Returns the top of the line of an arm.
    pub(crate) fn line(&self, pick: Pick) -> u64
        ensures y { result ≡ (spec.places_of self.now).line pick }
        ensures high { result ≤ 2 ^ 63 }
    {
        track_of(&self.rows, pick)
    }

    /// Returns where the bar of a hold is.
    pub(crate) fn hold_y(&self, bar: &Bar) -> u64
        ensures y { result ≡ spec.hold_y (spec.places_of self.now) bar.now }
        ensures high { result ≤ 2 ^ 63 + 2 ^ 40 }
    {
        self.line(bar.pick) + TRACK + BETWEEN + depth_of(bar) * HOLD
    }
}

/// Returns in how many others of its arm a hold is.
fn depth_of(bar: &Bar) -> u64
    ensures depth { result ≡ bar.now.depth }
    ensures few { result ≤ 2 ^ 32 }
{
    u64::from(bar.depth)
}

/// Returns how many characters the longest of some names has.
fn longest(names: &[Vec<u8>]) -> u64
    ensures { result ≡ axis.longest (map (λ name. name.items) names.now) }
{
    let mut most: u64 = 0;
    for name in names {
        most = most.max(name.len() as u64);
    }
    most
}

/// Returns where time begins, to the right of all names.
fn left_of(names: &Names) -> u64
    ensures x { result ≡ axis.left_of (names_view names.now) }
    ensures near { result ≤ 1000 }
{
    let characters = longest(&names.processes).max(longest(&names.resources));
    characters.min(MAX_NAME) * CHARACTER + NAME_SIDE
}

/// Returns where things are in the picture of a drawing.
pub(crate) fn grid_of(
    alloc: Global,
    names: &Names,
    labels: &Labels,
    drawing: &Drawing,
) -> Result<Grid, NoMemory>
    ensures knots { IfOk result (λ grid. AreKnots (names_view names.now) (labels_view labels.now) drawing.now.picks
        (axis.left_of (names_view names.now)) drawing.now.marks.items grid.knots.items) }
    ensures chain { IfOk result (λ grid. IsChain grid.knots.items) }
    ensures axis { IfOk result (λ grid. IsAxis drawing.now.marks.items (spec.places_of grid).x) }
    ensures end { IfOk result (λ grid. grid.end ≡ drawing.now.picks + 1) }
    ensures bottom { IfOk result (λ grid. grid.bottom ≤ LOWEST) }
    ensures rows { IfOk result (λ grid. AreDifferent (map (λ lane. lane.pick) drawing.now.lanes.items)
        → length drawing.now.lanes.items ≤ MAX_ROWS → AreStacked (spec.places_of grid) drawing.now.bars.items TOP drawing.now.lanes.items grid.bottom) }
    ensures others { IfOk result (λ grid. HaveNoLine (spec.places_of grid) drawing.now.lanes.items) }
{
    let knots = axis_of(
        alloc,
        names,
        labels,
        &drawing.marks,
        drawing.picks,
        left_of(names),
    )?;
    let (rows, bottom) = rows_of(alloc, &drawing.lanes, &drawing.bars)?;
    Ok(Grid {
        knots,
        end: u64::from(drawing.picks) + 1,
        rows,
        bottom,
    })
}

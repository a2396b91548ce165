//! The lines of the arms, and their names.

ghost use Rattle.std.specs.Prelude.{◌≡◌, ◌≤◌, ◌++◌, ◌^◌, IfOk, OnOk, map};
ghost use Rattle.pb_base.specs.Lines.{names_view};
ghost use Rattle.pb_draw_picture.specs.Axis.{IsChain};
ghost use Rattle.pb_draw_picture.specs.Lanes as spec;
ghost use Rattle.pb_draw_picture.specs.Places.{places_of};
ghost use Rattle.pb_draw_picture.specs.Shapes.{if_wide, rect_to, text_of};

use crate::captions::arm_text;
use crate::grid::Grid;
use crate::picture::{Label, LabelKind, Rect, RectKind};
use crate::rows::is_ever_live;
use crate::shapes::{add_if_wide, rect_to};
use crate::sizes::{AGAIN, AGAIN_UP, MARGIN, TRACK};
use pb_base::{Names, NoMemory};
use pb_draw::{Lane, LaneStep, Standing};
use std::alloc::Global;

/// Adds the line of an arm in a state: none unless it is live, and none here if it is kept back.
fn add_line_in(
    rects: &mut Vec<Rect>,
    standing: &Standing,
    x: u64,
    to: u64,
    y: u64,
) -> Result<(), NoMemory>
    ensures { OnOk result (rects.new.items ≡ rects.old.items ++ spec.line_in standing.now x to y) }
{
    match standing {
        Standing::Away => Ok(()),
        Standing::Going => add_if_wide(rects, rect_to(RectKind::Going, x, to, y, TRACK)),
        Standing::Short => add_if_wide(rects, rect_to(RectKind::Short, x, to, y, TRACK)),
        Standing::KeptBack(_) => Ok(()),
    }
}

/// Returns where the first of some steps is, if there is one.
pub(crate) fn next_of(steps: &[LaneStep]) -> Option<u64>
    ensures { result ≡ spec.next_of steps.now }
{
    match steps.first() {
        Some(step) => Some(u64::from(step.at)),
        None => None,
    }
}

/// Adds the line of an arm at a height.
fn add_lines_in(
    rects: &mut Vec<Rect>,
    grid: &Grid,
    y: u64,
    steps: &[LaneStep],
) -> Result<(), NoMemory>
    requires { IsChain grid.now.knots.items }
    ensures { OnOk result (rects.new.items ≡ rects.old.items ++ spec.lines_in (places_of grid.now) y steps.now) }
{
    for i in 0..steps.len() {
        let step = &steps[i];
        let x = grid.x(u64::from(step.at));
        let to = grid.x_or_end(next_of(&steps[i + 1..]));
        add_line_in(rects, &step.standing, x, to, y)?;
    }
    Ok(())
}

/// Adds the lines of arms.
pub(crate) fn add_lines(rects: &mut Vec<Rect>, grid: &Grid, lanes: &[Lane]) -> Result<(), NoMemory>
    requires { IsChain grid.now.knots.items }
    ensures { OnOk result (rects.new.items ≡ rects.old.items ++ spec.lines (places_of grid.now) lanes.now) }
{
    for i in 0..lanes.len() {
        let lane = &lanes[i];
        add_lines_in(rects, grid, grid.line(lane.pick), &lane.steps)?;
    }
    Ok(())
}

/// Returns the name of an arm, before its line.
fn name_of(alloc: Global, names: &Names, grid: &Grid, lane: &Lane) -> Result<Label, NoMemory>
    ensures { IfOk result (λ l. text_of l ≡ spec.name_of_lane (names_view names.now) (places_of grid.now) lane.now) }
{
    let text = arm_text(alloc, names, lane.pick)?;
    Ok(Label {
        kind: LabelKind::Name,
        x: MARGIN,
        y: grid.line(lane.pick) + TRACK,
        text,
    })
}

/// Returns the name of an arm once more, above its line, at the place with this number.
fn name_again(
    alloc: Global,
    names: &Names,
    grid: &Grid,
    lane: &Lane,
    k: u64,
) -> Result<Label, NoMemory>
    requires { k ≤ 2 ^ 45 }
    ensures { IfOk result (λ l. text_of l ≡ spec.name_again (names_view names.now) (places_of grid.now) lane.now k) }
{
    let text = arm_text(alloc, names, lane.pick)?;
    Ok(Label {
        kind: LabelKind::Again,
        x: k * AGAIN,
        y: grid.line(lane.pick).saturating_sub(AGAIN_UP),
        text,
    })
}

/// Adds the name of an arm once more at each of these places.
fn add_again(
    alloc: Global,
    names: &Names,
    grid: &Grid,
    lane: &Lane,
    places: u64,
    labels: &mut Vec<Label>,
) -> Result<(), NoMemory>
    requires { places ≤ 2 ^ 44 }
    ensures { OnOk result (map text_of labels.new.items ≡
        map text_of labels.old.items ++ spec.names_again (names_view names.now) (places_of grid.now) lane.now places) }
{
    for k in 0..places {
        let name = name_again(alloc, names, grid, lane, k + 1)?;
        labels.push(name)?;
    }
    Ok(())
}

/// Adds the names of an arm, if it is ever live: one before its line, and one at each place along it.
fn add_names_of(
    alloc: Global,
    names: &Names,
    grid: &Grid,
    lane: &Lane,
    labels: &mut Vec<Label>,
) -> Result<(), NoMemory>
    requires { IsChain grid.now.knots.items }
    ensures { OnOk result (map text_of labels.new.items ≡
        map text_of labels.old.items ++ spec.names_of_lane (names_view names.now) (places_of grid.now) lane.now) }
{
    if is_ever_live(lane) {
        let name = name_of(alloc, names, grid, lane)?;
        labels.push(name)?;
        add_again(alloc, names, grid, lane, grid.right() / AGAIN, labels)?;
    }
    Ok(())
}

/// Adds the names of the arms that are ever live.
pub(crate) fn add_names(
    alloc: Global,
    names: &Names,
    grid: &Grid,
    lanes: &[Lane],
    labels: &mut Vec<Label>,
) -> Result<(), NoMemory>
    requires { IsChain grid.now.knots.items }
    ensures { OnOk result (map text_of labels.new.items ≡
        map text_of labels.old.items ++ spec.lane_names (names_view names.now) (places_of grid.now) lanes.now) }
{
    for i in 0..lanes.len() {
        add_names_of(alloc, names, grid, &lanes[i], labels)?;
    }
    Ok(())
}

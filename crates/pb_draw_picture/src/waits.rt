//! Arms that are kept back: their lines, and who could not finish.

ghost use Rattle.std.specs.Prelude.{◌≡◌, ◌++◌, IfOk, OnOk, map};
ghost use Rattle.pb_base.specs.Lines.{names_view};
ghost use Rattle.pb_draw_picture.specs.Axis.{IsChain};
ghost use Rattle.pb_draw_picture.specs.Lanes.{next_of as next_at};
ghost use Rattle.pb_draw_picture.specs.Places.{end_of, places_of};
ghost use Rattle.pb_draw_picture.specs.Shapes.{stretch_of};
ghost use Rattle.pb_draw_picture.specs.Waits as spec;

use crate::captions::{kept_text, room_text};
use crate::grid::Grid;
use crate::lanes::next_of;
use crate::picture::{RectKind, Wait};
use crate::shapes::rect_to;
use crate::sizes::{TRACK, WAIT_UP};
use pb_base::{Names, NoMemory, Pick};
use pb_draw::{Lane, LaneStep, Standing};
use std::alloc::Global;

/// Where the line of an arm is, and up to where there is room above it.
#[derive(Clone, Copy)]
struct Span {
    x: u64,
    to: u64,
    free: u64,
    y: u64,
}

/// Returns the line of an arm that is kept back, since these could not finish.
fn wait_at(
    alloc: Global,
    names: &Names,
    arm: Pick,
    span: Span,
    rest: &[u8],
) -> Result<Wait, NoMemory>
    ensures { IfOk result (λ w. stretch_of w ≡ spec.wait_at (names_view names.now) arm span.x span.to span.free span.y rest.now) }
{
    let title = kept_text(alloc, names, arm, rest)?;
    let label = room_text(alloc, names, span.free.saturating_sub(span.x), rest)?;
    Ok(Wait {
        rect: rect_to(RectKind::KeptBack, span.x, span.to, span.y, TRACK),
        title,
        label,
        label_x: span.x,
        label_y: span.y.saturating_sub(WAIT_UP),
    })
}

/// Returns where the first of some steps is in which an arm is kept back, if there is one.
fn next_kept(steps: &[LaneStep]) -> Option<u64>
    ensures { result ≡ spec.next_kept steps.now }
{
    for step in steps {
        if let Standing::KeptBack(_) = &step.standing {
            return Some(u64::from(step.at));
        }
    }
    None
}

/// Adds the line of an arm at a step, before these further steps, if it is kept back there and the line has a width.
fn add_wait_in(
    alloc: Global,
    names: &Names,
    grid: &Grid,
    arm: Pick,
    step: &LaneStep,
    later: &[LaneStep],
    waits: &mut Vec<Wait>,
) -> Result<(), NoMemory>
    requires { IsChain grid.now.knots.items }
    ensures { OnOk result (map stretch_of waits.new.items ≡ map stretch_of waits.old.items
        ++ spec.wait_in (names_view names.now) (places_of grid.now) arm step.now.standing ((places_of grid.now).x step.now.at)
        (end_of (places_of grid.now) (next_at later.now)) later.now) }
{
    if let Standing::KeptBack(rest) = &step.standing {
        let x = grid.x(u64::from(step.at));
        let to = grid.x_or_end(next_of(later));
        if x < to {
            let free = grid.x_or_end(next_kept(later));
            let y = grid.line(arm);
            let wait = wait_at(alloc, names, arm, Span { x, to, free, y }, rest)?;
            waits.push(wait)?;
        }
    }
    Ok(())
}

/// Adds the lines of an arm where it is kept back.
fn add_waits_in(
    alloc: Global,
    names: &Names,
    grid: &Grid,
    arm: Pick,
    steps: &[LaneStep],
    waits: &mut Vec<Wait>,
) -> Result<(), NoMemory>
    requires { IsChain grid.now.knots.items }
    ensures { OnOk result (map stretch_of waits.new.items ≡ map stretch_of waits.old.items
        ++ spec.waits_in (names_view names.now) (places_of grid.now) arm steps.now) }
{
    for i in 0..steps.len() {
        add_wait_in(alloc, names, grid, arm, &steps[i], &steps[i + 1..], waits)?;
    }
    Ok(())
}

/// Adds the lines of arms where they are kept back.
fn add_waits(
    alloc: Global,
    names: &Names,
    grid: &Grid,
    lanes: &[Lane],
    waits: &mut Vec<Wait>,
) -> Result<(), NoMemory>
    requires { IsChain grid.now.knots.items }
    ensures { OnOk result (map stretch_of waits.new.items ≡ map stretch_of waits.old.items
        ++ spec.waits (names_view names.now) (places_of grid.now) lanes.now) }
{
    for i in 0..lanes.len() {
        let lane = &lanes[i];
        add_waits_in(alloc, names, grid, lane.pick, &lane.steps, waits)?;
    }
    Ok(())
}

/// Returns the lines of arms where they are kept back.
pub(crate) fn waits_of(
    alloc: Global,
    names: &Names,
    grid: &Grid,
    lanes: &[Lane],
) -> Result<Vec<Wait>, NoMemory>
    requires { IsChain grid.now.knots.items }
    ensures { IfOk result (λ waits. map stretch_of waits.items ≡ spec.waits (names_view names.now) (places_of grid.now) lanes.now) }
{
    let mut waits = Vec::new(alloc);
    add_waits(alloc, names, grid, lanes, &mut waits)?;
    Ok(waits)
}

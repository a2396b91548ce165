//! The bars of the holds, and their bundles.

ghost use Rattle.std.specs.Prelude.{◌≡◌, ◌≤◌, ◌++◌, ◌^◌, IfOk, OnOk, map};
ghost use Rattle.pb_base.specs.Lines.{names_view};
ghost use Rattle.pb_draw_picture.specs.Axis.{IsChain};
ghost use Rattle.pb_draw_picture.specs.Holds as spec;
ghost use Rattle.pb_draw_picture.specs.Places.{places_of};
ghost use Rattle.pb_draw_picture.specs.Shapes.{text_of};

use crate::captions::bundle_text;
use crate::grid::Grid;
use crate::picture::{Label, LabelKind, Rect, RectKind};
use crate::shapes::rect_to;
use crate::sizes::{BAR, BUNDLE_DOWN, BUNDLE_RIGHT};
use pb_base::{Bundle, Names, NoMemory};
use pb_draw::Bar;
use std::alloc::Global;

/// Returns the position after a pick, if there is one.
fn behind(at: Option<u32>) -> Option<u64>
    ensures { result ≡ spec.behind at }
{
    match at {
        None => None,
        Some(at) => Some(u64::from(at) + 1),
    }
}

/// Returns the resource whose colour the bar of a hold has: the first of its bundle.
fn colour_of(bundle: &Bundle) -> usize
    ensures { result ≡ spec.colour_of bundle.now }
{
    if bundle.len() == 0 {
        return 0;
    }
    usize::from(bundle.get(0).resource)
}

/// Returns the bar of a hold.
fn hold_at(grid: &Grid, bar: &Bar) -> Rect
    requires { IsChain grid.now.knots.items }
    ensures { result ≡ spec.hold_at (places_of grid.now) bar.now }
{
    let x = grid.x(u64::from(bar.taken) + 1);
    let to = grid.x_or_end(behind(bar.returned));
    rect_to(
        RectKind::Hold(colour_of(&bar.bundle)),
        x,
        to,
        grid.hold_y(bar),
        BAR,
    )
}

/// Adds the bars of holds.
pub(crate) fn add_holds(rects: &mut Vec<Rect>, grid: &Grid, bars: &[Bar]) -> Result<(), NoMemory>
    requires { IsChain grid.now.knots.items }
    ensures { OnOk result (rects.new.items ≡ rects.old.items ++ spec.holds (places_of grid.now) bars.now) }
{
    for i in 0..bars.len() {
        let hold = hold_at(grid, &bars[i]);
        rects.push(hold)?;
    }
    Ok(())
}

/// Returns the bundle of a hold, in its bar.
fn bundle_at(alloc: Global, names: &Names, grid: &Grid, bar: &Bar) -> Result<Label, NoMemory>
    requires { IsChain grid.now.knots.items }
    ensures { IfOk result (λ l. text_of l ≡ spec.bundle_at (names_view names.now) (places_of grid.now) bar.now) }
{
    let text = bundle_text(alloc, names, &bar.bundle)?;
    Ok(Label {
        kind: LabelKind::Bundle,
        x: grid.x(u64::from(bar.taken) + 1) + BUNDLE_RIGHT,
        y: grid.hold_y(bar) + BUNDLE_DOWN,
        text,
    })
}

/// Adds the bundles of holds.
pub(crate) fn add_bundles(
    alloc: Global,
    names: &Names,
    grid: &Grid,
    bars: &[Bar],
    labels: &mut Vec<Label>,
) -> Result<(), NoMemory>
    requires { IsChain grid.now.knots.items }
    ensures { OnOk result (map text_of labels.new.items ≡
        map text_of labels.old.items ++ spec.bundles (names_view names.now) (places_of grid.now) bars.now) }
{
    for i in 0..bars.len() {
        let bundle = bundle_at(alloc, names, grid, &bars[i])?;
        labels.push(bundle)?;
    }
    Ok(())
}

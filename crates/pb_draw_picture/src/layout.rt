//! Where each shape of a picture is.

ghost use Rattle.std.specs.Prelude.{◌≡◌, ◌≤◌, ◌+◌, All, IfOk, length, map};
ghost use Rattle.pb_base.specs.Lines.{names_view};
ghost use Rattle.pb_code.specs.View.{labels_view};
ghost use Rattle.pb_draw.specs.Marks.{IsNamed};
ghost use Rattle.pb_draw_picture.specs.Axis.{IsChain};
ghost use Rattle.pb_draw_picture.specs.Pictures as spec;
ghost use Rattle.pb_draw_picture.specs.Places.{places_of};
ghost use Rattle.pb_draw_picture.specs.Shapes.{text_of};

use crate::curves::{add_curve_texts, add_curves};
use crate::grid::{Grid, grid_of};
use crate::grounds::{add_notes, gaps_of, silents_of};
use crate::heads::{add_head, head_of, width_for};
use crate::holds::{add_bundles, add_holds};
use crate::lanes::{add_lines, add_names};
use crate::marks::{add_numbers, marks_of};
use crate::picture::{Label, Picture, Rect};
use crate::sizes::{BOTTOM, CURVE_ROW, LOWEST};
use crate::waits::waits_of;
use pb_base::{Capital, Names, NoMemory};
use pb_circles::Link;
use pb_code::Labels;
use pb_draw::Drawing;
use std::alloc::Global;

/// Returns where the rows of the arms and of the resources end.
fn foot_of_all(grid: &Grid, capital: &Capital, drawing: &Drawing) -> u64
    requires bottom { grid.now.bottom ≤ LOWEST }
    requires curves { length drawing.now.curves.items ≡ length capital.now }
    ensures foot { result ≡ spec.foot_of_all (places_of grid.now) drawing.now }
    ensures high { result ≤ LOWEST + 100000 }
{
    let _few = capital.resources();
    grid.bottom + drawing.curves.len() as u64 * CURVE_ROW
}

/// Returns the rectangles of a drawing.
fn rects_of(
    alloc: Global,
    capital: &Capital,
    grid: &Grid,
    drawing: &Drawing,
) -> Result<Vec<Rect>, NoMemory>
    requires chain { IsChain grid.now.knots.items }
    requires bottom { grid.now.bottom ≤ LOWEST }
    requires curves { length drawing.now.curves.items ≡ length capital.now }
    ensures { IfOk result (λ rects. spec.AreRects capital.now drawing.now (places_of grid.now) grid.now.knots.items rects.items) }
{
    let foot = foot_of_all(grid, capital, drawing);
    let mut rects = gaps_of(alloc, &grid.knots, foot)?;
    add_lines(&mut rects, grid, &drawing.lanes)?;
    add_holds(&mut rects, grid, &drawing.bars)?;
    add_curves(&mut rects, grid, capital, &drawing.curves)?;
    Ok(rects)
}

/// Returns the texts of a drawing.
fn labels_of(
    alloc: Global,
    names: &Names,
    capital: &Capital,
    grid: &Grid,
    drawing: &Drawing,
    head: Vec<u8>,
) -> Result<Vec<Label>, NoMemory>
    requires chain { IsChain grid.now.knots.items }
    requires bottom { grid.now.bottom ≤ LOWEST }
    requires curves { length drawing.now.curves.items ≡ length capital.now }
    ensures { IfOk result (λ labels.
        spec.AreTexts (names_view names.now) capital.now drawing.now head.items (places_of grid.now) grid.now.knots.items (map text_of labels.items)) }
{
    let mut labels = silents_of(alloc, &grid.knots)?;
    add_numbers(alloc, grid, &drawing.marks, &mut labels)?;
    add_names(alloc, names, grid, &drawing.lanes, &mut labels)?;
    add_bundles(alloc, names, grid, &drawing.bars, &mut labels)?;
    add_curve_texts(alloc, names, grid, capital, &drawing.curves, &mut labels)?;
    let foot = foot_of_all(grid, capital, drawing);
    add_notes(alloc, foot, drawing.integers, &mut labels)?;
    add_head(head, &mut labels)?;
    Ok(labels)
}

/// Returns the picture of a drawing, with the names, the labels and the capital of its code, and whether its run ends in a
/// deadlock, with the circular wait that is told then.
pub fn lay_out(
    alloc: Global,
    names: &Names,
    labels: &Labels,
    capital: &Capital,
    drawing: &Drawing,
    deadlock: bool,
    circle: &[Link],
) -> Result<Picture, NoMemory>
    requires named { All (λ m. IsNamed (names_view names.now) m.what) drawing.now.marks.items }
    requires curves { length drawing.now.curves.items ≡ length capital.now }
    requires resources { length (names_view names.now).resources ≡ length capital.now }
    ensures { IfOk result (spec.IsLayout (names_view names.now) (labels_view labels.now) capital.now drawing.now deadlock circle.now) }
{
    let grid = grid_of(alloc, names, labels, drawing)?;
    let rects = rects_of(alloc, capital, &grid, drawing)?;
    let waits = waits_of(alloc, names, &grid, &drawing.lanes)?;
    let head = head_of(alloc, names, deadlock, circle)?;
    let width = width_for(grid.right(), head.as_slice());
    let texts = labels_of(alloc, names, capital, &grid, drawing, head)?;
    let ticks = marks_of(alloc, names, labels, &grid, &drawing.marks)?;
    Ok(Picture {
        width,
        height: foot_of_all(&grid, capital, drawing) + BOTTOM,
        rects,
        waits,
        labels: texts,
        ticks,
    })
}

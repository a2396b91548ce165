//! The curves of the resources, with their names and amounts.

ghost use Rattle.std.specs.Prelude.{◌≡◌, ◌≤◌, ◌<◌, ◌++◌, ◌∷◌, [], ◌*◌, ◌^◌, IfOk, OnOk, length, map, slice_index};
ghost use Rattle.pb_base.specs.Lines.{names_view};
ghost use Rattle.pb_draw_picture.specs.Axis.{IsChain};
ghost use Rattle.pb_draw_picture.specs.Curves as spec;
ghost use Rattle.pb_draw_picture.specs.Places.{places_of};
ghost use Rattle.pb_draw_picture.specs.Shapes.{text_of};

use crate::captions::{number_text, resource_text};
use crate::grid::Grid;
use crate::picture::{Label, LabelKind, Rect, RectKind};
use crate::shapes::rect_to;
use crate::sizes::{AMOUNT_RIGHT, AMOUNT_UP, CURVE, CURVE_ROW, LEVEL, LEVEL_UP, LOWEST, MARGIN};
use pb_base::{Capital, Names, NoMemory};
use pb_draw::{CashCurve, CashStep};
use std::alloc::Global;

/// Returns how high an amount is drawn.
fn height_of(capital: u32, cash: u32) -> u64
    ensures { result ≡ spec.height_of capital cash }
{
    u64::from(cash) * CURVE / u64::from(capital.max(1))
}

/// Returns where the row of a resource ends.
pub(crate) fn foot_of(grid: &Grid, r: usize) -> u64
    requires bottom { grid.now.bottom ≤ LOWEST }
    requires few { r ≤ 1000 }
    ensures foot { result ≡ spec.foot_of (places_of grid.now) r }
{
    grid.bottom + (r as u64 + 1) * CURVE_ROW
}

/// Returns where the first of some steps is, if there is one.
fn next_of(steps: &[CashStep]) -> Option<u64>
    ensures { result ≡ spec.next_of steps.now }
{
    match steps.first() {
        Some(step) => Some(u64::from(step.at)),
        None => None,
    }
}

/// Adds the curve of resource r.
fn add_curve(
    rects: &mut Vec<Rect>,
    grid: &Grid,
    r: usize,
    capital: u32,
    foot: u64,
    steps: &[CashStep],
) -> Result<(), NoMemory>
    requires { IsChain grid.now.knots.items }
    ensures { OnOk result (rects.new.items ≡ rects.old.items ++ spec.curve_in (places_of grid.now) r capital foot steps.now) }
{
    for i in 0..steps.len() {
        let step = steps[i];
        let x = grid.x(u64::from(step.at));
        let to = grid.x_or_end(next_of(&steps[i + 1..]));
        let height = height_of(capital, step.cash);
        let top = foot.saturating_sub(height);
        rects.push(rect_to(RectKind::Cash(r), x, to, top, height))?;
        rects.push(rect_to(RectKind::Level, x, to, top.saturating_sub(LEVEL_UP), LEVEL))?;
    }
    Ok(())
}

/// Adds the curves of resources.
pub(crate) fn add_curves(
    rects: &mut Vec<Rect>,
    grid: &Grid,
    capital: &Capital,
    curves: &[CashCurve],
) -> Result<(), NoMemory>
    requires chain { IsChain grid.now.knots.items }
    requires bottom { grid.now.bottom ≤ LOWEST }
    requires many { length curves.now ≡ length capital.now }
    ensures { OnOk result (rects.new.items ≡ rects.old.items ++ spec.curves_from (places_of grid.now) capital.now 0 curves.now) }
{
    let _few = capital.resources();
    for r in 0..curves.len() {
        let curve = &curves[r];
        add_curve(
            rects,
            grid,
            r,
            capital.get(r),
            foot_of(grid, r),
            &curve.steps,
        )?;
    }
    Ok(())
}

/// Returns the amount at a step.
fn amount_at(
    alloc: Global,
    grid: &Grid,
    capital: u32,
    foot: u64,
    step: &CashStep,
) -> Result<Label, NoMemory>
    requires { IsChain grid.now.knots.items }
    ensures { IfOk result (λ l. text_of l ≡ spec.amount_at (places_of grid.now) capital foot step.now) }
{
    let text = number_text(alloc, u64::from(step.cash), b"")?;
    let top = foot.saturating_sub(height_of(capital, step.cash));
    Ok(Label {
        kind: LabelKind::Amount,
        x: grid.x(u64::from(step.at)) + AMOUNT_RIGHT,
        y: top.saturating_sub(AMOUNT_UP),
        text,
    })
}

/// Returns the name of a resource.
fn name_at(
    alloc: Global,
    names: &Names,
    grid: &Grid,
    r: usize,
    capital: u32,
) -> Result<Label, NoMemory>
    requires bottom { grid.now.bottom ≤ LOWEST }
    requires few { r ≤ 1000 }
    ensures { IfOk result (λ l. text_of l ≡ spec.name_at (names_view names.now) (places_of grid.now) r capital) }
{
    let text = resource_text(alloc, names, r, capital)?;
    Ok(Label {
        kind: LabelKind::Name,
        x: MARGIN,
        y: foot_of(grid, r),
        text,
    })
}

/// Adds the amounts of a curve.
fn add_amounts(
    alloc: Global,
    grid: &Grid,
    capital: u32,
    foot: u64,
    steps: &[CashStep],
    labels: &mut Vec<Label>,
) -> Result<(), NoMemory>
    requires { IsChain grid.now.knots.items }
    ensures { OnOk result (map text_of labels.new.items ≡
        map text_of labels.old.items ++ map (spec.amount_at (places_of grid.now) capital foot) steps.now) }
{
    for i in 0..steps.len() {
        let amount = amount_at(alloc, grid, capital, foot, &steps[i])?;
        labels.push(amount)?;
    }
    Ok(())
}

/// Adds the names and the amounts of resources.
pub(crate) fn add_curve_texts(
    alloc: Global,
    names: &Names,
    grid: &Grid,
    capital: &Capital,
    curves: &[CashCurve],
    labels: &mut Vec<Label>,
) -> Result<(), NoMemory>
    requires chain { IsChain grid.now.knots.items }
    requires bottom { grid.now.bottom ≤ LOWEST }
    requires many { length curves.now ≡ length capital.now }
    ensures { OnOk result (map text_of labels.new.items ≡
        map text_of labels.old.items ++ spec.curve_texts_from (names_view names.now) (places_of grid.now) capital.now 0 curves.now) }
{
    let _few = capital.resources();
    for r in 0..curves.len() {
        let amount = capital.get(r);
        let name = name_at(alloc, names, grid, r, amount)?;
        labels.push(name)?;
        let curve = &curves[r];
        add_amounts(alloc, grid, amount, foot_of(grid, r), &curve.steps, labels)?;
    }
    Ok(())
}

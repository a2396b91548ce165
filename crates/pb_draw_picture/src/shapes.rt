//! Rectangles.

ghost use Rattle.std.specs.Prelude.{◌≡◌, ◌++◌, OnOk};
ghost use Rattle.pb_draw_picture.specs.Shapes as spec;

use crate::picture::{Rect, RectKind};
use pb_base::NoMemory;

/// Returns the rectangle from one place to another.
pub(crate) fn rect_to(kind: RectKind, x: u64, to: u64, y: u64, height: u64) -> Rect
    ensures { result ≡ spec.rect_to kind x to y height }
{
    Rect {
        kind,
        x,
        y,
        width: to.saturating_sub(x),
        height,
    }
}

/// Adds a rectangle, if it has a width.
pub(crate) fn add_if_wide(rects: &mut Vec<Rect>, rect: Rect) -> Result<(), NoMemory>
    ensures { OnOk result (rects.new.items ≡ rects.old.items ++ spec.if_wide rect) }
{
    if 0 < rect.width {
        rects.push(rect)?;
    }
    Ok(())
}

//! Rows.

ghost use Rattle.std.specs.Prelude.{◌≤◌, ◌^◌};
ghost use Rattle.pb_draw_picture.specs.declared.sizes.TheConstants.{LOWEST};

use pb_base::Pick;

/// The row of an arm.
#[derive(Clone, Copy)]
pub(crate) struct Row {
    pub pick: Pick,
    /// Where the row begins.
    pub y: u64,
    /// Whether the arm is ever live; else the row has no height.
    pub shown: bool,
    /// The most holds that the arm has at once.
    pub deepest: u64,
    ghost low: { y ≤ LOWEST },
    ghost few: { deepest ≤ 2 ^ 32 },
}

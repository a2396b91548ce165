//! Events on the axis.

ghost use Rattle.std.specs.Prelude.{◌≤◌, ◌+◌, ◌*◌, ◌^◌};
ghost use Rattle.pb_draw_picture.specs.declared.sizes.TheConstants.{SIDE};

/// An event on the axis: the position just after it, where that begins, how wide its pick is, and how many
/// silent picks come after it. The first knot is position 0, before any pick.
#[derive(Clone, Copy)]
pub(crate) struct Knot {
    pub position: u64,
    pub x: u64,
    pub width: u64,
    pub silent: u64,
    ghost near: { x ≤ 2 ^ 43 },
    ghost wide: { SIDE ≤ width },
    ghost narrow: { width ≤ 1000 },
    ghost few: { silent ≤ 2 ^ 33 },
}

/// Where the next knot begins, and how wide its pick is: what comes after it is not known yet.
#[derive(Clone, Copy)]
pub(crate) struct Start {
    pub position: u64,
    pub x: u64,
    pub width: u64,
    ghost near: { x ≤ 1000 + 1000 * position },
    ghost early: { position ≤ 2 ^ 32 },
    ghost wide: { SIDE ≤ width },
    ghost narrow: { width ≤ 900 },
}

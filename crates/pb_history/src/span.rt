//! The type of a span, and whether two picks are of one arm.

ghost use Rattle.std.specs.Prelude.{◌≡◌};
ghost use Rattle.pb_history.specs.Entries as spec;

use pb_base::Pick;

/// Picks of one arm, one after another. If the span shows, its last pick shows an event; the others show
/// nothing.
#[derive(Clone, Copy, Debug, PartialEq, Eq)]
pub struct Span {
    pub pick: Pick,
    /// How many picks there are, from 1 to 10,000,000.
    pub count: u32,
    pub shows: bool,
}

/// Returns whether both picks are of one arm of one process.
pub(crate) fn are_same(a: Pick, b: Pick) -> bool
    ensures { result ≡ spec.are_same a b }
{
    a.process == b.process && a.arm == b.arm
}

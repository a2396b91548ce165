//! A capital that stands in place of that of a text.

ghost use Rattle.std.specs.Prelude.{◌≤◌};
ghost use Rattle.pb_base.specs.declared.limits.TheConstants.{MAX_AMOUNT as MOST};

use arrayvec::ArrayString;
use pb_base::limits::MAX_NAME;

/// A capital that stands in place of the one that a text has.
#[derive(Clone, Copy, Debug, PartialEq, Eq)]
pub struct Change {
    /// The name of the resource.
    pub resource: ArrayString<MAX_NAME>,
    /// How much of it there is.
    pub capital: u32,
    pub ghost small: { capital ≤ MOST },
}

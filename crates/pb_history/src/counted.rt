//! A pick that is made several times in turn.

use pb_base::Pick;

/// A pick, and how often it is made in turn.
#[derive(Clone, Copy, Debug, PartialEq, Eq)]
pub struct CountedPick {
    pub pick: Pick,
    pub count: u32,
}

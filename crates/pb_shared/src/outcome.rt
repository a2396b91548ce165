//! The ways in which a run ends.

/// How a run ended.
#[derive(Clone, Copy, Debug, PartialEq, Eq)]
pub enum Outcome {
    /// Every process has ended or faulted.
    Done,
    /// As many picks were made as the limit allows.
    Limit,
}

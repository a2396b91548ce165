//! A part of a claim.

/// A hold that is part of a claim: its line, and how much it takes of the resource.
#[derive(Clone, Copy, Debug, PartialEq, Eq)]
pub struct Part {
    pub line: u32,
    pub amount: u64,
}

//! Which arm of which process takes the next step.

/// A process, by its number in the order of the text, and one of its arms: 0 is the body of the process.
#[derive(Clone, Copy, Debug, PartialEq, Eq)]
pub struct Pick {
    pub process: u8,
    pub arm: u8,
}

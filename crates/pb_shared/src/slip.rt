//! The type of what a book keeps of a process.

/// What a book keeps of a process that is out: its arm, and how many picks it may make.
#[derive(Clone, Copy, Debug, PartialEq, Eq)]
pub struct Slip {
    pub arm: u8,
    pub allowance: u32,
}

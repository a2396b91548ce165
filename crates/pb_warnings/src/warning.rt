//! One warning.

/// One thing that a program is warned of, with its line in the text, from 1.
#[derive(Drop)]
pub enum Warning {
    /// A parbegin has one arm, which runs beside no other. The line is that of the parbegin.
    OneArm {
        line: usize,
    },
    /// No expression of a process has this integer of it, which is only assigned or declared.
    NeverRead {
        line: usize,
        process: Vec<u8>,
        integer: Vec<u8>,
    },
    /// A resource has more units than the claims of all processes on it together, so that some are never lent.
    NotUsed {
        line: usize,
        resource: Vec<u8>,
        claims: u64,
        capital: u64,
    },
}

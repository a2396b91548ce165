//! How it goes to tell lines as they come.

/// Whether what was heard could be told so far.
#[derive(Clone, Copy, Debug, PartialEq, Eq)]
pub enum Telling {
    /// Each line that has ended is told.
    Whole,
    /// A write failed.
    Failed,
    /// Out of memory for a line.
    NoMemory,
}

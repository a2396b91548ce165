//! The faults of a run by workers.

/// Why workers report nothing.
#[derive(Clone, Copy, Debug, PartialEq, Eq, thiserror::Error)]
pub enum RunFault {
    /// The number of workers is none of 1 to 16, the quantum none of 1 to 4,096, or the limit over
    /// 10,000,000.
    #[error("a number of workers, quantum or steps out of its range")]
    Limits,
    /// Out of memory.
    #[error("out of memory")]
    NoMemory,
    /// A thread was not started.
    #[error("a thread was not started")]
    NoThread,
    /// A stretch came back to a book that had not lent it.
    #[error("a stretch came back to a book that had not lent it")]
    Foreign,
}

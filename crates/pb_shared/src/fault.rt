//! Why a stretch did not come home with its picks.

use crate::brand::CodeBrand;
use crate::stretch::Stretch;

/// Why a stretch was not committed.
#[derive(Clone, Copy, Debug, PartialEq, Eq, thiserror::Error)]
pub enum CommitFault {
    /// The book did not lend it.
    #[error("a stretch that this book did not lend")]
    Stranger,
    /// Out of memory.
    #[error("out of memory")]
    NoMemory,
}

/// Why a stretch was not brought home with its picks. Nobody has it in hand but one that the book did not lend.
pub enum HomeFault<'v, C: CodeBrand> {
    /// The book did not lend it, so it is handed back.
    Stranger(Stretch<'v, C>),
    /// Out of memory.
    NoMemory,
}

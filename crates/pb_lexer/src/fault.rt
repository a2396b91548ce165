//! The faults of the lexer.

ghost use Rattle.std.specs.Prelude.{◌≡◌};
ghost use Rattle.pb_lexer.specs.declared.fault.LexFault.TheVariants.{NoMemory};

use std::alloc::{AllocError, AllocFailed};

/// Why a text could not be cut into tokens. Offsets count bytes of the text from 0.
#[derive(Clone, Copy, Debug, PartialEq, Eq, thiserror::Error)]
pub enum LexFault {
    /// The text is over 65,536 bytes.
    #[error("the text is over 65,536 bytes")]
    TooLong,
    /// At this offset is a byte that no text may have, or one at which no token, blank or comment begins.
    #[error("bad byte at {0}")]
    BadByte(usize),
    /// At this offset begins a number over 9223372036854775807.
    #[error("the number at {0} is over 9223372036854775807")]
    NumberTooLarge(usize),
    /// At this offset begins a name over 32 bytes.
    #[error("the name at {0} is over 32 bytes")]
    NameTooLong(usize),
    /// The allocator is out of memory.
    #[error("out of memory")]
    NoMemory,
}

impl From<AllocError> for LexFault {
    ghost from_gives = { λ _ e. e ≡ NoMemory };

    fn from(_e: AllocError) -> LexFault {
        LexFault::NoMemory
    }
}

impl<T: Drop> From<AllocFailed<T>> for LexFault {
    ghost from_gives = { λ _ e. e ≡ NoMemory };

    fn from(_e: AllocFailed<T>) -> LexFault {
        LexFault::NoMemory
    }
}

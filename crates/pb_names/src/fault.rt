//! The faults of a program's names, amounts and counts.

ghost use Rattle.std.specs.Prelude.{◌≡◌};
ghost use Rattle.pb_names.specs.declared.fault.NameFault.TheVariants.{NoMemory as no_memory};

use pb_base::NoMemory;
use std::alloc::{AllocError, AllocFailed};

/// What a program has too many of. Declarations are counted, also those of one name.
// To add or change a limit: specs/Limits, limits.rt, pb_code, pb_verifier, pb_object; docs/CHANGING.md.
#[derive(Clone, Copy, Debug, PartialEq, Eq, thiserror::Error)]
pub enum Kind {
    /// The program declares more than 64 processes.
    #[error("processes")]
    Processes,
    /// The program declares more than 16 resources.
    #[error("resources")]
    Resources,
    /// A process declares more than 64 integers.
    #[error("integers")]
    Integers,
    /// A parbegin has more than 16 arms.
    #[error("fork")]
    Fork,
    /// A process has more than 64 arms, its body counted as one.
    #[error("arms")]
    Arms,
}

/// Why a program has no numbered form. Offsets count bytes of the text from 0.
#[derive(Clone, Copy, Debug, PartialEq, Eq, thiserror::Error)]
pub enum NameFault {
    /// The program has more of these than it may have.
    #[error("too many {0}")]
    TooMany(Kind),
    /// At this offset a resource, a process or an integer of a process is declared whose name is declared
    /// before.
    #[error("name declared twice at {0}")]
    Twice(usize),
    /// At this offset a name is used that is not declared: no integer of its process, or no resource.
    #[error("unknown name at {0}")]
    Unknown(usize),
    /// At this offset is a capital over 1,000,000, or an amount of a hold that is 0 or over 1,000,000.
    #[error("amount out of range at {0}")]
    Amount(usize),
    /// At this offset a hold names a resource that it has named before.
    #[error("resource named again at {0}")]
    Repeated(usize),
    /// The allocator is out of memory.
    #[error("out of memory")]
    NoMemory,
}

impl From<NoMemory> for NameFault {
    ghost from_gives = { λ _ e. e ≡ no_memory };

    fn from(_: NoMemory) -> NameFault {
        NameFault::NoMemory
    }
}

impl From<AllocError> for NameFault {
    ghost from_gives = { λ _ e. e ≡ no_memory };

    fn from(_: AllocError) -> NameFault {
        NameFault::NoMemory
    }
}

impl<T: Drop> From<AllocFailed<T>> for NameFault {
    ghost from_gives = { λ _ e. e ≡ no_memory };

    fn from(_: AllocFailed<T>) -> NameFault {
        NameFault::NoMemory
    }
}

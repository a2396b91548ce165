//! The faults of pick lines.

ghost use Rattle.std.specs.Prelude.{◌≡◌};

use std::alloc::AllocFailed;

/// Why a text says no picks.
#[derive(Clone, Copy, Debug, PartialEq, Eq, thiserror::Error)]
pub enum PickFault {
    /// The line that begins at this byte is not of the form, or its process or its arm does not exist.
    #[error("not a pick line at {0}")]
    NotPicks(usize),
    /// The counts are more than 10,000,000 in all.
    #[error("too many picks")]
    TooMany,
    #[error("out of memory")]
    NoMemory,
}

impl<T: Drop> From<AllocFailed<T>> for PickFault {
    ghost use Rattle.pb_picks.specs.declared.fault.PickFault.TheVariants.{NoMemory as OutOfMemory};

    ghost from_gives = { λ _ fault. fault ≡ OutOfMemory };

    fn from(_: AllocFailed<T>) -> PickFault {
        PickFault::NoMemory
    }
}

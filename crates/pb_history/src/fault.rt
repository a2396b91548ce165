//! The faults of a replay.

ghost use Rattle.std.specs.Prelude.{◌≡◌};

use pb_base::NoMemory;

/// Why picks were not replayed.
#[derive(Clone, Copy, Debug, PartialEq, Eq, thiserror::Error)]
pub enum ReplayFault {
    /// The pick with this number, counted from 0, is not enabled.
    #[error("pick {0} is not enabled")]
    NotEnabled(u32),
    #[error("out of memory")]
    NoMemory,
}

impl From<NoMemory> for ReplayFault {
    ghost use Rattle.pb_history.specs.declared.fault.ReplayFault.TheVariants.{NoMemory as OutOfMemory};

    ghost from_gives = { λ _ fault. fault ≡ OutOfMemory };

    fn from(_: NoMemory) -> ReplayFault {
        ReplayFault::NoMemory
    }
}

//! What a debugger refuses.

ghost use Rattle.std.specs.Prelude.{◌≡◌};
ghost use Rattle.pb_debug.specs.declared.fault.DebugFault.TheVariants as fault;

use pb_base::NoMemory;

/// Why a call of a debugger was refused, or a session ended early.
#[derive(Clone, Copy, Debug, PartialEq, Eq, thiserror::Error)]
pub enum DebugFault {
    /// The position is past the first or the last.
    #[error("there is no such position")]
    PastEnd,
    #[error("there is no such process")]
    NoProcess,
    #[error("there is no such arm")]
    NoArm,
    /// The line is not a command.
    #[error("this is not a command")]
    BadCommand,
    #[error("out of memory")]
    NoMemory,
    /// A read or a write failed.
    #[error("a read or a write failed")]
    Device,
}

impl From<NoMemory> for DebugFault {
    ghost from_gives = { λ _ e. e ≡ fault.NoMemory };

    fn from(_: NoMemory) -> DebugFault {
        DebugFault::NoMemory
    }
}

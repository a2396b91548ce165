//! The faults of objects.

ghost use Rattle.std.specs.Prelude.{◌≡◌};
ghost use Rattle.pb_object.specs.declared.fault.ReadError.TheVariants.{Memory};
ghost use Rattle.pb_object.specs.declared.fault.ObjectFault.TheVariants.{NoMemory as Wanted};

use pb_base::NoMemory;
use std::alloc::{AllocError, AllocFailed};

/// Why a text is not an object: its first faulty line, by the offset in the text at which that line begins.
#[derive(Clone, Copy, Debug, PartialEq, Eq, thiserror::Error)]
pub enum ObjectFault {
    /// The line there is not of the form that it must have, is not ended, is missing, or comes after the end.
    #[error("not an object at {0}")]
    NotObject(usize),
    /// The line there is of its form, with a number out of range. At 0 also: the text is too long.
    #[error("out of range at {0}")]
    Limit(usize),
    /// Out of memory.
    #[error("out of memory")]
    NoMemory,
}

impl From<NoMemory> for ObjectFault {
    ghost from_gives = { λ _ e. e ≡ Wanted };

    fn from(_: NoMemory) -> ObjectFault {
        ObjectFault::NoMemory
    }
}

/// The first faulty line, by how many bytes of the text are left from its start on.
#[derive(Clone, Copy)]
pub(crate) enum Fault {
    /// It is not of the form.
    Malformed(usize),
    /// It is of the form, with a number out of range.
    Beyond(usize),
}

/// Why reading ended early.
#[derive(Drop)]
pub(crate) enum ReadError {
    Memory,
    Fault(Fault),
}

impl From<AllocError> for ReadError {
    ghost from_gives = { λ _ e. e ≡ Memory };

    fn from(_: AllocError) -> ReadError {
        ReadError::Memory
    }
}

impl<T: Drop> From<AllocFailed<T>> for ReadError {
    ghost from_gives = { λ _ e. e ≡ Memory };

    fn from(_: AllocFailed<T>) -> ReadError {
        ReadError::Memory
    }
}

impl From<NoMemory> for ReadError {
    ghost from_gives = { λ _ e. e ≡ Memory };

    fn from(_: NoMemory) -> ReadError {
        ReadError::Memory
    }
}

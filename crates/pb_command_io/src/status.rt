//! What an engine came to.

ghost use Rattle.std.specs.Prelude.{◌≡◌};
ghost use Rattle.pb_command_io.specs.Statuses.{status_number};

/// What a command came to.
// To add one: specs/Statuses, pb_tests, checks/statuses.sh, docs/FORMATS.md; docs/CHANGING.md.
#[derive(Clone, Copy, Debug, PartialEq, Eq)]
pub enum Status {
    /// All was done.
    Done,
    /// The text or the object was refused.
    Refused,
    /// The words of the call were refused, or help or the version was asked for.
    Words,
    /// The run came to its limit.
    Limit,
    /// A process faulted.
    Fault,
    /// The command was out of memory.
    Memory,
    /// A read or a write failed.
    Device,
    /// A worker's thread could not be started.
    Threads,
    /// A deadlock was found.
    Deadlock,
    /// A run is not as it was expected.
    Unexpected,
}

impl Status {
    /// Returns the exit status of the program, from 0 to 10.
    pub fn number(self) -> u8
        ensures { result ≡ status_number self }
    {
        match self {
            Status::Done => 0,
            Status::Refused => 1,
            Status::Words => 2,
            Status::Limit => 3,
            Status::Fault => 4,
            Status::Memory => 5,
            Status::Device => 6,
            Status::Threads => 7,
            Status::Deadlock => 9,
            Status::Unexpected => 10,
        }
    }
}

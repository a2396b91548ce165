//! The parts of an outcome or a deadlock.

ghost use Rattle.std.specs.Prelude.{◌≡◌};
ghost use Rattle.pb_search_engine.specs.Parts as spec;

use pb_search::{Ask, StuckState};

/// A part of an outcome or a deadlock, by the numbers of what it speaks of.
#[derive(Clone, Copy)]
pub enum Part {
    /// Where a process is.
    Stands {
        process: usize,
        state: StuckState,
    },
    /// The value of an integer of a process.
    Integer {
        process: usize,
        integer: usize,
        value: i64,
    },
    /// How much a process holds of a resource.
    Holds {
        process: usize,
        resource: usize,
        amount: u32,
    },
    /// What an arm of a process asks for.
    Asks {
        process: usize,
        ask: Ask,
    },
}

/// Parts of one kind, which are a list of an object.
#[derive(Clone, Copy, Debug, PartialEq, Eq)]
pub enum Section {
    /// Where processes are.
    Processes,
    /// Their integers.
    Integers,
    /// What they hold.
    Holds,
    /// What their arms ask for.
    Asks,
}

/// Returns whether a part is of a section.
pub fn is_of(section: Section, part: &Part) -> bool
    ensures { result ≡ spec.is_of section part.now }
{
    match section {
        Section::Processes => matches!(part, Part::Stands { .. }),
        Section::Integers => matches!(part, Part::Integer { .. }),
        Section::Holds => matches!(part, Part::Holds { .. }),
        Section::Asks => matches!(part, Part::Asks { .. }),
    }
}

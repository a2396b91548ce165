//! What commands say.

use crate::ending::Ending;
use crate::load::LoadFault;
use crate::replay::LinesFault;
use pb_base::{Event, Names};
use pb_codegen::CompileFault;
use pb_history::CountedPick;
use pb_warnings::Warning;

/// The most that a process may hold of a resource.
#[derive(Clone, Copy)]
pub struct Claim<'t> {
    pub process: &'t [u8],
    pub amount: u64,
    pub resource: &'t [u8],
}

/// An event, with the names of what it speaks of.
#[derive(Clone, Copy)]
pub struct Shown<'t> {
    pub names: &'t Names,
    pub event: &'t Event,
}

/// A run that is recorded: a text that ends in a line feed, and the picks of a run of it.
#[derive(Clone, Copy)]
pub struct Recording<'t> {
    pub text: &'t [u8],
    pub names: &'t Names,
    pub picks: &'t [CountedPick],
}

/// One thing that is said.
// To add one: specs/{Sayings,Objects,View}, `tell_line` and `tell_object`.
#[derive(Clone, Copy)]
pub enum Said<'t> {
    /// A text is accepted.
    Accepted,
    /// A text is refused, for this fault.
    Refused(&'t CompileFault),
    /// A process has this claim on a resource.
    Claim(Claim<'t>),
    /// An object is refused, for this fault.
    NoCode(LoadFault),
    /// Pick lines are refused, for this fault.
    NoPicks(LinesFault),
    /// The first format of objects can't have the code.
    BeyondFirst,
    /// A text is written as it is.
    Text(&'t [u8]),
    /// A run is recorded.
    Recorded(Recording<'t>),
    /// A run shows this event.
    Shows(Shown<'t>),
    /// A run ended so.
    Ended(Ending),
    /// A run made as many picks as it may.
    Limit(u32),
    /// An accepted text is warned of this.
    Warns(&'t Warning),
    /// A thread could not be started.
    Threads,
    /// The input is too long.
    TooLong,
    /// The output would be too long for an input.
    LongOutput,
    /// Out of memory.
    NoMemory,
}

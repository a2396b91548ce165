//! What there is to say of each refusal and each warning.
ghost use Rattle.std.specs.Prelude.{◌≡◌};
ghost use Rattle.pb_explain.specs.Entries.{entry_of};
ghost use Rattle.pb_explain.specs.Explanation.{plain_entry};

mod bank;
mod names;
mod objects;
mod runs;
mod texts;
mod warnings;

use pb_options::Code;

/// What there is to say of the refusals or warnings with one code. Its texts are lines of at most 84 bytes, with no line
/// feed after the last one.
#[derive(Clone, Copy, Debug)]
pub struct Entry {
    /// The meaning in a few words.
    pub summary: &'static str,
    /// What the refusal means.
    pub meaning: &'static str,
    /// A call that is refused or warned of so, if an input of the program can be.
    pub example: Option<Example>,
    /// What to do about it.
    pub mend: &'static str,
}

/// A call of the program that is refused, or warned of.
#[derive(Clone, Copy, Debug)]
pub struct Example {
    /// The words after the name of the program, with single spaces.
    pub command: &'static str,
    /// What the call reads.
    pub input: ExampleInput,
    /// What the call writes, without its last line feed: the refusal line; of `bank` all answers, with it among them.
    pub answer: &'static str,
}

/// What a call reads.
#[derive(Clone, Copy, Debug)]
pub enum ExampleInput {
    /// Lines, each ended by a line feed.
    Text(&'static str),
    /// The line `process p begin`, then a line that is repeated, and then the line `print 1 end`.
    Repeated {
        /// The line, without its line feed.
        line: &'static str,
        /// How often it is repeated.
        times: u32,
    },
}

/// Returns what there is to say of the refusals with this code.
pub fn entry_for(code: Code) -> Entry
    ensures { plain_entry result ≡ entry_of code }
{
    *entry_at(code)
}

/// Returns the same by reference.
fn entry_at(code: Code) -> &'static Entry
    ensures { plain_entry result.now ≡ entry_of code }
{
    match code {
        Code::L1 => &texts::L1,
        Code::L2 => &texts::L2,
        Code::L3 => &texts::L3,
        Code::L4 => &texts::L4,
        Code::P1 => &texts::P1,
        Code::P2 => &texts::P2,
        Code::P3 => &texts::P3,
        Code::N1 => &names::N1,
        Code::N2 => &names::N2,
        Code::N3 => &names::N3,
        Code::N4 => &names::N4,
        Code::N6 => &names::N6,
        Code::C1 => &names::C1,
        Code::E1 => &names::E1,
        Code::O1 => &objects::O1,
        Code::O2 => &objects::O2,
        Code::V1 => &objects::V1,
        Code::V2 => &objects::V2,
        Code::V3 => &objects::V3,
        Code::V4 => &objects::V4,
        Code::V5 => &objects::V5,
        Code::V6 => &objects::V6,
        Code::V7 => &objects::V7,
        Code::V8 => &objects::V8,
        Code::V9 => &objects::V9,
        Code::K1 => &runs::K1,
        Code::K2 => &runs::K2,
        Code::H1 => &runs::H1,
        Code::G1 => &runs::G1,
        Code::G2 => &runs::G2,
        Code::G3 => &runs::G3,
        Code::G4 => &runs::G4,
        Code::B1 => &bank::B1,
        Code::B2 => &bank::B2,
        Code::B3 => &bank::B3,
        Code::B4 => &bank::B4,
        Code::B5 => &bank::B5,
        Code::B6 => &bank::B6,
        Code::B7 => &bank::B7,
        Code::B8 => &bank::B8,
        Code::B9 => &bank::B9,
        Code::B10 => &bank::B10,
        Code::B11 => &bank::B11,
        Code::B12 => &bank::B12,
        Code::B13 => &bank::B13,
        Code::B14 => &bank::B14,
        Code::W1 => &warnings::W1,
        Code::W2 => &warnings::W2,
        Code::W3 => &warnings::W3,
        Code::Input => &texts::INPUT,
        Code::Output => &texts::OUTPUT,
    }
}

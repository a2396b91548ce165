//! Places of a file.

ghost use Rattle.std.specs.Prelude.{◌≡◌, ◌≤◌, length};
ghost use Rattle.pb_findings.specs.Findings.{IsSpotAt};

use pb_message_excerpts::place_of;

/// A place of a file.
#[derive(Drop)]
pub struct Spot {
    /// The number of its line, from 1.
    pub line: usize,
    /// The number of the byte in its line, from 1.
    pub column: usize,
    /// What is there, in words; nothing if the message says it.
    pub what: String,
}

/// Returns the place of a byte of a file, or of its end, with what is there.
pub fn spot_at(file: &[u8], at: usize, what: String) -> Spot
    requires { at ≤ length file.now }
    ensures place { IsSpotAt file.now at result }
    ensures what { result.what ≡ what }
{
    let place = place_of(file, at);
    Spot {
        line: place.line,
        column: place.column,
        what,
    }
}

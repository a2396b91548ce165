//! Texts as they are in a file.

ghost use Rattle.std.specs.Prelude.{◌≡◌, ◌≤◌, ◌-◌, length};
ghost use Rattle.pb_findings.specs.Findings.{in_file};
ghost use Rattle.pb_lexer.specs.Cutting.{line_at};

use pb_message_excerpts::place_of;

/// A text as it is in a file.
#[derive(Clone, Copy)]
pub struct Part<'t> {
    /// The bytes of the file.
    pub file: &'t [u8],
    /// The offset at which the text begins.
    pub start: usize,
    /// The bytes of the text.
    pub text: &'t [u8],
}

/// Returns the offset in the file of a byte of a text, or of its end.
pub fn offset_of(part: Part<'_>, at: usize) -> usize
    requires { part.start ≤ length part.file.now }
    ensures { result ≡ in_file part.entry.start part.entry.text.now at }
{
    part.start + at.min(part.text.len())
}

/// Returns how many lines of the file are before a text.
pub fn lines_before(part: Part<'_>) -> usize
    requires { part.start ≤ length part.file.now }
    ensures { result ≡ line_at part.entry.file.now part.entry.start - 1 }
{
    place_of(part.file, part.start).line - 1
}

//! Positions in a text, as editors count.

ghost use Rattle.std.specs.Prelude.{◌≡◌, ◌<◌, ◌≤◌, ◌^◌, Some, cond, false, length, slice_index_or};
ghost use Rattle.pb_outline.specs.Positions as spec;

/// A position in a text: a line, and a byte in it, both from 0.
#[derive(Clone, Copy, Debug, PartialEq, Eq)]
pub struct Position {
    pub line: usize,
    pub character: usize,
}

/// The beginning of a text.
const BEGINNING: Position = Position {
    line: 0,
    character: 0,
};

/// Returns whether a byte ends its line, with this one after it.
fn ends_with(byte: u8, next: u8) -> bool
    ensures { result ≡ spec.ends_line byte next }
{
    byte == b'\n' || (byte == b'\r' && next != b'\n')
}

/// Returns whether a byte of a text ends its line.
#[tactic(auto, using(crate::proofs::Offsets::ends_at, crate::proofs::Offsets::ends_last))]
fn ends_line(text: &[u8], i: usize) -> bool
    requires { i < length text.now }
    ensures { result ≡ slice_index_or (spec.line_ends text.now) i false }
{
    if i + 1 < text.len() {
        ends_with(text[i], text[i + 1])
    } else {
        ends_with(text[i], 0)
    }
}

/// Returns the position after a byte, which ends its line or not.
fn behind(position: Position, ends: bool) -> Position
    requires line { position.line < 2 ^ 63 }
    requires character { position.character < 2 ^ 63 }
    ensures { result ≡ spec.behind position ends }
{
    if ends {
        Position {
            line: position.line + 1,
            character: 0,
        }
    } else {
        Position {
            line: position.line,
            character: position.character + 1,
        }
    }
}

/// Returns the position of an offset, or of the end of the text if it is past that.
pub fn position_of(text: &[u8], offset: usize) -> Position
    ensures value { result ≡ spec.position_of text.now offset }
    ensures few_lines { result.line ≤ length text.now }
    ensures few_characters { result.character ≤ length text.now }
{
    let mut position = BEGINNING;
    for i in 0..offset.min(text.len()) {
        position = behind(position, ends_line(text, i));
    }
    position
}

/// Returns whether a position is in the line of another one, and not after that.
fn is_up_to(position: Position, here: Position) -> bool
    ensures { result ≡ spec.is_up_to position here }
{
    here.line == position.line && here.character <= position.character
}

/// Returns an offset if it is reached; else the one that was found before.
fn later_of(found: Option<usize>, reached: bool, at: usize) -> Option<usize>
    ensures { result ≡ cond reached (Some at) found }
{
    if reached { Some(at) } else { found }
}

/// Returns the offset that has a position, of a byte of the text or of its end; that of the end of its line if the
/// line is shorter, and none if there is no such line.
pub fn offset_at(text: &[u8], position: Position) -> Option<usize>
    ensures { result ≡ spec.offset_at text.now position }
{
    let mut here = BEGINNING;
    let mut found = None;
    for i in 0..text.len() {
        found = later_of(found, is_up_to(position, here), i);
        here = behind(here, ends_line(text, i));
    }
    later_of(found, is_up_to(position, here), text.len())
}

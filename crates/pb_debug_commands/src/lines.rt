//! The lines of a text.

ghost use Rattle.std.specs.Prelude.{◌≡◌, option_map};
ghost use Rattle.pb_debug_commands.specs.Lines as spec;

use crate::words::find;

/// Returns the line that a text begins with, without its line feed. There is none in an empty text.
fn first_line(text: &[u8]) -> Option<&[u8]>
    ensures { option_map (λ line. line.now) result ≡ spec.line_numbered text.now 1 }
{
    if text.is_empty() {
        return None;
    }
    match find(text, b'\n') {
        Some(end) => Some(&text[..end]),
        None => Some(text),
    }
}

/// Returns the line of a text with a number, counted from 1, without its line feed.
pub fn line_numbered(text: &[u8], number: u32) -> Option<&[u8]>
    ensures { option_map (λ line. line.now) result ≡ spec.line_numbered text.now number }
{
    let mut rest = text;
    let mut left = number;
    while 1 < left {
        let Some(end) = find(rest, b'\n') else {
            return None;
        };
        rest = &rest[end + 1..];
        left -= 1;
    }
    if left == 0 {
        return None;
    }
    first_line(rest)
}

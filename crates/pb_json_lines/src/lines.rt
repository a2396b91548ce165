//! The lines of a text.

ghost use Rattle.std.specs.Prelude.{◌≡◌, ◌<◌, ◌==◌, ◌∷◌, IfOk, IfSome, length, map};
ghost use Rattle.std.specs.List.{position};
ghost use Rattle.pb_json_lines.specs.JsonLines as spec;

use pb_base::NoMemory;
use std::alloc::Global;

/// Returns the place of the first line feed.
pub(crate) fn line_feed(text: &[u8]) -> Option<usize>
    ensures place { result ≡ position (λ b. b == 10) text.now }
    ensures within { IfSome result (λ at. at < length text.now) }
{
    text.iter().position(|b| *b == b'\n')
}

/// A line without its line feed, and what is behind it.
#[derive(Clone, Copy)]
struct Cut<'t> {
    line: &'t [u8],
    rest: &'t [u8],
}

/// Cuts off the first line of a text that is not empty.
fn first_line(text: &[u8]) -> Cut<'_>
    requires { 0 < length text.now }
    ensures lines { spec.lines_of text.now ≡ result.line.now ∷ spec.lines_of result.rest.now }
    ensures shorter { length result.rest.now < length text.now }
{
    match line_feed(text) {
        Some(at) => Cut {
            line: &text[..at],
            rest: &text[at + 1..],
        },
        None => Cut {
            line: text,
            rest: &text[text.len()..],
        },
    }
}

/// Returns the lines of a text, without their line feeds.
pub(crate) fn lines_of<'t>(alloc: Global, text: &'t [u8]) -> Result<Vec<&'t [u8]>, NoMemory>
    ensures { IfOk result (λ lines. map (λ l. l.now) lines.items ≡ spec.lines_of text.now) }
{
    let mut lines: Vec<&'t [u8]> = Vec::new(alloc);
    let mut rest = text;
    while !rest.is_empty() {
        let cut = first_line(rest);
        lines.push(cut.line)?;
        rest = cut.rest;
    }
    Ok(lines)
}

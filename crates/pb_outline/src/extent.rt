//! Where declarations begin and end.

ghost use Rattle.std.specs.Prelude.{◌≡◌};
ghost use Rattle.pb_lexer.specs.Tokens.{token, tokens};
ghost use Rattle.pb_outline.specs.Extents as spec;

use pb_lexer::{Kind, Mark, Token};

/// A part of a text, by the offsets of its first byte and after its last.
#[derive(Clone, Copy, Debug, PartialEq, Eq)]
pub struct Extent {
    pub start: usize,
    pub end: usize,
}

/// Returns whether a token is `resource` or `process`.
fn is_opening(t: &Token<'_>) -> bool
    ensures { result ≡ spec.is_opening (token t.now).lexeme }
{
    match t.kind() {
        Kind::Mark(Mark::Resource | Mark::Process) => true,
        _ => false,
    }
}

/// Returns the tokens from the one at an offset on; none if there is none.
fn tokens_from<'a, 't>(given: &'a [Token<'t>], at: usize) -> &'a [Token<'t>]
    ensures { tokens result.now ≡ spec.tokens_from at (tokens given.now) }
{
    for (i, t) in given.iter().enumerate() {
        if t.start() == at {
            return &given[i..];
        }
    }
    &[]
}

/// Returns the offset of the token before the one at an offset.
fn start_before(given: &[Token<'_>], at: usize) -> usize
    ensures { result ≡ spec.start_before at at (tokens given.now) }
{
    let mut before = at;
    for t in given {
        if t.start() == at {
            return before;
        }
        before = t.start();
    }
    before
}

/// Returns the end of the last token before the next word `resource` or `process`; an offset if none is before it.
fn end_before_opening(given: &[Token<'_>], at: usize) -> usize
    ensures { result ≡ spec.end_before_opening at (tokens given.now) }
{
    let mut end = at;
    for t in given {
        if is_opening(t) {
            return end;
        }
        end = t.end();
    }
    end
}

/// Returns where the declaration is whose name is at an offset, of a resource or a process: from its word `resource` or
/// `process` to the last token before the next such word.
pub fn extent_of(given: &[Token<'_>], at: usize) -> Extent
    ensures { result ≡ spec.extent_of (tokens given.now) at }
{
    Extent {
        start: start_before(given, at),
        end: end_before_opening(tokens_from(given, at), at),
    }
}

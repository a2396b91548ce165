//! How deep tokens nest, whatever the grammar says of them.

ghost use Rattle.std.specs.Prelude.{◌≡◌, ◌↔◌, ℕ, ◌<◌, ◌^◌, ◌+◌, List, IsTrue, MatchBool};
ghost use Rattle.pb_lexer.specs.Tokens as spec_tokens;
ghost use Rattle.pb_parser.specs.Nesting as nesting;
ghost use Rattle.pb_parser.specs.Nesting.{OpensTooMany, SignsTooMany, NestsTooDeep};

use pb_base::limits::{MAX_OPEN, MAX_SIGNS};
use pb_lexer::{Kind, Mark, Token};

/// Returns how many are open after a token of the kind, if `count` were open before it.
fn open_after(count: usize, kind: Kind) -> usize
    requires { count < 2 ^ 63 }
    ensures { (text : List ℕ) → result ≡ nesting.open_after count (spec_tokens.lexeme kind text) }
{
    match kind {
        Kind::Mark(
            Mark::Open | Mark::Begin | Mark::If | Mark::While | Mark::Hold | Mark::Parbegin,
        ) => count + 1,
        Kind::Mark(Mark::Close | Mark::End | Mark::Fi | Mark::Od | Mark::Parend) => {
            count.saturating_sub(1)
        }
        _ => count,
    }
}

/// Returns how many signs are in a row up to a token of the kind, if `count` were before it.
fn signs_after(count: usize, kind: Kind) -> usize
    requires { count < 2 ^ 63 }
    ensures { (text : List ℕ)
        → MatchBool (nesting.is_sign (spec_tokens.lexeme kind text)) (result ≡ count + 1) (result ≡ 0) }
{
    match kind {
        Kind::Mark(Mark::Minus | Mark::Not) => count + 1,
        _ => 0,
    }
}

/// Returns whether more than 256 brackets and statements are open somewhere.
fn opens_too_many(tokens: &[Token<'_>]) -> bool
    ensures { IsTrue result ↔ OpensTooMany (spec_tokens.tokens tokens.now) }
{
    let mut count = 0;
    for token in tokens {
        count = open_after(count, token.kind());
        if count > MAX_OPEN {
            return true;
        }
    }
    false
}

/// Returns whether more than 256 signs are in a row somewhere.
fn signs_too_many(tokens: &[Token<'_>]) -> bool
    ensures { IsTrue result ↔ SignsTooMany (spec_tokens.tokens tokens.now) }
{
    let mut count = 0;
    for token in tokens {
        count = signs_after(count, token.kind());
        if count > MAX_SIGNS {
            return true;
        }
    }
    false
}

/// Returns whether the tokens nest too deep.
pub(crate) fn nests_too_deep(tokens: &[Token<'_>]) -> bool
    ensures { IsTrue result ↔ NestsTooDeep (spec_tokens.tokens tokens.now) }
{
    opens_too_many(tokens) || signs_too_many(tokens)
}

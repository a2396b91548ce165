//! Whether an edit keeps all tokens of a text but one.

ghost use Rattle.std.specs.Prelude.{◌≡◌, ◌≤◌, IfOk, length, true};
ghost use Rattle.std.specs.List.{list_any};
ghost use Rattle.pb_lexer.specs.Cutting.{AreTokensOf};
ghost use Rattle.pb_lexer.specs.Tokens.{token as token_view, tokens as tokens_view};
ghost use Rattle.pb_mends.specs.Mends.{IsOfOneToken, KeepsOthers, KeepsTokens, edit_of, edited as edited_text, is_replaced, texts};

use crate::mend::Mend;
use pb_base::NoMemory;
use pb_lexer::{LexFault, Token, lex};
use std::alloc::Global;

/// Returns whether one of some tokens is what an edit from one offset up to another replaces.
fn is_token(tokens: &[Token<'_>], start: usize, end: usize) -> bool
    ensures { result ≡ true → list_any (is_replaced start end) (tokens_view tokens.now) ≡ true }
{
    for token in tokens {
        if token.start() == start && token.end() == end {
            return true;
        }
    }
    false
}

/// Returns whether an edit inserts something, or replaces one of some tokens.
fn is_of_one_token(tokens: &[Token<'_>], mend: &Mend) -> bool
    ensures { result ≡ true → IsOfOneToken (tokens_view tokens.now) (edit_of mend.now) }
{
    mend.start == mend.end || is_token(tokens, mend.start, mend.end)
}

/// Returns whether two tokens have the same bytes.
fn is_same(token: &Token<'_>, other: &Token<'_>) -> bool
    ensures { result ≡ true → (token_view token.now).text ≡ (token_view other.now).text }
{
    token.text() == other.text()
}

/// Returns whether tokens have the bytes of others, each those of the other with its number.
fn are_same(tokens: &[Token<'_>], others: &[Token<'_>]) -> bool
    ensures { result ≡ true → texts (tokens_view tokens.now) ≡ texts (tokens_view others.now) }
{
    if tokens.len() != others.len() {
        return false;
    }
    for i in 0..tokens.len() {
        if !is_same(&tokens[i], &others[i]) {
            return false;
        }
    }
    true
}

/// Returns how many tokens come before the first that differs from the one of the others with its number.
fn unchanged(tokens: &[Token<'_>], others: &[Token<'_>]) -> usize
    ensures of_these { result ≤ length tokens.now }
    ensures of_others { result ≤ length others.now }
{
    let bound = tokens.len().min(others.len());
    for i in 0..bound {
        if !is_same(&tokens[i], &others[i]) {
            return i;
        }
    }
    bound
}

/// Returns whether some tokens are these, with others in the place of one at most.
fn keeps_tokens(tokens: &[Token<'_>], after: &[Token<'_>]) -> bool
    ensures { result ≡ true → KeepsTokens (tokens_view tokens.now) (tokens_view after.now) }
{
    let number = unchanged(tokens, after);
    let behind = tokens.len().min(number + 1);
    let left = tokens.len() - behind;
    if after.len() < number + left {
        return false;
    }
    are_same(&tokens[..number], &after[..number])
        && are_same(&tokens[behind..], &after[after.len() - left..])
}

/// Returns whether an edit of a text with these tokens, which leaves the text `after`, keeps all others.
pub fn keeps_others(
    alloc: Global,
    text: &[u8],
    tokens: &[Token<'_>],
    mend: &Mend,
    after: &[u8],
) -> Result<bool, NoMemory>
    requires cut { AreTokensOf text.now (tokens_view tokens.now) }
    requires left { after.now ≡ edited_text text.now (edit_of mend.now) }
    ensures { IfOk result (λ keeps. keeps ≡ true → KeepsOthers text.now (edit_of mend.now)) }
{
    match lex(alloc, after) {
        Ok(found) => Ok(is_of_one_token(tokens, mend) && keeps_tokens(tokens, &found)),
        Err(LexFault::NoMemory) => Err(NoMemory),
        Err(_) => Ok(false),
    }
}

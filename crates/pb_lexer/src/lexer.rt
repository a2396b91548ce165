//! The cutting of a text, in one pass over its bytes.

ghost use Rattle.std.specs.Prelude.{◌≡◌, ◌<◌, ◌≤◌, ℕ, ◌+◌, true, false};
ghost use Rattle.std.specs.Prelude.{length, slice_index, slice_range, List, IfOk, IfErr};
ghost use Rattle.std.specs.Char.{is_ascii_alphabetic, is_ascii_digit};
ghost use Rattle.pb_lexer.specs.Tokens.{tokens};
ghost use Rattle.pb_lexer.specs.Tokens as spec_tokens;
ghost use Rattle.pb_lexer.specs.Forms.{is_blank, spelling};
ghost use Rattle.pb_lexer.specs.Cutting.{line_at, IsComment, AreTokensOf, Refuses};
ghost use Rattle.pb_lexer.specs.Cutting.{ReturnsTokens, ReturnsFault};
ghost use Rattle.pb_lexer.specs.Finding.{Finds};

use crate::fault::LexFault;
use crate::scan::{bad_byte, digits_end, is_blank, line_end, value, word_end};
use crate::token::{Kind, Mark, Token};
use crate::words::{reserved, symbol, symbol_of_two};
use pb_base::limits::{MAX_NAME, MAX_TEXT};
use std::alloc::Allocator;

/// Returns whether `//` is here.
fn begins_comment(text: &[u8], at: usize) -> bool
    requires { at < length text.now }
    ensures yes { result ≡ true
        → (at + 2 ≤ length text.now) × (slice_index text.now at ≡ 47) × (slice_index text.now (at + 1) ≡ 47) }
    ensures no { result ≡ false → (end : ℕ) → IsComment text.now at end → ⊥ }
{
    text[at] == b'/' && at + 1 < text.len() && text[at + 1] == b'/'
}

/// Returns the name or reserved word that begins here, with a letter.
fn word_at<'t>(text: &'t [u8], at: usize, line: u32) -> Result<Token<'t>, LexFault>
    requires in_text { at < length text.now }
    requires letter { is_ascii_alphabetic (slice_index text.now at) ≡ true }
    requires line { line ≡ line_at text.now at }
    ensures { Finds text.now at result }
{
    let end = word_end(text, at + 1);
    let word = &text[at..end];
    if let Some(mark) = reserved(word) {
        return Ok(Token {
            kind: Kind::Mark(mark),
            text: word,
            start: at,
            end,
            line,
        });
    }
    if word.len() > MAX_NAME {
        return Err(LexFault::NameTooLong(at));
    }
    Ok(Token {
        kind: Kind::Name,
        text: word,
        start: at,
        end,
        line,
    })
}

/// Returns the number that begins here, with a digit.
fn number_at<'t>(text: &'t [u8], at: usize, line: u32) -> Result<Token<'t>, LexFault>
    requires in_text { at < length text.now }
    requires digit { is_ascii_digit (slice_index text.now at) ≡ true }
    requires line { line ≡ line_at text.now at }
    ensures { Finds text.now at result }
{
    let end = digits_end(text, at);
    let digits = &text[at..end];
    match value(digits) {
        Some(number) => Ok(Token {
            kind: Kind::Number(number as i64),
            text: digits,
            start: at,
            end,
            line,
        }),
        None => Err(LexFault::NumberTooLarge(at)),
    }
}

/// Returns the symbol that begins here, with another byte.
fn symbol_at<'t>(text: &'t [u8], at: usize, line: u32) -> Result<Token<'t>, LexFault>
    requires in_text { at < length text.now }
    requires no_letter { is_ascii_alphabetic (slice_index text.now at) ≡ false }
    requires no_digit { is_ascii_digit (slice_index text.now at) ≡ false }
    requires no_blank { is_blank (slice_index text.now at) ≡ false }
    requires no_comment { (end : ℕ) → IsComment text.now at end → ⊥ }
    requires line { line ≡ line_at text.now at }
    ensures { Finds text.now at result }
{
    if at + 1 < text.len() {
        if let Some(mark) = symbol_of_two(text[at], text[at + 1]) {
            return Ok(Token {
                kind: Kind::Mark(mark),
                text: &text[at..at + 2],
                start: at,
                end: at + 2,
                line,
            });
        }
    }
    match symbol(text[at]) {
        Some(mark) => Ok(Token {
            kind: Kind::Mark(mark),
            text: &text[at..at + 1],
            start: at,
            end: at + 1,
            line,
        }),
        None => Err(LexFault::BadByte(at)),
    }
}

/// Returns the token that begins here.
fn token_at<'t>(text: &'t [u8], at: usize, line: u32) -> Result<Token<'t>, LexFault>
    requires in_text { at < length text.now }
    requires no_blank { is_blank (slice_index text.now at) ≡ false }
    requires no_comment { (end : ℕ) → IsComment text.now at end → ⊥ }
    requires line { line ≡ line_at text.now at }
    ensures { Finds text.now at result }
{
    if text[at].is_ascii_alphabetic() {
        word_at(text, at, line)
    } else if text[at].is_ascii_digit() {
        number_at(text, at, line)
    } else {
        symbol_at(text, at, line)
    }
}

/// Returns the tokens of the text, or its first fault.
fn cut<'t, A: Allocator>(alloc: A, text: &'t [u8]) -> Result<Vec<Token<'t>, A>, LexFault>
    ensures found { IfOk result (λ v. AreTokensOf text.now (tokens v.items)) }
    ensures fault { IfErr result (λ e. Refuses text.now e) }
    ensures long { MAX_TEXT < length text.now → result ≡ Err LexFault.TooLong }
{
    if text.len() > MAX_TEXT {
        return Err(LexFault::TooLong);
    }
    let mut tokens = Vec::with_capacity(alloc, text.len() / 8)?;
    let mut at = 0;
    let mut line = 1;
    while at < text.len() {
        let byte = text[at];
        if byte == b'\n' {
            line += 1;
            at += 1;
        } else if is_blank(byte) {
            at += 1;
        } else if begins_comment(text, at) {
            let end = line_end(text, at);
            if let Some(bad) = bad_byte(text, at, end) {
                return Err(LexFault::BadByte(bad));
            }
            at = end;
        } else {
            let token = token_at(text, at, line)?;
            at = token.end;
            tokens.push(token)?;
        }
    }
    Ok(tokens)
}

/// Cuts a text into its tokens, in memory of `alloc`: names, numbers, symbols and reserved words, each the
/// longest that begins at its offset. Between them may be blanks (space, tab, line feed, carriage return) and
/// comments, which go from `//` to the next line feed or the end, whatever bytes they have. Lines count from
/// 1.
///
/// A text over 65,536 bytes is `TooLong`. Else the fault with the least offset is returned: `BadByte` at a
/// byte that is not allowed (allowed are 32 to 126, tab, line feed and carriage return), in a comment too, or
/// if nothing begins; `NumberTooLarge` at a number over 9223372036854775807; `NameTooLong` at a name over 32
/// bytes. `NoMemory` comes if `alloc` is out of memory, and never for a text that is too long.
pub fn lex<'t, A: Allocator>(alloc: A, text: &'t [u8]) -> Result<Vec<Token<'t>, A>, LexFault>
    ensures found { IfOk result (λ v. AreTokensOf text.now (tokens v.items)) }
    // A text over the limit, or the fault with the least offset.
    ensures fault { IfErr result (λ e. Refuses text.now e) }
    // If the text has tokens, these are returned, unless out of memory.
    ensures only { (ts : List spec_tokens.Token) → AreTokensOf text.now ts
        → ReturnsTokens (λ v. tokens v.items) result ts }
    // If it has a fault, that is returned, unless out of memory.
    ensures exact { (e : LexFault) → (e ≡ LexFault.NoMemory → ⊥) → Refuses text.now e
        → ReturnsFault result e }
    // A text over the limit takes no memory.
    ensures long { MAX_TEXT < length text.now → result ≡ Err LexFault.TooLong }
{
    cut(alloc, text)
}

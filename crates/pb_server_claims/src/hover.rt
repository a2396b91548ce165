//! What is shown of an offset of a text.

ghost use Rattle.std.specs.Prelude.{◌≡◌, IfOk, option_map};
ghost use Rattle.std.specs.List.{find};
ghost use Rattle.serde_json.specs.View.{view};
ghost use Rattle.pb_lexer.specs.Tokens.{token, tokens};
ghost use Rattle.pb_outline.specs.Places.{place};
ghost use Rattle.pb_server_claims.specs.Hovers as spec;
ghost use Rattle.pb_server_claims.specs.Known.{known};
ghost use Rattle.pb_server_claims.specs.Said as said;
ghost use Rattle.pb_server_names.specs.Values as values;

use crate::named::name_words;
use crate::reading::Reading;
use crate::words::meaning;
use pb_base::NoMemory;
use pb_lexer::{Kind, Token};
use pb_outline::{Outline, Place};
use pb_server_names::range_value;
use serde_json::{Value, json};
use std::alloc::{AllocError, Global};

/// Returns plain text about a range.
fn hover_text(alloc: Global, range: Value, text: &str) -> Result<Value, AllocError>
    ensures { IfOk result (λ v. view v ≡ spec.hover_text (view range) text.now) }
{
    json!(in alloc; {"contents": {"kind": "plaintext", "value": text}, "range": range})
}

/// Returns plain words about a part of a text.
fn hover_value(
    alloc: Global,
    text: &[u8],
    start: usize,
    end: usize,
    words: &[u8],
) -> Result<Value, NoMemory>
    ensures { IfOk result (λ v. view v ≡ spec.hover_data (values.range_data text.now start end) words.now) }
{
    let words = String::from_utf8_lossy(alloc, words)?;
    let range = range_value(alloc, text, start, end)?;
    Ok(hover_text(alloc, range, &words)?)
}

/// Returns whether the byte at an offset is one of a token.
fn covers(at: usize, one: &Token<'_>) -> bool
    ensures { result ≡ spec.covers at (token one.now) }
{
    one.start() <= at && at < one.end()
}

/// Returns the token of the byte at an offset.
fn token_at<'t>(given: &[Token<'t>], at: usize) -> Option<Token<'t>>
    ensures { option_map token result ≡ find (spec.covers at) (tokens given.now) }
{
    for one in given {
        if covers(at, one) {
            return Some(*one);
        }
    }
    None
}

/// Returns what is said of a number and of a reserved word.
fn token_words(one: &Token<'_>) -> Option<&'static str>
    ensures { option_map (λ words. words.now) result ≡ spec.lexeme_words (token one.now).lexeme }
{
    match one.kind() {
        Kind::Name => None,
        Kind::Number(_) => Some(
            "A number is from 0 to 9223372036854775807, an amount of a resource at most 1000000.",
        ),
        Kind::Mark(mark) => meaning(mark),
    }
}

/// Returns what is shown of a token; null if there is none, or if nothing is said of it.
fn hover_token(alloc: Global, text: &[u8], found: Option<Token<'_>>) -> Result<Value, NoMemory>
    ensures { IfOk result (λ v. view v ≡ spec.hover_token text.now (option_map token found.entry)) }
{
    let Some(one) = found else {
        return Ok(Value::Null);
    };
    match token_words(&one) {
        Some(words) => hover_value(alloc, text, one.start(), one.end(), words.as_bytes()),
        None => Ok(Value::Null),
    }
}

/// Returns what is shown of a name.
#[tactic(auto, using(pb_server_names::proofs::Ends::end_at))]
fn hover_name(
    alloc: Global,
    text: &[u8],
    reading: &Reading<'_>,
    one: &Place<'_>,
) -> Result<Value, NoMemory>
    ensures { IfOk result (λ v. view v ≡ spec.hover_data (values.name_range text.now (place one.now))
        (said.name_words (known reading.now) (place one.now))) }
{
    let words = name_words(alloc, reading, one)?;
    let end = one.at.saturating_add(one.text.len());
    hover_value(alloc, text, one.at, end, &words)
}

/// Returns what is shown of an offset of a text: of the name there, or else of the token; null if no offset is asked for,
/// or if nothing is known of the text.
pub(crate) fn hover_asked(
    alloc: Global,
    text: &[u8],
    found: &Option<Reading<'_>>,
    asked: Option<usize>,
) -> Result<Value, NoMemory>
    ensures { IfOk result (λ v. view v ≡ spec.hover_asked text.now (option_map known found.now) asked) }
{
    let (Some(reading), Some(at)) = (found, asked) else {
        return Ok(Value::Null);
    };
    let outline = Outline::of(alloc, &reading.tree)?;
    match outline.place_at(at) {
        Some(one) => hover_name(alloc, text, reading, &one),
        None => hover_token(alloc, text, token_at(&reading.tokens, at)),
    }
}

//! Code that stands in a comment: after a `//` that is meant as a division, or an `end`.

use pb_base::NoMemory;
use pb_lexer::{Kind, LexFault, Mark, Token, lex};
use pb_mistakes::tokens::{declares, ends_expression, is_at, is_name, is_number, text_at};
use pb_mistakes::{Told, telling};
use std::alloc::Global;

/// Returns the mistake of the comment just after the token before the one with a number, in the same line, if code seems to
/// stand in it.
pub fn comment_mistake<'t>(
    alloc: Global,
    text: &'t [u8],
    tokens: &[Token<'t>],
    number: usize,
) -> Result<Option<Told<'t>>, NoMemory> {
    let Some(before) = number.checked_sub(1) else {
        return Ok(None);
    };
    let Some(at) = comment_behind(text, end_of(tokens, before)) else {
        return Ok(None);
    };
    let comment = comment_at(text, at);
    if ends_expression(tokens, before) && is_divisor(alloc, tokens, comment)? {
        return Ok(Some(telling(
            "`//` is no operator: it begins a comment",
            "a quotient is written a div b",
        )
        .placed_at("`//`: ", at)));
    }
    if tokens.len() <= number && comment.trim_ascii_end().ends_with(b"end") {
        return Ok(Some(telling(
            "the last `end` stands in a comment",
            "a comment goes on to the end of its line: write what is no comment in a line of its own",
        )
        .placed_at("the comment: ", at)));
    }
    Ok(None)
}

fn end_of(tokens: &[Token], number: usize) -> usize {
    match tokens.get(number) {
        Some(token) => token.end(),
        None => 0,
    }
}

/// Returns the offset of the comment that is after an offset of a text, with only blanks between them, if there is one.
fn comment_behind(text: &[u8], from: usize) -> Option<usize> {
    for at in from..text.len() {
        if !matches!(text[at], b' ' | b'\t') {
            return if text[at..].starts_with(b"//") {
                Some(at)
            } else {
                None
            };
        }
    }
    None
}

/// Returns what a comment says that begins at an offset.
fn comment_at(text: &[u8], at: usize) -> &[u8] {
    let begin = at.saturating_add(2).min(text.len());
    for end in begin..text.len() {
        if matches!(text[end], b'\n' | b'\r') {
            return &text[begin..end];
        }
    }
    &text[begin..]
}

/// Returns whether a comment seems to be the rest of a quotient: it begins with a number, an integer of the text or `(`, and
/// each name in it is declared there.
fn is_divisor(alloc: Global, tokens: &[Token], comment: &[u8]) -> Result<bool, NoMemory> {
    let words = match lex(alloc, comment) {
        Ok(words) => words,
        Err(LexFault::NoMemory) => return Err(NoMemory),
        Err(_) => return Ok(false),
    };
    let begins = is_number(&words, 0)
        || is_at(&words, 0, Mark::Open)
        || is_name(&words, 0) && declares(tokens, text_at(&words, 0));
    Ok(
        begins
            && words.iter().all(|word| word.kind() != Kind::Name || declares(tokens, word.text())),
    )
}

//! A `then` or a `do` that is missing.

use crate::open::{Open, spelled};
use crate::tokens::{begins_statement, ends_expression, ends_list, is_at, line_at, mark_at};
use crate::wording::{Told, telling};
use pb_lexer::{Mark, Token};

/// Returns the `then` or the `do` that is missing before the token with a number, if one is.
pub fn part_mistake<'t>(
    tokens: &[Token<'t>],
    number: usize,
    open: Option<&Open>,
) -> Option<Told<'t>> {
    let open = open?;
    let before = number.checked_sub(1)?;
    if open.part.is_some() || !ends_expression(tokens, before) || !ends_test(tokens, number) {
        return None;
    }
    let (word, hint) = match open.word {
        Mark::If => ("then", "write if x = 1 then print 1 fi"),
        Mark::While => ("do", "write while x < 9 do x := x + 1 od"),
        Mark::Hold if is_pair(tokens, before) => ("do", "write hold 1 of tape do print 1 od"),
        _ => return None,
    };
    let told = missing(tokens, open, word, hint);
    let is_another = matches!(
        mark_at(tokens, number),
        Some(Mark::Then | Mark::Do | Mark::Semicolon)
    );
    Some(if is_another {
        told.replacing(number, word.as_bytes())
    } else {
        told
    })
}

/// Returns whether a test has ended before the token with a number, also if there are no more.
fn ends_test(tokens: &[Token], number: usize) -> bool {
    begins_statement(tokens, number)
        || ends_list(tokens, number)
        || tokens.len() <= number
        || matches!(
            mark_at(tokens, number),
            Some(Mark::Then | Mark::Do | Mark::Semicolon | Mark::Process)
        )
}

/// Returns whether the name of a resource is here, after `of`.
fn is_pair(tokens: &[Token], number: usize) -> bool {
    match number.checked_sub(1) {
        Some(before) => is_at(tokens, before, Mark::Of),
        None => false,
    }
}

fn missing<'t>(
    tokens: &[Token<'t>],
    open: &Open,
    word: &'static str,
    hint: &'static str,
) -> Told<'t> {
    telling("`@1` is missing: the `@2` of line @n has none", hint)
        .with_words(word.as_bytes(), spelled(open.word).as_bytes(), b"")
        .on_line(line_at(tokens, open.number))
        .inserting(word)
}

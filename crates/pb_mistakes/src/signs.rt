//! What other languages write with signs: comments, numbers, assignments and comparisons.

use crate::tokens::{
    begins_list, closes, ends_expression, is_at, is_joined, is_name, is_number, is_reserved,
    is_statement_start, mark_at, statement_before, text_at,
};
use crate::wording::{Told, telling, usual};
use pb_lexer::{Mark, Token};

const COMMENT_HINT: &str = "a comment begins with // and goes to the end of its line";

/// Returns a mistake of the signs at the token with a number.
pub fn sign_mistake<'t>(tokens: &[Token<'t>], number: usize) -> Option<Told<'t>> {
    if let Some(told) = comment_mistake(tokens, number) {
        return Some(told);
    }
    if let Some(told) = number_mistake(tokens, number) {
        return Some(told);
    }
    if let Some(told) = pair_mistake(tokens, number) {
        return Some(told);
    }
    if let Some(told) = targets_mistake(tokens, number) {
        return Some(told);
    }
    name_mistake(tokens, number)
}

/// Returns the mistake of a comment of another language.
fn comment_mistake<'t>(tokens: &[Token<'t>], number: usize) -> Option<Told<'t>> {
    if is_pair(tokens, number, Mark::Open, Mark::Star) {
        return usual("there is no `(*`", COMMENT_HINT);
    }
    if is_pair(tokens, number, Mark::Minus, Mark::Minus)
        && (number == 0 || may_begin_line(tokens, number))
    {
        return usual("there is no `--`", COMMENT_HINT);
    }
    let dashes = dashes_before(tokens, number)?;
    Some(telling("there is no `--`", COMMENT_HINT).placed("a comment? ", tokens.get(dashes)))
}

/// Returns whether no expression goes on at a token.
fn may_begin_line(tokens: &[Token], number: usize) -> bool {
    is_statement_start(tokens, number)
        || match number.checked_sub(1) {
            Some(before) => closes(tokens, before) || begins_list(tokens, before),
            None => true,
        }
}

/// Returns the number of the first of two `-` with nothing between them that are before a token in its line.
fn dashes_before(tokens: &[Token], number: usize) -> Option<usize> {
    let line = tokens.get(number)?.line();
    let from = statement_before(tokens, number)?;
    for i in from..number {
        if is_pair(tokens, i, Mark::Minus, Mark::Minus) && tokens.get(i)?.line() == line {
            return Some(i);
        }
    }
    None
}

/// Returns whether these two symbols are at a token and the next one, with nothing between them.
fn is_pair(tokens: &[Token], number: usize, first: Mark, second: Mark) -> bool {
    let next = number.saturating_add(1);
    is_at(tokens, number, first) && is_at(tokens, next, second) && is_joined(tokens, next)
}

/// Returns the mistake of a number with letters just after it.
fn number_mistake<'t>(tokens: &[Token<'t>], number: usize) -> Option<Told<'t>> {
    let before = number.checked_sub(1)?;
    if !is_number(tokens, before) || !is_name(tokens, number) || !is_joined(tokens, number) {
        return None;
    }
    let (digits, letters) = (text_at(tokens, before), text_at(tokens, number));
    let summary = "`@1@2` is not a number";
    let is_base = digits == b"0".as_slice()
        && matches!(letters.first(), Some(b'x' | b'X' | b'b' | b'B' | b'o'));
    let hint = if is_base {
        "numbers have decimal digits alone: 255 is written 255, and not 0xFF"
    } else if is_exponent(letters) {
        "a number is written out: 1000, and not 1e3"
    } else {
        "numbers have decimal digits alone; a name begins with a letter, and a product is written @1 * @2"
    };
    Some(telling(summary, hint).with_words(digits, letters, b""))
}

/// Returns whether letters after a number are its exponent in other languages.
fn is_exponent(letters: &[u8]) -> bool {
    match letters.split_first() {
        Some((first, digits)) => {
            matches!(first, b'e' | b'E') && digits.iter().all(|byte| byte.is_ascii_digit())
        }
        None => false,
    }
}

/// Returns the mistake of two signs that other languages write as one.
fn pair_mistake<'t>(tokens: &[Token<'t>], number: usize) -> Option<Told<'t>> {
    let before = number.checked_sub(1)?;
    if is_at(tokens, number, Mark::Less) && is_arrow(tokens, number) {
        return usual("there is no `<-`", "an assignment is written x := 1");
    }
    if is_pair(tokens, number, Mark::Less, Mark::Minus) && !ends_expression(tokens, before) {
        return usual(
            "there is no `<-`",
            "processes send nothing to each other, and receive nothing: they meet in resources alone",
        );
    }
    if is_at(tokens, number, Mark::Plus) && !ends_expression(tokens, before) {
        return plus_mistake(tokens, number);
    }
    let first = mark_at(tokens, before)?;
    let second = mark_at(tokens, number)?;
    two_signs(first, second)
}

/// Returns the mistake of a `+` where a value is wanted.
fn plus_mistake<'t>(tokens: &[Token<'t>], number: usize) -> Option<Told<'t>> {
    let before = number.checked_sub(1)?;
    if is_at(tokens, before, Mark::Plus) || is_pair(tokens, number, Mark::Plus, Mark::Plus) {
        return usual("there is no `++`", "write x := x + 1");
    }
    if is_at(tokens, before, Mark::Semicolon) || begins_list(tokens, before) {
        return None;
    }
    Some(telling(
        "there is no `+` before a value",
        "leave it out: 5, and not +5",
    )
    .removing(number))
}

/// Returns the mistake of a sign after another one.
fn two_signs<'t>(first: Mark, second: Mark) -> Option<Told<'t>> {
    match first {
        Mark::Equal => behind_equal(second),
        Mark::Less => behind_less(second),
        Mark::Greater => behind_greater(second),
        _ => None,
    }
}

/// Returns the mistake of a sign after `=`.
fn behind_equal<'t>(second: Mark) -> Option<Told<'t>> {
    match second {
        Mark::Less => usual("there is no `=<`", "at most is written a <= b"),
        Mark::Greater => usual("there is no `=>`", "at least is written a >= b"),
        _ => None,
    }
}

/// Returns the mistake of a sign after `<`.
fn behind_less<'t>(second: Mark) -> Option<Told<'t>> {
    match second {
        Mark::Less => usual(
            "there is no `<<`",
            "a product is written a * 2, and a number is printed by print: print x",
        ),
        Mark::Equal => usual(
            "there is no `< =`",
            "at most is written a <= b, with no blank",
        ),
        _ => None,
    }
}

/// Returns the mistake of a sign after `>`.
fn behind_greater<'t>(second: Mark) -> Option<Told<'t>> {
    match second {
        Mark::Less => usual("there is no `><`", "not equal is written a <> b"),
        Mark::Greater => usual("there is no `>>`", "a quotient is written a div 2"),
        Mark::Equal => usual(
            "there is no `> =`",
            "at least is written a >= b, with no blank",
        ),
        _ => None,
    }
}

/// Returns whether an integer is assigned by `<-` with the `<` at this token.
fn is_arrow(tokens: &[Token], number: usize) -> bool {
    match number.checked_sub(1) {
        Some(before) => {
            is_name(tokens, before)
                && is_statement_start(tokens, before)
                && is_at(tokens, number.saturating_add(1), Mark::Minus)
        }
        None => false,
    }
}

/// Returns the mistake of an assignment to several integers.
fn targets_mistake<'t>(tokens: &[Token<'t>], number: usize) -> Option<Told<'t>> {
    let before = number.checked_sub(1)?;
    if !is_name(tokens, before) || !is_statement_start(tokens, before) {
        return None;
    }
    let (first, second) = (text_at(tokens, before), number.saturating_add(1));
    if is_at(tokens, number, Mark::Comma) && is_name(tokens, second) {
        return Some(telling(
            "one integer is assigned at a time",
            "write an assignment for each: @1 := 1; @2 := 2",
        )
        .with_words(first, text_at(tokens, second), b""));
    }
    None
}

/// Returns the mistake of a name with a sign in it.
fn name_mistake<'t>(tokens: &[Token<'t>], number: usize) -> Option<Told<'t>> {
    let before = number.checked_sub(1)?;
    if is_dashed(tokens, number)
        && matches!(
            mark_at(tokens, before.checked_sub(1)?),
            Some(Mark::Process | Mark::Resource | Mark::Integer | Mark::Comma | Mark::Of)
        )
    {
        return Some(telling(
            "a name has no `-`",
            "a name is made of letters, digits and _: @1_@2",
        )
        .with_words(
            text_at(tokens, before),
            text_at(tokens, number.saturating_add(1)),
            b"",
        ));
    }
    None
}

/// Returns whether a token is a `-` between two words, with no blank.
fn is_dashed(tokens: &[Token], number: usize) -> bool {
    let next = number.saturating_add(1);
    is_at(tokens, number, Mark::Minus)
        && is_joined(tokens, number)
        && (is_name(tokens, next) || is_reserved(tokens, next))
        && is_joined(tokens, next)
}

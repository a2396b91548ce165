//! Mistakes in an expression, or just after one.

use crate::open::Open;
use crate::tokens::{
    begins_statement, closes, ends_expression, is_at, is_declaration, is_declared, is_name,
    is_number, line_at, mark_at, statement_before, text_at,
};
use crate::wording::{Told, telling, usual};
use pb_lexer::{Mark, Token};

const OPERATORS: &str = "the operators are + - * div mod = <> < <= > >= and or not";

/// Returns a mistake of the expression at or just before the token with a number.
pub fn value_mistake<'t>(
    tokens: &[Token<'t>],
    number: usize,
    open: Option<&Open>,
) -> Option<Told<'t>> {
    let before = number.checked_sub(1)?;
    if open.is_none() || !ends_expression(tokens, before) {
        return None;
    }
    if let Some(told) = parenthesis_mistake(tokens, number) {
        return Some(told);
    }
    if line_at(tokens, before) != line_at(tokens, number) || !is_value(tokens, number) {
        return None;
    }
    if is_at(tokens, number, Mark::If) {
        return choice_mistake(tokens, number);
    }
    if is_at(tokens, number, Mark::Open) && is_number(tokens, before) {
        return Some(telling(
            "an operator is missing after @1",
            "a product is written @1 * (x + 1)",
        )
        .naming(text_at(tokens, before)));
    }
    operator_mistake(tokens, number)
}

/// Returns whether the statement before a token has a value there: it prints, assigns or tests.
fn is_value(tokens: &[Token], number: usize) -> bool {
    match statement_before(tokens, number) {
        Some(start) => {
            start.saturating_add(1) < number
                && (is_at(tokens, start.saturating_add(1), Mark::Assign)
                    || matches!(
                        mark_at(tokens, start),
                        Some(Mark::Print | Mark::If | Mark::While)
                    ))
        }
        None => false,
    }
}

/// Returns the mistake of a `)` that closes nothing, or of one that is missing before a token.
fn parenthesis_mistake<'t>(tokens: &[Token<'t>], number: usize) -> Option<Told<'t>> {
    let opened = opened_before(tokens, number);
    if is_at(tokens, number, Mark::Close) && opened.is_none() {
        return Some(telling(
            "this `)` closes nothing",
            "leave it out, or write the `(` that is missing before it",
        )
        .removing(number));
    }
    if !ends_value(tokens, number) {
        return None;
    }
    Some(
        telling(
            "`)` is missing",
            "write it after the value that stands in parentheses",
        )
        .placed("`(`: ", tokens.get(opened?))
        .inserting(")"),
    )
}

/// Returns the number of the last `(` in the statement before a token that is not closed there.
fn opened_before(tokens: &[Token], number: usize) -> Option<usize> {
    let start = statement_before(tokens, number)?;
    let mut closed = 0usize;
    for i in (start..number).rev() {
        if is_at(tokens, i, Mark::Close) {
            closed = closed.saturating_add(1);
        } else if is_at(tokens, i, Mark::Open) {
            if closed == 0 {
                return Some(i);
            }
            closed = closed.saturating_sub(1);
        }
    }
    None
}

/// Returns whether no expression goes on at a token.
fn ends_value(tokens: &[Token], number: usize) -> bool {
    tokens.len() <= number
        || closes(tokens, number)
        || begins_statement(tokens, number) && !is_name(tokens, number)
        || matches!(
            mark_at(tokens, number),
            Some(Mark::Semicolon | Mark::Then | Mark::Do | Mark::Else | Mark::Process)
        )
}

/// Returns the mistake of an `if` after a value, as other languages choose between two.
fn choice_mistake<'t>(tokens: &[Token<'t>], number: usize) -> Option<Told<'t>> {
    let part = part_behind(tokens, number);
    if part == Some(Mark::Then) {
        return None;
    }
    if part == Some(Mark::Else) {
        return usual(
            "a value has no `if`",
            "a choice is a statement: if x = 1 then print 1 else print 2 fi",
        );
    }
    usual(
        "an `if` stands after its statement",
        "the test comes first: if x = 1 then print 1 fi",
    )
}

/// Returns the first word or symbol after an `if` that ends its test.
fn part_behind(tokens: &[Token], number: usize) -> Option<Mark> {
    for i in number.saturating_add(1)..tokens.len() {
        let mark = mark_at(tokens, i);
        if closes(tokens, i) || matches!(mark, Some(Mark::Then | Mark::Else | Mark::Semicolon)) {
            return mark;
        }
    }
    None
}

/// Returns the mistake of a name or a number after a value, where an operator is wanted.
fn operator_mistake<'t>(tokens: &[Token<'t>], number: usize) -> Option<Told<'t>> {
    let is_assigned = is_at(tokens, number.saturating_add(1), Mark::Assign);
    let is_word = is_name(tokens, number) && !is_assigned && !is_declaration(tokens, number);
    if !is_word && !is_number(tokens, number) {
        return None;
    }
    let name = text_at(tokens, number);
    if is_word && !is_declared(tokens, number) {
        return Some(telling("`@1` is not an operator", OPERATORS).naming(name));
    }
    let start = statement_before(tokens, number)?;
    if is_at(tokens, start, Mark::Print) {
        return Some(telling(
            "a print has one value",
            "write a print for each value: print @1; print @2",
        )
        .with_words(text_at(tokens, number.checked_sub(1)?), name, b""));
    }
    Some(telling("an operator is missing before @1", OPERATORS).naming(name))
}

//! The mistakes that are usually made where a text is not a program.

use crate::comments::comment_mistake;
use crate::misspelt::misspelt_word;
use pb_base::NoMemory;
use pb_lexer::{Mark, Token};
use pb_mistakes::closing::{closing_mistake, idle_closer};
use pb_mistakes::foreign::foreign_word;
use pb_mistakes::open::{Open, open_before};
use pb_mistakes::parts::part_mistake;
use pb_mistakes::resources::resource_mistake;
use pb_mistakes::signs::sign_mistake;
use pb_mistakes::statements::{head_mistake, named_mistake};
use pb_mistakes::tokens::{
    begins_list, begins_statement, ends_before, ends_list, is_at, is_declaration, is_name,
    is_number, is_statement_start, mark_at, process_before, statement_before, text_at,
};
use pb_mistakes::values::value_mistake;
use pb_mistakes::{Told, telling, usual};
use std::alloc::Global;

/// Returns the mistake that was probably made in a text, if the token with a number cannot come where it is (after the
/// last token: if the text cannot end there); nothing if none of them is likely.
pub fn likely_mistake<'t>(
    alloc: Global,
    text: &'t [u8],
    tokens: &[Token<'t>],
    number: usize,
) -> Result<Option<Told<'t>>, NoMemory> {
    let open = open_before(alloc, tokens, number)?;
    let open = open.as_slice();
    if let Some(told) = comment_mistake(alloc, text, tokens, number)? {
        return Ok(Some(told));
    }
    if let Some(told) = word_mistake(alloc, text, tokens, number, open)? {
        return Ok(Some(told));
    }
    Ok(other_mistake(tokens, number, open))
}

/// Returns the mistake of a word of another language, or of one that is misspelt.
pub fn word_mistake<'t>(
    alloc: Global,
    text: &'t [u8],
    tokens: &[Token<'t>],
    number: usize,
    open: &[Open],
) -> Result<Option<Told<'t>>, NoMemory> {
    if let Some(told) = foreign_word(tokens, number, open.last()) {
        return Ok(Some(told));
    }
    Ok(match misspelt_word(alloc, text, tokens, number)? {
        Some(misspelt) => Some(misspelt.told(tokens, number)),
        None => None,
    })
}

/// Returns a mistake that no word of its own tells.
fn other_mistake<'t>(tokens: &[Token<'t>], number: usize, open: &[Open]) -> Option<Told<'t>> {
    if let Some(told) = idle_closer(tokens, number, open) {
        return Some(told);
    }
    if let Some(told) = plain_mistake(tokens, number, open.last()) {
        return Some(told);
    }
    if let Some(told) = value_mistake(tokens, number, open.last()) {
        return Some(told);
    }
    if let Some(told) = resource_mistake(tokens, number) {
        return Some(told);
    }
    if let Some(told) = named_mistake(tokens, number, open.last()) {
        return Some(told);
    }
    if let Some(told) = part_mistake(tokens, number, open.last()) {
        return Some(told);
    }
    if let Some(told) = head_mistake(tokens, number) {
        return Some(told);
    }
    if let Some(told) = closing_mistake(tokens, number, open) {
        return Some(told);
    }
    if begins_statement(tokens, number) && ends_before(tokens, number) && !open.is_empty() {
        return inserted(
            "a semicolon is missing",
            "a semicolon separates this statement from the one before",
            ";",
        );
    }
    None
}

/// Returns a mistake in these words, which say what is missing; it is there.
fn inserted<'t>(summary: &'static str, hint: &'static str, word: &'static str) -> Option<Told<'t>> {
    Some(telling(summary, hint).inserting(word))
}

/// Returns a mistake in these words, which say that a token is left out; it is there.
fn removed<'t>(summary: &'static str, hint: &'static str, number: usize) -> Option<Told<'t>> {
    Some(telling(summary, hint).removing(number))
}

/// Returns a mistake in these words, which say what is written in the place of a token; it is there.
fn replaced<'t>(
    summary: &'static str,
    hint: &'static str,
    number: usize,
    word: &'static str,
) -> Option<Told<'t>> {
    Some(telling(summary, hint).replacing(number, word.as_bytes()))
}

/// Returns a mistake that is told in the same words wherever it is made.
fn plain_mistake<'t>(tokens: &[Token<'t>], number: usize, open: Option<&Open>) -> Option<Told<'t>> {
    if let Some(told) = sign_mistake(tokens, number) {
        return Some(told);
    }
    if let Some(told) = list_mistake(tokens, number) {
        return Some(told);
    }
    if let Some(told) = declaration_mistake(tokens, number) {
        return Some(told);
    }
    if let Some(told) = program_mistake(tokens, number, open) {
        return Some(told);
    }
    if let Some(told) = joined_mistake(tokens, number) {
        return Some(told);
    }
    equals_mistake(tokens, number, open)
}

/// Returns a mistake of a list of statements.
fn list_mistake<'t>(tokens: &[Token<'t>], number: usize) -> Option<Told<'t>> {
    let before = number.checked_sub(1)?;
    if begins_list(tokens, before) && ends_list(tokens, number) {
        return inserted("a statement is missing", SKIP_HINT, "skip");
    }
    if begins_list(tokens, before) && is_at(tokens, number, Mark::Semicolon) {
        return Some(
            telling(
                "there is a semicolon after `@1`",
                "leave it out: a semicolon separates two statements",
            )
            .naming(text_at(tokens, before))
            .removing(number),
        );
    }
    if is_at(tokens, number, Mark::Do) && is_statement_start(tokens, number) {
        return usual(
            "no statement begins with `do`",
            "the only loop is while: while i < 10 do i := i + 1 od",
        );
    }
    semicolon_mistake(tokens, number)
}

/// Returns the mistake of a semicolon just before a token with which no statement begins.
fn semicolon_mistake<'t>(tokens: &[Token<'t>], number: usize) -> Option<Told<'t>> {
    let before = number.checked_sub(1)?;
    if !is_at(tokens, before, Mark::Semicolon) {
        return None;
    }
    if ends_list(tokens, number) && is_declaration(tokens, before) {
        return inserted(
            "a statement is missing after the declaration",
            SKIP_HINT,
            "skip",
        );
    }
    if ends_list(tokens, number) {
        return removed(
            "a statement is missing after the semicolon",
            "a semicolon separates statements; the last one has none",
            before,
        );
    }
    if is_at(tokens, number, Mark::Semicolon) {
        return removed(
            "a statement is missing between two semicolons",
            "write one semicolon between two statements",
            number,
        );
    }
    None
}

const SKIP_HINT: &str =
    "there is at least one statement here: write skip if there is nothing to do";

/// Returns a mistake of a declaration of integers.
fn declaration_mistake<'t>(tokens: &[Token<'t>], number: usize) -> Option<Told<'t>> {
    if is_at(tokens, number, Mark::Integer) && process_before(tokens, number).is_some() {
        return usual(
            "integers are not declared here",
            "a process declares all its integers at once, after its first begin: integer x, y;",
        );
    }
    let before = number.checked_sub(1)?;
    if !is_declaration(tokens, number) || !is_name(tokens, before) {
        return None;
    }
    if is_at(tokens, number, Mark::Assign) || is_at(tokens, number, Mark::Equal) {
        return usual(
            "an integer is declared with no value",
            "integers begin at 0: write integer x; and assign below: x := 1",
        );
    }
    let next = number.saturating_add(1);
    let is_assigned = is_at(tokens, next, Mark::Assign) || is_at(tokens, next, Mark::Equal);
    if is_name(tokens, number) && !is_assigned {
        return inserted(
            "a comma is missing",
            "commas separate the names of integers: integer x, y;",
            ",",
        );
    }
    if begins_statement(tokens, number) {
        return inserted(
            "a semicolon is missing",
            "a semicolon comes after the names of the integers: integer x, y;",
            ";",
        );
    }
    None
}

/// Returns a mistake of the parts of a program.
fn program_mistake<'t>(
    tokens: &[Token<'t>],
    number: usize,
    open: Option<&Open>,
) -> Option<Told<'t>> {
    let process = process_before(tokens, number);
    if is_at(tokens, number, Mark::Resource) && process.is_some() {
        return usual(
            "resources are not declared here",
            "resources are declared before the first process: resource r = 1;",
        );
    }
    let before = number.checked_sub(1)?;
    if is_at(tokens, number, Mark::Process)
        && open.is_some()
        && is_statement_start(tokens, number)
    {
        return usual(
            "a process stands in no other one",
            "a process begins after the end of the one before: process p begin print 1 end process q begin print 2 end",
        );
    }
    if is_at(tokens, before, Mark::End)
        && is_at(tokens, number, Mark::Semicolon)
        && !begins_statement(tokens, number.saturating_add(1))
        && !ends_list(tokens, number.saturating_add(1))
    {
        return removed(
            "there is a semicolon after the end of a process",
            "a process ends with end, and no semicolon comes after it",
            number,
        );
    }
    if is_at(tokens, before.saturating_sub(1), Mark::Process)
        && is_at(tokens, number, Mark::Semicolon)
    {
        return removed(
            "there is a semicolon after the name of a process",
            "begin comes after the name: process p begin print 1 end",
            number,
        );
    }
    if is_at(tokens, before.saturating_sub(1), Mark::Resource)
        && is_at(tokens, number, Mark::Assign)
    {
        return replaced(
            "a resource is declared with `=`",
            "write resource r = 2; as `:=` is an assignment",
            number,
            "=",
        );
    }
    None
}

/// Returns a mistake of what is joined by a comma, by `and`, or by `**`.
fn joined_mistake<'t>(tokens: &[Token<'t>], number: usize) -> Option<Told<'t>> {
    let before = number.checked_sub(1)?;
    if is_at(tokens, before, Mark::And) && begins_command(tokens, number) {
        return replaced(
            "`and` stands between two statements",
            "a semicolon separates statements, and the arms of a parbegin",
            before,
            ";",
        );
    }
    if is_at(tokens, before, Mark::Star) && is_at(tokens, number, Mark::Star) {
        return usual(
            "there is no `**`",
            "a power is written as a product, 2 * 2 * 2, or multiplied in a while",
        );
    }
    if !is_at(tokens, number, Mark::Comma) || !ends_before(tokens, number) {
        return None;
    }
    if begins_command(tokens, number.saturating_add(1)) {
        return replaced(
            "a comma stands between two statements",
            "a semicolon separates statements, and the arms of a parbegin",
            number,
            ";",
        );
    }
    if is_grouped(tokens, number) {
        return usual(
            "a number has no comma",
            "the digits of a number stand together: 1000, and not 1,000",
        );
    }
    if is_at(tokens, statement_before(tokens, number)?, Mark::Print) {
        return usual(
            "a print has one value",
            "write a print for each value: print x; print y",
        );
    }
    None
}

/// Returns whether a comma is between two numbers of which the second has three digits, as in 1,000.
fn is_grouped(tokens: &[Token], comma: usize) -> bool {
    let next = comma.saturating_add(1);
    is_number(tokens, comma.saturating_sub(1))
        && is_number(tokens, next)
        && text_at(tokens, next).len() == 3
}

/// Returns whether a statement begins with a token that cannot be part of an expression, or assigns.
fn begins_command(tokens: &[Token], number: usize) -> bool {
    begins_statement(tokens, number)
        && (!is_name(tokens, number) || is_at(tokens, number.saturating_add(1), Mark::Assign))
}

/// Returns a mistake of `=`, `:=` and comparisons.
fn equals_mistake<'t>(
    tokens: &[Token<'t>],
    number: usize,
    open: Option<&Open>,
) -> Option<Told<'t>> {
    let before = number.checked_sub(1)?;
    let begins = is_statement_start(tokens, before) && is_name(tokens, before);
    if is_at(tokens, number, Mark::Equal) && is_at(tokens, before, Mark::Equal)
        || is_at(tokens, number, Mark::Equal)
            && is_at(tokens, number.saturating_add(1), Mark::Equal)
    {
        return usual(
            "there is no `==`",
            "a comparison is written x = 1, and an assignment x := 1",
        );
    }
    if is_at(tokens, number, Mark::Equal) && begins && open.is_some() {
        return replaced(
            "an assignment is written with `:=`",
            "write x := 1; `=` alone is a comparison",
            number,
            ":=",
        );
    }
    if is_at(tokens, number, Mark::Assign) && open.is_some() {
        return assign_mistake(tokens, number);
    }
    comparison_mistake(tokens, number)
}

/// Returns the mistake of a `:=` that cannot be here.
fn assign_mistake<'t>(tokens: &[Token<'t>], number: usize) -> Option<Told<'t>> {
    if is_assigned_twice(tokens, number) {
        return usual(
            "one integer is assigned at a time",
            "an assignment has no value: write y := 1; x := y for x := y := 1",
        );
    }
    usual(
        "`:=` is not a comparison",
        "a comparison is written x = 1; `:=` is an assignment",
    )
}

/// Returns the mistake of a comparison that cannot be here: one after another, or one with no left side.
fn comparison_mistake<'t>(tokens: &[Token<'t>], number: usize) -> Option<Told<'t>> {
    let before = number.checked_sub(1)?;
    let begins = is_statement_start(tokens, before) && is_name(tokens, before);
    let is_declared_here = matches!(
        mark_at(tokens, before.saturating_sub(1)),
        Some(Mark::Resource | Mark::Process)
    );
    if !is_comparison(tokens, number) || begins || is_declared_here {
        return None;
    }
    if ends_before(tokens, number) {
        return usual(
            "a comparison has two sides",
            "join two comparisons by and: 0 < x and x < 9",
        );
    }
    if matches!(mark_at(tokens, before), Some(Mark::And | Mark::Or)) {
        return usual(
            "a comparison has two sides",
            "write the left side again: 0 < x and x < 9",
        );
    }
    None
}

/// Returns whether the statement before a token is an assignment already.
fn is_assigned_twice(tokens: &[Token], number: usize) -> bool {
    match statement_before(tokens, number) {
        Some(start) => is_at(tokens, start.saturating_add(1), Mark::Assign),
        None => false,
    }
}

/// Returns whether a token compares two numbers.
fn is_comparison(tokens: &[Token], number: usize) -> bool {
    matches!(
        mark_at(tokens, number),
        Some(
            Mark::Equal | Mark::NotEqual | Mark::Less | Mark::AtMost | Mark::Greater | Mark::AtLeast
        )
    )
}

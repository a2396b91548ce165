//! Mistakes of the declarations before the first process.

use crate::tokens::{is_at, is_name, is_number, mark_at, process_before, text_at};
use crate::wording::{Told, telling};
use pb_lexer::{Mark, Token};

/// Returns the mistake of the declarations before the first process, if the token with a number cannot come there.
pub fn resource_mistake<'t>(tokens: &[Token<'t>], number: usize) -> Option<Told<'t>> {
    if process_before(tokens, number).is_some() {
        return None;
    }
    if is_at(tokens, number, Mark::Integer) && begins_declaration(tokens, number) {
        return Some(shared_integer());
    }
    let resource = resource_before(tokens, number)?;
    match number.checked_sub(resource)? {
        2 => Some(missing_capital(tokens, number)),
        3 => Some(computed_capital(tokens, resource)),
        4 if is_operator(tokens, number) => Some(computed_capital(tokens, resource)),
        4 => Some(missing_semicolon(tokens, number)),
        _ => None,
    }
}

/// Returns whether a declaration or a process may begin at a token.
fn begins_declaration(tokens: &[Token], number: usize) -> bool {
    match number.checked_sub(1) {
        Some(before) => is_at(tokens, before, Mark::Semicolon),
        None => true,
    }
}

/// Returns the number of the last word `resource` before a token.
fn resource_before(tokens: &[Token], number: usize) -> Option<usize> {
    let mut found = None;
    for i in 0..number.min(tokens.len()) {
        if is_at(tokens, i, Mark::Resource) {
            found = Some(i);
        }
    }
    found
}

/// Returns whether a token is an operator of arithmetic.
fn is_operator(tokens: &[Token], number: usize) -> bool {
    matches!(
        mark_at(tokens, number),
        Some(Mark::Plus | Mark::Minus | Mark::Star | Mark::Div | Mark::Mod)
    )
}

fn shared_integer<'t>() -> Told<'t> {
    telling(
        "integers are not declared here",
        "each process declares its own integers, after its first begin: integer x, y;",
    )
    .with_second(
        "processes share no integers: only resources are declared before the first process",
    )
}

/// Returns the mistake of a declaration that ends at a token, after the name of its resource.
fn missing_capital<'t>(tokens: &[Token<'t>], number: usize) -> Told<'t> {
    if is_at(tokens, number, Mark::Comma) {
        return two_resources();
    }
    let capital: &'t [u8] = if is_number(tokens, number) {
        text_at(tokens, number)
    } else {
        b"1"
    };
    let told = telling(
        "`=` is missing after resource @1",
        "a resource is declared with its capital, how much there is of it: resource @1 = @2;",
    )
    .with_words(text_at(tokens, number.saturating_sub(1)), capital, b"");
    if is_number(tokens, number) {
        told.inserting("=")
    } else {
        told
    }
}

fn two_resources<'t>() -> Told<'t> {
    telling(
        "a declaration is of one resource",
        "write a declaration for each: resource a = 1; resource b = 1;",
    )
}

/// Returns the mistake of a capital that is not a number; the word `resource` of its declaration is here.
fn computed_capital<'t>(tokens: &[Token<'t>], resource: usize) -> Told<'t> {
    telling(
        "the capital of resource @1 is not a number",
        "write the number itself, 0 to 1000000, with no sign: resource @1 = 1;",
    )
    .naming(text_at(tokens, resource.saturating_add(1)))
}

/// Returns the mistake of a declaration of a resource with no semicolon, just before a token.
fn missing_semicolon<'t>(tokens: &[Token<'t>], number: usize) -> Told<'t> {
    if is_at(tokens, number, Mark::Comma) && is_name(tokens, number.saturating_add(1)) {
        return two_resources();
    }
    telling(
        "a semicolon is missing",
        "a semicolon comes after the declaration before this: resource @1 = @2;",
    )
    .with_words(
        text_at(tokens, number.saturating_sub(3)),
        text_at(tokens, number.saturating_sub(1)),
        b"",
    )
    .inserting(";")
}

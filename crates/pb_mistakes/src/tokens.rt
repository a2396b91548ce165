//! The tokens of a text, by number and by offset.

use pb_lexer::{Kind, Mark, Token};

/// The reserved words.
pub const RESERVED: [&str; 23] = [
    "and", "begin", "div", "do", "else", "end", "fi", "hold", "if", "integer", "mod", "not", "od",
    "of", "or", "parbegin", "parend", "print", "process", "resource", "skip", "then", "while",
];

/// Returns whether a token is this symbol or reserved word.
pub fn is(token: &Token, mark: Mark) -> bool {
    token.kind() == Kind::Mark(mark)
}

/// Returns whether the token with this number is this symbol or reserved word; none is, past the end.
pub fn is_at(tokens: &[Token], number: usize, mark: Mark) -> bool {
    match tokens.get(number) {
        Some(token) => is(token, mark),
        None => false,
    }
}

/// Returns the symbol or reserved word that the token with this number is.
pub fn mark_at(tokens: &[Token], number: usize) -> Option<Mark> {
    match tokens.get(number)?.kind() {
        Kind::Mark(mark) => Some(mark),
        Kind::Name | Kind::Number(_) => None,
    }
}

/// Returns whether the token with this number is a name.
pub fn is_name(tokens: &[Token], number: usize) -> bool {
    match tokens.get(number) {
        Some(token) => token.kind() == Kind::Name,
        None => false,
    }
}

/// Returns whether the token with this number is a number.
pub fn is_number(tokens: &[Token], number: usize) -> bool {
    match tokens.get(number) {
        Some(token) => matches!(token.kind(), Kind::Number(_)),
        None => false,
    }
}

/// Returns whether the token with this number is a reserved word.
pub fn is_reserved(tokens: &[Token], number: usize) -> bool {
    mark_at(tokens, number).is_some()
        && text_at(tokens, number)
            .iter()
            .all(|byte| byte.is_ascii_lowercase())
}

/// Returns the number of the token that begins at an offset.
pub fn token_at(tokens: &[Token], at: usize) -> Option<usize> {
    for (i, token) in tokens.iter().enumerate() {
        if token.start() == at {
            return Some(i);
        }
    }
    None
}

/// Returns the bytes of the token with this number; nothing past the end.
pub fn text_at<'t>(tokens: &[Token<'t>], number: usize) -> &'t [u8] {
    match tokens.get(number) {
        Some(token) => token.text(),
        None => b"",
    }
}

/// Returns the line of the token with this number; 0 past the end.
pub fn line_at(tokens: &[Token], number: usize) -> u32 {
    match tokens.get(number) {
        Some(token) => token.line(),
        None => 0,
    }
}

/// Returns the number of the word `process` before a token.
pub fn process_before(tokens: &[Token], number: usize) -> Option<usize> {
    let mut found = None;
    for (i, token) in tokens.iter().enumerate() {
        if i < number && is(token, Mark::Process) {
            found = Some(i);
        }
    }
    found
}

/// Returns the name of the process in which a token is.
pub fn process_name<'t>(tokens: &[Token<'t>], number: usize) -> &'t [u8] {
    match process_before(tokens, number) {
        Some(i) => text_at(tokens, i.saturating_add(1)),
        None => b"",
    }
}

/// Returns whether the token opens a statement that another token closes.
pub fn opens(tokens: &[Token], number: usize) -> bool {
    matches!(
        mark_at(tokens, number),
        Some(Mark::Begin | Mark::If | Mark::While | Mark::Hold | Mark::Parbegin)
    )
}

/// Returns whether the token closes such a statement.
pub fn closes(tokens: &[Token], number: usize) -> bool {
    matches!(
        mark_at(tokens, number),
        Some(Mark::End | Mark::Fi | Mark::Od | Mark::Parend)
    )
}

/// Returns whether a list of statements ends before this token.
pub fn ends_list(tokens: &[Token], number: usize) -> bool {
    closes(tokens, number) || is_at(tokens, number, Mark::Else)
}

/// Returns whether a list of statements begins after this token.
pub fn begins_list(tokens: &[Token], number: usize) -> bool {
    matches!(
        mark_at(tokens, number),
        Some(Mark::Begin | Mark::Then | Mark::Else | Mark::Do | Mark::Parbegin)
    )
}

/// Returns whether a statement may begin with this token.
pub fn begins_statement(tokens: &[Token], number: usize) -> bool {
    is_name(tokens, number)
        || opens(tokens, number)
        || matches!(mark_at(tokens, number), Some(Mark::Print | Mark::Skip))
}

/// Returns whether an expression may end with this token.
pub fn ends_expression(tokens: &[Token], number: usize) -> bool {
    is_name(tokens, number) || is_number(tokens, number) || is_at(tokens, number, Mark::Close)
}

/// Returns whether a statement may end with this token.
pub fn ends_statement(tokens: &[Token], number: usize) -> bool {
    ends_expression(tokens, number) || is_at(tokens, number, Mark::Skip) || closes(tokens, number)
}

/// Returns whether a statement may end just before a token.
pub fn ends_before(tokens: &[Token], number: usize) -> bool {
    match number.checked_sub(1) {
        Some(before) => ends_statement(tokens, before),
        None => false,
    }
}

/// Returns whether a statement, or a part of a program, begins at this token if any does.
pub fn is_statement_start(tokens: &[Token], number: usize) -> bool {
    match number.checked_sub(1) {
        Some(before) => { begins_list(tokens, before) || is_at(tokens, before, Mark::Semicolon) }
        None => true,
    }
}

/// Returns the number of the token with which the statement before a token begins.
pub fn statement_before(tokens: &[Token], number: usize) -> Option<usize> {
    let mut found = None;
    for i in 0..number.min(tokens.len()) {
        if is_statement_start(tokens, i) {
            found = Some(i);
        }
    }
    found
}

/// Returns whether no byte is between a token and the one before it.
pub fn is_joined(tokens: &[Token], number: usize) -> bool {
    match (number.checked_sub(1), tokens.get(number)) {
        (Some(before), Some(token)) => match tokens.get(before) {
            Some(before) => before.end() == token.start(),
            None => false,
        },
        _ => false,
    }
}

/// Returns whether the name that the token with this number is stands somewhere in a declaration of an integer, a
/// resource or a process.
pub fn is_declared(tokens: &[Token], number: usize) -> bool {
    is_declared_but_at(tokens, text_at(tokens, number), number)
}

/// Returns whether a name stands somewhere in a declaration of an integer, a resource or a process.
pub fn declares(tokens: &[Token], name: &[u8]) -> bool {
    is_declared_but_at(tokens, name, tokens.len())
}

/// Returns whether a name is declared by another token than the one with this number.
fn is_declared_but_at(tokens: &[Token], name: &[u8], number: usize) -> bool {
    let mut is_in = false;
    for i in 0..tokens.len() {
        let before = i.saturating_sub(1);
        if is_at(tokens, i, Mark::Integer) {
            is_in = true;
        } else if !is_name(tokens, i) && !is_at(tokens, i, Mark::Comma) {
            is_in = false;
        }
        let is_declaration = is_in
            || is_at(tokens, before, Mark::Process)
            || is_at(tokens, before, Mark::Resource);
        if is_declaration && i != number && text_at(tokens, i) == name {
            return true;
        }
    }
    false
}

/// Returns whether a process has this name.
pub fn is_process(tokens: &[Token], name: &[u8]) -> bool {
    is_named(tokens, Mark::Process, name)
}

/// Returns whether a resource has this name.
pub fn is_resource(tokens: &[Token], name: &[u8]) -> bool {
    is_named(tokens, Mark::Resource, name)
}

/// Returns whether a name is just after a reserved word somewhere.
fn is_named(tokens: &[Token], word: Mark, name: &[u8]) -> bool {
    for i in 0..tokens.len() {
        if is_at(tokens, i, word) && text_at(tokens, i.saturating_add(1)) == name {
            return true;
        }
    }
    false
}

/// Returns whether this token is after the word `integer` of a declaration that has not ended.
pub fn is_declaration(tokens: &[Token], number: usize) -> bool {
    let mut is_in = false;
    for i in 0..number.min(tokens.len()) {
        if is_at(tokens, i, Mark::Integer) {
            is_in = true;
        } else if !is_name(tokens, i) && !is_at(tokens, i, Mark::Comma) {
            is_in = false;
        }
    }
    is_in
}

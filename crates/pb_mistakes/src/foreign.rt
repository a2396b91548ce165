//! Words of other languages, and reserved words in capital letters.

use crate::meanings::{ASKS_HINT, is_about_a_thing, is_use, meaning_of};
pub use crate::meanings::{input_hint, value_of};
use crate::open::Open;
use crate::tokens::{
    RESERVED, ends_expression, is_at, is_declared, is_name, is_number, is_process, is_reserved,
    is_resource, is_statement_start, mark_at, process_before, text_at,
};
use crate::wording::{Told, telling};
use pb_lexer::{Mark, Token};

/// What is wrong with a word of another language.
pub const NO_WORD: &str = "`@1` is not a word of the language";

/// Returns the word of another language, or the reserved word in capital letters, that begins the statement just before
/// the token with this number, or is at it. A statement may be open there.
pub fn foreign_word<'t>(
    tokens: &[Token<'t>],
    number: usize,
    open: Option<&Open>,
) -> Option<Told<'t>> {
    if let Some(found) = head_word(tokens, number) {
        return Some(found);
    }
    if is_name(tokens, number) && !is_at(tokens, number.saturating_add(1), Mark::Assign) {
        if let Some(found) = word_at(tokens, number, open) {
            return Some(found);
        }
    }
    let before = number.checked_sub(1)?;
    if is_at(tokens, number, Mark::Open) && is_name(tokens, before) && !is_head(tokens, before) {
        return called(tokens, before);
    }
    None
}

/// Returns what is told of the word that begins the statement just before a token.
fn head_word<'t>(tokens: &[Token<'t>], number: usize) -> Option<Told<'t>> {
    let before = number.checked_sub(1)?;
    if !is_head(tokens, before) {
        return None;
    }
    let told = word_at(tokens, before, None)?;
    Some(told.placed("`@1`: ", tokens.get(before)))
}

/// Returns what is told of a name before `(` where no statement begins.
fn called<'t>(tokens: &[Token<'t>], number: usize) -> Option<Told<'t>> {
    let word = text_at(tokens, number);
    let before = number.saturating_sub(1);
    if is_at(tokens, before, Mark::Resource) {
        return None;
    }
    let told = if is_at(tokens, before, Mark::Process) {
        telling(
            "process @1 has no parameters",
            "a process is written process @1 begin print 1 end",
        )
    } else if let Some(hint) = input_hint(word) {
        telling(NO_WORD, hint)
    } else if is_process(tokens, word) {
        telling(
            "process @1 is not a function",
            "all processes run from the beginning, side by side, and none of them has a value",
        )
    } else if is_resource(tokens, word) {
        telling(
            "resource @1 is not a function",
            "only integers have values; a process gets a resource by hold 1 of @1 do .. od",
        )
    } else if is_declared(tokens, number) {
        telling(
            "an operator is missing after @1",
            "a product is written @1 * (2): there are no functions",
        )
    } else {
        telling(
            "`@1` is not a function",
            "there are no functions: an expression has integers, numbers and operators",
        )
    };
    Some(told.naming(word))
}

/// Returns whether the token with a number is a name at which a statement begins, and after which no operator is.
pub fn is_head(tokens: &[Token], number: usize) -> bool {
    let behind = number.saturating_add(1);
    is_name(tokens, number)
        && is_statement_start(tokens, number)
        && (is_name(tokens, behind)
            || is_number(tokens, behind)
            || is_reserved(tokens, behind)
            || tokens.len() <= behind
            || matches!(
                mark_at(tokens, behind),
                Some(Mark::Open | Mark::Close | Mark::Semicolon | Mark::Minus | Mark::Less)
            ))
}

/// Returns what is told of the word that a token is, if it is one of another language, or a reserved word but for its
/// letters. One that is declared is none, nor one in a hold before its `do`.
fn word_at<'t>(tokens: &[Token<'t>], number: usize, open: Option<&Open>) -> Option<Told<'t>> {
    let text = text_at(tokens, number);
    for word in &RESERVED {
        if word.as_bytes().eq_ignore_ascii_case(text) {
            return Some(in_capitals(text, word.as_bytes(), number));
        }
    }
    if is_declared(tokens, number) || is_in_hold(open) {
        return None;
    }
    let behind = number.saturating_add(1);
    if text.len() == 1 && !is_at(tokens, behind, Mark::Open) {
        return None;
    }
    if let Some(told) = loop_word(tokens, number, open) {
        return Some(told);
    }
    if is_about_a_thing(text) {
        if let Some(told) = thing_word(tokens, number) {
            return Some(told);
        }
    }
    if text_at(tokens, behind) == b"main".as_slice() {
        return Some(telling(NO_WORD, hint_of(b"main")?).naming(text));
    }
    placed_word(tokens, number)
}

/// Returns what is told of the word `loop` after the test of a while.
fn loop_word<'t>(tokens: &[Token<'t>], number: usize, open: Option<&Open>) -> Option<Told<'t>> {
    let open = open?;
    let text = text_at(tokens, number);
    if open.word != Mark::While || open.part.is_some() || !text.eq_ignore_ascii_case(b"loop") {
        return None;
    }
    Some(
        telling(NO_WORD, "a while is written while x < 9 do x := x + 1 od")
            .naming(text)
            .replacing(number, b"do"),
    )
}

/// Returns what is told of a word that means different things in different places, or one thing in all.
fn placed_word<'t>(tokens: &[Token<'t>], number: usize) -> Option<Told<'t>> {
    let text = text_at(tokens, number);
    let before = number.saturating_sub(1);
    if is_use(text) && process_before(tokens, number).is_some() {
        return Some(telling(NO_WORD, ASKS_HINT).naming(text));
    }
    if is_at(tokens, before.saturating_sub(1), Mark::Process) && text.eq_ignore_ascii_case(b"is") {
        return Some(telling(
            NO_WORD,
            "a process is written process @2 begin print 1 end",
        ).with_words(text, text_at(tokens, before), b""));
    }
    if ends_expression(tokens, before) && number > 0 && text.eq_ignore_ascii_case(b"rem") {
        return Some(
            telling(NO_WORD, "a remainder is written a mod b")
                .naming(text)
                .replacing(number, b"mod"),
        );
    }
    if is_assigning(tokens, number) {
        return Some(
            telling(NO_WORD, "an assignment is written @2 := 1")
                .with_words(text, text_at(tokens, before), b"")
                .replacing(number, b":="),
        );
    }
    let meaning = meaning_of(text)?;
    let told = telling(NO_WORD, meaning.hint).naming(text);
    if meaning.instead.is_empty() {
        Some(told)
    } else {
        Some(told.replacing(number, meaning.instead.as_bytes()))
    }
}

/// Returns whether a token is a word that is after the name with which a statement begins, and that means `:=`.
fn is_assigning(tokens: &[Token], number: usize) -> bool {
    let text = text_at(tokens, number);
    match number.checked_sub(1) {
        Some(before) => {
            is_name(tokens, before)
                && is_statement_start(tokens, before)
                && (text.eq_ignore_ascii_case(b"is") || text.eq_ignore_ascii_case(b"equals"))
        }
        None => false,
    }
}

/// Returns what is told of a word that begins a statement and has a resource of the text after it, maybe with its amount
/// and in parentheses.
pub fn thing_word<'t>(tokens: &[Token<'t>], number: usize) -> Option<Told<'t>> {
    let behind = number.saturating_add(1);
    let first = if is_at(tokens, behind, Mark::Open) {
        behind.saturating_add(1)
    } else {
        behind
    };
    let has_amount = is_number(tokens, first) && is_at(tokens, first.saturating_add(1), Mark::Of);
    let (amount, resource): (&'t [u8], usize) = if has_amount {
        (text_at(tokens, first), first.saturating_add(2))
    } else {
        (b"1", first)
    };
    let name = text_at(tokens, resource);
    if !is_name(tokens, resource) || !is_resource(tokens, name) {
        return None;
    }
    Some(telling(
        NO_WORD,
        "write hold @2 of @3 do .. od: do takes it, and od gives it back",
    )
    .with_words(text_at(tokens, number), amount, name))
}

/// Returns whether a hold is open whose `do` has not come.
fn is_in_hold(open: Option<&Open>) -> bool {
    match open {
        Some(open) => open.word == Mark::Hold && open.part.is_none(),
        None => false,
    }
}

/// Returns what is written here in the place of a word.
pub fn hint_of(text: &[u8]) -> Option<&'static str> {
    Some(meaning_of(text)?.hint)
}

fn in_capitals<'t>(text: &'t [u8], word: &'t [u8], number: usize) -> Told<'t> {
    telling(
        "`@1` is not a reserved word",
        "reserved words are in small letters: @2",
    )
    .with_words(text, word, b"")
    .replacing(number, word)
}

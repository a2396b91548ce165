//! Mistakes of statements and names that are told with words of the text.

use crate::foreign::{is_head, thing_word};
use crate::open::Open;
use crate::tokens::{
    is_at, is_declaration, is_declared, is_joined, is_name, is_number, is_process, is_reserved,
    is_resource, is_statement_start, mark_at, text_at,
};
use crate::wording::{Told, telling};
use pb_lexer::{Mark, Token};

/// Returns the mistake of a name that begins a statement and does not assign.
pub fn head_mistake<'t>(tokens: &[Token<'t>], number: usize) -> Option<Told<'t>> {
    let before = number.checked_sub(1)?;
    if !is_head(tokens, before) || !is_in_process(tokens, before) {
        return None;
    }
    let told = match thing_word(tokens, before) {
        Some(told) => told,
        None => unknown_head(tokens, before),
    };
    Some(told.placed("`@1`: ", tokens.get(before)))
}

/// Returns what is told of a name that begins a statement, does not assign, and is not a word of another language.
fn unknown_head<'t>(tokens: &[Token<'t>], number: usize) -> Told<'t> {
    let name = text_at(tokens, number);
    let told = if is_process(tokens, name) {
        telling(
            "process @1 is not started by a statement",
            "all processes run from the beginning, side by side",
        )
    } else if is_resource(tokens, name) {
        telling(
            "no statement begins with the name of a resource",
            "write hold 1 of @1 do .. od: do takes it, and od gives it back",
        )
    } else if is_at(tokens, number.saturating_add(1), Mark::Open) {
        telling(
            "`@1` is not a statement",
            "there are no procedures: write the statements where they are to run",
        )
    } else if is_declared(tokens, number) {
        telling(
            "no statement begins with `@1`",
            "a statement begins with if, while, hold, parbegin, begin, print or skip, or it assigns: @1 := 1",
        )
    } else {
        telling(
            "no statement begins with `@1`",
            "a statement begins with if, while, hold, parbegin, begin, print or skip, or with an integer to which it assigns",
        )
    };
    told.naming(name)
}

/// Returns whether the word `begin` is before a token.
fn is_in_process(tokens: &[Token], number: usize) -> bool {
    for i in 0..number.min(tokens.len()) {
        if is_at(tokens, i, Mark::Begin) {
            return true;
        }
    }
    false
}

/// Returns a mistake that is told with a word of the text.
pub fn named_mistake<'t>(
    tokens: &[Token<'t>],
    number: usize,
    open: Option<&Open>,
) -> Option<Told<'t>> {
    let before = number.checked_sub(1)?;
    if is_reserved(tokens, number) && wants_name(tokens, before) {
        return Some(reserved_name(tokens, number));
    }
    if is_number(tokens, number) && wants_name(tokens, before) {
        return Some(number_as_name(tokens, number));
    }
    if is_at(tokens, before.saturating_sub(1), Mark::Process) && is_name(tokens, before) {
        return Some(missing_begin(tokens, before));
    }
    let begins = is_statement_start(tokens, before) && is_name(tokens, before);
    if begins && open.is_some() && is_change(tokens, number) {
        return Some(changed_in_place(tokens, before));
    }
    let open = open?;
    if open.word == Mark::Hold && open.part.is_none() {
        return hold_mistake(tokens, number);
    }
    None
}

/// Returns whether a name is wanted after a token.
fn wants_name(tokens: &[Token], number: usize) -> bool {
    matches!(
        mark_at(tokens, number),
        Some(Mark::Integer | Mark::Process | Mark::Resource | Mark::Of)
    ) || is_at(tokens, number, Mark::Comma) && is_declaration(tokens, number)
}

fn reserved_name<'t>(tokens: &[Token<'t>], number: usize) -> Told<'t> {
    telling(
        "a name is missing before the reserved word `@1`",
        "write a name here; `@1` cannot be one, as it is a word of the language",
    )
    .naming(text_at(tokens, number))
}

/// Returns the mistake of a number where a name is wanted.
fn number_as_name<'t>(tokens: &[Token<'t>], number: usize) -> Told<'t> {
    let behind = number.saturating_add(1);
    let is_turned = number
        .checked_sub(1)
        .is_some_and(|before| is_at(tokens, before, Mark::Resource));
    let hint = if is_name(tokens, behind) && is_joined(tokens, behind) {
        "a name begins with a letter: @2@1"
    } else if is_turned && is_name(tokens, behind) {
        "the name comes first: resource @2 = @1;"
    } else {
        "a name begins with a letter"
    };
    telling("a name is missing before the number @1", hint).with_words(
        text_at(tokens, number),
        text_at(tokens, behind),
        b"",
    )
}

fn missing_begin<'t>(tokens: &[Token<'t>], name: usize) -> Told<'t> {
    telling(
        "`begin` is missing after process @1",
        "a process is written process @1 begin .. end",
    )
    .naming(text_at(tokens, name))
}

/// Returns whether an operator is at a token with which other languages change an integer.
fn is_change(tokens: &[Token], number: usize) -> bool {
    let next = mark_at(tokens, number.saturating_add(1));
    match mark_at(tokens, number) {
        Some(Mark::Plus) => next == Some(Mark::Plus) || next == Some(Mark::Equal),
        Some(Mark::Minus) => next == Some(Mark::Minus) || next == Some(Mark::Equal),
        Some(Mark::Star) => next == Some(Mark::Equal),
        _ => false,
    }
}

fn changed_in_place<'t>(tokens: &[Token<'t>], name: usize) -> Told<'t> {
    let operator = name.saturating_add(1);
    let value = operator.saturating_add(2);
    let summary = match (
        mark_at(tokens, operator),
        mark_at(tokens, operator.saturating_add(1)),
    ) {
        (Some(Mark::Plus), Some(Mark::Plus)) => "there is no `++`",
        (Some(Mark::Minus), Some(Mark::Minus)) => "there is no `--`",
        _ => "there is no `@2=`",
    };
    let value: &'t [u8] = if is_number(tokens, value) {
        text_at(tokens, value)
    } else {
        b"1"
    };
    telling(summary, "write @1 := @1 @2 @3").with_words(
        text_at(tokens, name),
        text_at(tokens, operator),
        value,
    )
}

/// Returns a mistake of the amounts of a hold.
fn hold_mistake<'t>(tokens: &[Token<'t>], number: usize) -> Option<Told<'t>> {
    let before = number.checked_sub(1)?;
    if is_at(tokens, before, Mark::Hold) && is_at(tokens, number, Mark::Open) {
        return Some(hold_in_parentheses(tokens, number.saturating_add(1)));
    }
    if let Some(next) = next_amount(tokens, number) {
        let told = missing_comma(tokens, before, next);
        return Some(if next == number {
            told.inserting(",")
        } else {
            told.replacing(number, b",")
        });
    }
    if is_number(tokens, before) && is_name(tokens, number) {
        return Some(
            telling("`of` is missing", "write hold @1 of @2 do .. od")
                .with_words(text_at(tokens, before), text_at(tokens, number), b"")
                .inserting("of"),
        );
    }
    if is_number(tokens, before)
        && !is_at(tokens, number, Mark::Of)
        && !is_reserved(tokens, number)
    {
        return Some(telling("an amount is a number, and not computed", AMOUNT_HINT));
    }
    if !is_at(tokens, before, Mark::Hold) && !is_at(tokens, before, Mark::Comma) {
        return None;
    }
    Some(no_amount(tokens, number))
}

/// Returns the mistake of a part of a hold that begins at a token and has no amount.
fn no_amount<'t>(tokens: &[Token<'t>], number: usize) -> Told<'t> {
    let behind = number.saturating_add(1);
    let hint = if is_at(tokens, number, Mark::Minus) {
        "an amount is 1 to 1000000, with no sign: od gives back what a hold has taken"
    } else if is_name(tokens, number) && !is_at(tokens, behind, Mark::Of) {
        "say how much of it is held: hold 1 of @1 do .. od"
    } else {
        AMOUNT_HINT
    };
    let resource = if is_name(tokens, behind) {
        behind
    } else {
        number
    };
    telling("a hold begins with an amount, a number", hint).naming(text_at(tokens, resource))
}

/// Returns the mistake of a hold whose amount and resource are in parentheses, with the first token after `(`.
fn hold_in_parentheses<'t>(tokens: &[Token<'t>], first: usize) -> Told<'t> {
    let second = first.saturating_add(1);
    let of = if is_at(tokens, second, Mark::Close) {
        second.saturating_add(1)
    } else {
        second
    };
    let name = of.saturating_add(1);
    let (amount, resource): (&'t [u8], &'t [u8]) = if is_name(tokens, first) {
        (b"1", text_at(tokens, first))
    } else if is_number(tokens, first) && is_at(tokens, of, Mark::Of) && is_name(tokens, name) {
        (text_at(tokens, first), text_at(tokens, name))
    } else {
        (b"1", b"tape")
    };
    telling("a hold has no parentheses", "write hold @1 of @2 do .. od").with_words(
        amount, resource, b"",
    )
}

const AMOUNT_HINT: &str =
    "write the number itself, as in hold 1 of tape: what a process may claim is read off its text";

/// Returns the number of the amount that follows a resource of a hold with something other than a comma
/// between them, at this token.
fn next_amount(tokens: &[Token], number: usize) -> Option<usize> {
    if !is_at(tokens, number.checked_sub(2)?, Mark::Of) || is_at(tokens, number, Mark::Comma) {
        return None;
    }
    let next = if is_number(tokens, number) {
        number
    } else {
        number.saturating_add(1)
    };
    if is_number(tokens, next) && is_at(tokens, next.saturating_add(1), Mark::Of) {
        Some(next)
    } else {
        None
    }
}

/// Returns the mistake of a hold with no comma between a resource, at this token, and the next amount.
fn missing_comma<'t>(tokens: &[Token<'t>], resource: usize, next: usize) -> Told<'t> {
    telling(
        "a comma separates the parts of a hold",
        "write hold @1 of @2, @3 of @4 do .. od",
    )
    .with_words(
        text_at(tokens, resource.saturating_sub(2)),
        text_at(tokens, resource),
        text_at(tokens, next),
    )
    .with_fourth(text_at(tokens, next.saturating_add(2)))
}

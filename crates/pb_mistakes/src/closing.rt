//! Statements that are not closed, and words that close nothing.

use crate::open::{Open, closer, spelled};
use crate::tokens::{
    begins_statement, closes, ends_statement, is_at, is_name, line_at, mark_at, opens,
    process_before, process_name, text_at,
};
use crate::wording::{Told, telling, usual};
use pb_lexer::{Mark, Token};

/// Returns the mistake of a statement that is not closed before the token with a number, or of that token, if it closes
/// nothing.
pub fn closing_mistake<'t>(tokens: &[Token<'t>], number: usize, open: &[Open]) -> Option<Told<'t>> {
    let Some(last) = open.last() else {
        return outside_mistake(tokens, number);
    };
    if !ends_statement(tokens, number.checked_sub(1)?) {
        return None;
    }
    if tokens.len() <= number || is_at(tokens, number, Mark::Process) {
        return Some(not_closed(tokens, last));
    }
    if is_at(tokens, number, Mark::Else) {
        return else_mistake(tokens, last, open);
    }
    if !closes(tokens, number) || last.is_closed_by(tokens, number) {
        return None;
    }
    if let Some(told) = end_of_a_kind(tokens, number, last) {
        return Some(told);
    }
    if last.is_closed_by(tokens, number.saturating_add(1)) && has_one_too_many(tokens, number) {
        return Some(closed_behind(tokens, number, last));
    }
    if is_closing(tokens, number, open) {
        return Some(not_closed(tokens, last));
    }
    Some(wrong_closer(tokens, number, last))
}

/// Returns the mistake of a word that closes nothing of its kind, if its process has more words that close a statement than
/// words that open one.
pub fn idle_closer<'t>(tokens: &[Token<'t>], number: usize, open: &[Open]) -> Option<Told<'t>> {
    if open.is_empty()
        || !closes(tokens, number)
        || is_closing(tokens, number, open)
        || !has_one_too_many(tokens, number)
    {
        return None;
    }
    let opener: &'static [u8] = match mark_at(tokens, number)? {
        Mark::Fi => b"if",
        Mark::Od => b"while or hold",
        Mark::Parend => b"parbegin",
        _ => b"begin",
    };
    Some(
        telling(
            "this `@1` closes nothing: no @2 is open here",
            "leave it out, or look for the @2 that is missing above",
        )
        .with_words(spelled_at(tokens, number), opener, b"")
        .removing(number),
    )
}

/// Returns the mistake of an `end` with a word after it that says what ends.
fn end_of_a_kind<'t>(tokens: &[Token<'t>], number: usize, last: &Open) -> Option<Told<'t>> {
    let behind = number.saturating_add(1);
    let kind = text_at(tokens, behind);
    let is_kind = matches!(
        mark_at(tokens, behind),
        Some(Mark::If | Mark::While | Mark::Hold | Mark::Do | Mark::Parbegin)
    ) || kind.eq_ignore_ascii_case(b"loop");
    if !is_at(tokens, number, Mark::End) || !is_kind {
        return None;
    }
    Some(
        telling(
            "the `@1` of line @n is closed by `@2`, and not by `end @3`",
            "write @2 in the place of end @3",
        )
        .with_words(
            spelled(last.word).as_bytes(),
            spelled(closer(last.word)).as_bytes(),
            kind,
        )
        .on_line(line_at(tokens, last.number)),
    )
}

/// Returns whether the token with a number closes something that is open.
fn is_closing(tokens: &[Token], number: usize, open: &[Open]) -> bool {
    open.iter().any(|one| one.is_closed_by(tokens, number))
}

/// Returns whether the process in which a token is has more words that close a statement than words that open one.
fn has_one_too_many(tokens: &[Token], number: usize) -> bool {
    let mut opened = 0usize;
    let mut closed = 0usize;
    for i in process_before(tokens, number).unwrap_or(0)..tokens.len() {
        if number < i && is_at(tokens, i, Mark::Process) {
            break;
        }
        if opens(tokens, i) {
            opened = opened.saturating_add(1);
        } else if closes(tokens, i) {
            closed = closed.saturating_add(1);
        }
    }
    opened < closed
}

/// Returns the mistake of a word that closes nothing, just before the one that closes what is open.
fn closed_behind<'t>(tokens: &[Token<'t>], number: usize, last: &Open) -> Told<'t> {
    telling(
        "this `@1` is one too many: the `@2` after it closes the `@3` of line @n",
        "leave it out, or look for a begin that is missing above",
    )
    .with_words(
        spelled_at(tokens, number),
        spelled(closer(last.word)).as_bytes(),
        spelled(last.word).as_bytes(),
    )
    .on_line(line_at(tokens, last.number))
    .placed("it is opened at ", tokens.get(last.number))
    .removing(number)
}

/// Returns the mistake of an `else` that cannot be here.
fn else_mistake<'t>(tokens: &[Token<'t>], last: &Open, open: &[Open]) -> Option<Told<'t>> {
    if last.word == Mark::If && last.part == Some(Mark::Else) {
        return Some(telling(
            "the `if` of line @n has two `else`",
            "an if has one else; another if after it has a fi of its own",
        )
        .on_line(line_at(tokens, last.number)));
    }
    if open.iter().any(|one| one.word == Mark::If) {
        return Some(not_closed(tokens, last));
    }
    usual(
        "there is no `if` to which this `else` could belong",
        "a choice is written if x = 1 then print 1 else print 2 fi",
    )
}

/// Returns the mistake of a statement that is not closed.
fn not_closed<'t>(tokens: &[Token<'t>], open: &Open) -> Told<'t> {
    let hint = if is_else_if(tokens, open) {
        "each if has a fi of its own, also one after else: else if .. fi fi"
    } else {
        "write @1 after the last of its statements"
    };
    telling("`@1` is missing: the `@2` of line @n is not closed", hint)
        .with_words(
            spelled(closer(open.word)).as_bytes(),
            spelled(open.word).as_bytes(),
            b"",
        )
        .on_line(line_at(tokens, open.number))
        .placed("it is opened at ", tokens.get(open.number))
        .inserting(spelled(closer(open.word)))
}

/// Returns whether what is open is an `if` with another one just after its `else`.
fn is_else_if(tokens: &[Token], open: &Open) -> bool {
    if open.word != Mark::If || open.part != Some(Mark::Else) {
        return false;
    }
    for i in open.number..tokens.len() {
        if is_at(tokens, i, Mark::Else) && is_at(tokens, i.saturating_add(1), Mark::If) {
            return true;
        }
    }
    false
}

/// Returns the mistake of a word that closes nothing, beside what is open.
fn wrong_closer<'t>(tokens: &[Token<'t>], number: usize, last: &Open) -> Told<'t> {
    telling(
        "the `@1` of line @n is closed by `@2`",
        "write @2 in the place of @3, or leave @3 out if it is one too many",
    )
    .with_words(
        spelled(last.word).as_bytes(),
        spelled(closer(last.word)).as_bytes(),
        spelled_at(tokens, number),
    )
    .on_line(line_at(tokens, last.number))
    .placed("it is opened at ", tokens.get(last.number))
    .replacing(number, spelled(closer(last.word)).as_bytes())
}

/// Returns the word that closes a statement at a token as it is spelled.
fn spelled_at(tokens: &[Token], number: usize) -> &'static [u8] {
    match mark_at(tokens, number) {
        Some(word) => spelled(word).as_bytes(),
        None => b"it",
    }
}

/// Returns the mistake of a token outside of all processes.
fn outside_mistake<'t>(tokens: &[Token<'t>], number: usize) -> Option<Told<'t>> {
    if process_before(tokens, number).is_some() {
        return behind_mistake(tokens, number);
    }
    if tokens.len() <= number {
        return usual(
            "the text has no process",
            "a program has at least one: process p begin print 1 end",
        );
    }
    if number != 0 && !is_at(tokens, number.checked_sub(1)?, Mark::Semicolon) {
        return None;
    }
    if let Some(told) = part_mistake(tokens, number) {
        return Some(told);
    }
    if !begins_statement(tokens, number) {
        return None;
    }
    usual(
        "a statement stands outside of all processes",
        "statements stand in a process: process p begin print 1 end",
    )
}

/// Returns the mistake of a token with which a part of a program is meant to begin.
fn part_mistake<'t>(tokens: &[Token<'t>], number: usize) -> Option<Told<'t>> {
    let behind = number.saturating_add(1);
    if is_name(tokens, number) && is_at(tokens, behind, Mark::Equal) && number != 0 {
        return Some(
            telling(
                "`resource` is missing before @1",
                "each resource has a declaration of its own: resource @1 = 1;",
            )
            .naming(text_at(tokens, number))
            .inserting("resource"),
        );
    }
    if opens(tokens, number) && is_at(tokens, behind, Mark::Process) {
        return Some(telling(
            "a process stands in no statement",
            "leave it out: all processes run from the beginning, side by side",
        )
        .removing(number));
    }
    if is_name(tokens, number) && !is_at(tokens, behind, Mark::Assign) {
        return Some(telling(
            "neither a resource nor a process begins with `@1`",
            "a program is made of these: resource r = 1; process p begin print 1 end",
        )
        .naming(text_at(tokens, number)));
    }
    None
}

/// Returns the mistake of a token after the end of a process.
fn behind_mistake<'t>(tokens: &[Token<'t>], number: usize) -> Option<Told<'t>> {
    if !is_at(tokens, number.checked_sub(1)?, Mark::End) {
        return None;
    }
    let name = process_name(tokens, number);
    if closes(tokens, number) {
        return Some(
            telling(
                "this `@1` is one too many: process @2 has ended just before it",
                "leave it out, or look for a begin that is missing above",
            )
            .with_words(spelled_at(tokens, number), name, b"")
            .removing(number),
        );
    }
    if text_at(tokens, number) == name {
        return Some(
            telling(
                "the name of process @1 stands after its end",
                "a process ends with end alone",
            )
            .naming(name)
            .removing(number),
        );
    }
    Some(telling(
        "process @1 has ended before this",
        "after the end of a process only another process follows: look for an end that is one too many above",
    )
    .naming(name))
}

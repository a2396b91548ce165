//! The wording of a fault of names.

use pb_base::NoMemory;
use pb_base::limits::{MAX_FORK, MAX_INTEGERS, MAX_PROCESSES, MAX_RESOURCES};
use pb_lexer::{Mark, Token};
use pb_message_syntax::misspelt::meant_name;
use pb_mistakes::foreign::value_of;
use pb_mistakes::tokens::{
    closes, is_at, is_name, opens, process_before, process_name, text_at, token_at,
};
use pb_mistakes::{Told, Wording, telling};
use pb_names::{Kind as Limited, NameFault};
use std::alloc::Global;

/// Returns the wording of a fault of names of a text with these tokens.
pub fn names_wording(
    alloc: Global,
    tokens: &[Token],
    fault: NameFault,
) -> Result<Wording, NoMemory> {
    match fault {
        NameFault::TooMany(kind) => too_many(alloc, tokens, kind),
        NameFault::Twice(at) => Ok(twice(tokens, at_or_first(tokens, at)).wording(alloc)),
        NameFault::Unknown(at) => Ok(unknown(alloc, tokens, at_or_first(tokens, at))?.wording(
            alloc,
        )),
        NameFault::Amount(at) => Ok(amount(tokens, at_or_first(tokens, at)).wording(alloc)),
        NameFault::Repeated(at) => Ok(repeated(tokens, at_or_first(tokens, at)).wording(alloc)),
        NameFault::NoMemory => Err(NoMemory),
    }
}

/// Returns the number of the token that begins at an offset, or of the first one.
fn at_or_first(tokens: &[Token], at: usize) -> usize {
    token_at(tokens, at).unwrap_or(0)
}

/// The kinds of names.
#[derive(Clone, Copy, PartialEq, Eq)]
enum Named {
    Resource,
    Process,
    Integer,
}

/// Returns of which kind a name is that is declared here.
fn declared_kind(tokens: &[Token], number: usize) -> Named {
    let before = number.saturating_sub(1);
    if is_at(tokens, before, Mark::Resource) {
        Named::Resource
    } else if is_at(tokens, before, Mark::Process) {
        Named::Process
    } else {
        Named::Integer
    }
}

fn too_many(alloc: Global, tokens: &[Token], kind: Limited) -> Result<Wording, NoMemory> {
    let first = first_too_many(alloc, tokens, kind)?;
    let mut wording = Wording::of(alloc, limit_in_words(kind));
    if let Some(number) = first {
        wording.spot_token(alloc, "the first over the limit: ", tokens.get(number));
    }
    if kind == Limited::Fork || kind == Limited::Arms {
        wording.note_text(
            alloc,
            "hint: statements that need not run side by side can be one arm: begin a; b end",
        );
    }
    Ok(wording)
}

/// Returns in words that there are too many of a kind.
fn limit_in_words(kind: Limited) -> &'static str {
    match kind {
        Limited::Processes => "the program has more than 64 processes",
        Limited::Resources => "the program has more than 16 resources",
        Limited::Integers => "a process has more than 64 integers",
        Limited::Fork => "a parbegin has more than 16 arms",
        Limited::Arms => "a process has more than 64 arms, counting its body",
    }
}

/// Returns the token with which there are too many of a kind.
fn first_too_many(
    alloc: Global,
    tokens: &[Token],
    kind: Limited,
) -> Result<Option<usize>, NoMemory> {
    Ok(match kind {
        Limited::Processes => nth_mark(tokens, Mark::Process, MAX_PROCESSES + 1),
        Limited::Resources => nth_mark(tokens, Mark::Resource, MAX_RESOURCES + 1),
        Limited::Integers => integer_past_limit(tokens),
        Limited::Fork => arm_past_limit(alloc, tokens, MAX_FORK)?,
        Limited::Arms => None,
    })
}

/// Returns the number of the token that is the `nth` of this mark, counted from 1.
fn nth_mark(tokens: &[Token], mark: Mark, nth: usize) -> Option<usize> {
    let mut left = nth;
    for number in 0..tokens.len() {
        if is_at(tokens, number, mark) {
            left = left.saturating_sub(1);
            if left == 0 {
                return Some(number);
            }
        }
    }
    None
}

/// Returns the number of the first name with which a process declares more than `MAX_INTEGERS`.
fn integer_past_limit(tokens: &[Token]) -> Option<usize> {
    let mut declared = None;
    for number in 0..tokens.len() {
        declared = integers_behind(tokens, number, declared);
        if declared == Some(MAX_INTEGERS + 1) {
            return Some(number);
        }
    }
    None
}

/// Returns how many integers a process has declared up to a token, if that is in a declaration, from how many
/// it had declared before.
fn integers_behind(tokens: &[Token], number: usize, before: Option<usize>) -> Option<usize> {
    if is_at(tokens, number, Mark::Integer) {
        return Some(0);
    }
    if is_at(tokens, number, Mark::Semicolon) {
        return None;
    }
    if is_at(tokens, number, Mark::Comma) {
        return before;
    }
    Some(before?.saturating_add(1))
}

/// Returns the number of the first token of the first arm of a parbegin that has too many.
fn arm_past_limit(alloc: Global, tokens: &[Token], most: usize) -> Result<Option<usize>, NoMemory> {
    let mut open = Vec::new(alloc);
    arm_past(tokens, most, &mut open)
}

/// Returns the same. The statements that are open are kept with the number of arms so far, if it is a
/// parbegin.
fn arm_past(
    tokens: &[Token],
    most: usize,
    open: &mut Vec<Option<usize>>,
) -> Result<Option<usize>, NoMemory> {
    for number in 0..tokens.len() {
        follow_brackets(tokens, number, open)?;
        if is_at(tokens, number, Mark::Semicolon) && next_arm(open) > most {
            return Ok(Some(number.saturating_add(1)));
        }
    }
    Ok(None)
}

/// Goes on by a token, if it opens or closes a statement.
fn follow_brackets(
    tokens: &[Token],
    number: usize,
    open: &mut Vec<Option<usize>>,
) -> Result<(), NoMemory> {
    if is_at(tokens, number, Mark::Parbegin) {
        open.push(Some(1usize))?;
    } else if opens(tokens, number) {
        open.push(None)?;
    } else if closes(tokens, number) {
        let _ = open.pop();
    }
    Ok(())
}

/// Counts one more arm of the statement that was opened last, and returns how many it has; 0 if it is not a
/// parbegin.
fn next_arm(open: &mut Vec<Option<usize>>) -> usize {
    match open.last_mut() {
        Some(Some(arms)) => {
            *arms = arms.saturating_add(1);
            *arms
        }
        _ => 0,
    }
}

fn twice<'t>(tokens: &[Token<'t>], number: usize) -> Told<'t> {
    let named = declared_kind(tokens, number);
    let summary = match named {
        Named::Resource => "resource @1 is declared twice",
        Named::Process => "process @1 is declared twice",
        Named::Integer => "integer @1 is declared twice in process @2",
    };
    let told = telling(
        summary,
        "choose another name; a resource, a process and an integer may share a name",
    )
    .with_words(text_at(tokens, number), process_name(tokens, number), b"");
    match first_declaration(tokens, number, named) {
        Some(first) => told.placed("first declared at ", tokens.get(first)),
        None => told,
    }
}

/// Returns the number of the token at which a name is declared that is declared again at this one.
fn first_declaration(tokens: &[Token], number: usize, named: Named) -> Option<usize> {
    let name = text_at(tokens, number);
    let from = match named {
        Named::Integer => process_before(tokens, number)?.saturating_add(2),
        _ => 0,
    };
    for i in from..tokens.len() {
        if text_at(tokens, i) == name && declared_kind(tokens, i) == named {
            return Some(i);
        }
    }
    None
}

/// Returns what is told of the name that the token with a number is and that is not declared.
pub fn unknown<'t>(
    alloc: Global,
    tokens: &[Token<'t>],
    number: usize,
) -> Result<Told<'t>, NoMemory> {
    let meant = meant_name(alloc, tokens, number)?;
    let is_resource = is_at(tokens, number.saturating_sub(1), Mark::Of);
    if let Some(told) = known_word(tokens, number, is_resource) {
        return Ok(told);
    }
    Ok(match meant {
        Some(meant) => undeclared(tokens, number, is_resource, "did you mean `@3`?")
            .with_words(
                text_at(tokens, number),
                process_name(tokens, number),
                text_at(tokens, meant),
            )
            .placed("`@3` is declared at ", tokens.get(meant))
            .replacing(number, text_at(tokens, meant)),
        None if is_resource => unknown_resource(tokens, number),
        None => unknown_integer(tokens, number),
    })
}

/// Returns what is told of a resource that is not declared and that no other name is near.
fn unknown_resource<'t>(tokens: &[Token<'t>], number: usize) -> Told<'t> {
    let is_integer = integer_in_other_letters(tokens, number) == Some(text_at(tokens, number));
    let hint = if is_integer {
        "@1 is an integer, and only resources are held: write resource s = 1; before the first process, and hold 1 of s"
    } else {
        "declare it before the first process, with the amount of it: resource @1 = 1;"
    };
    undeclared(tokens, number, true, hint)
}

/// Returns that a name is not declared, with a hint.
fn undeclared<'t>(
    tokens: &[Token<'t>],
    number: usize,
    is_resource: bool,
    hint: &'static str,
) -> Told<'t> {
    let summary = if is_resource {
        "resource @1 is not declared"
    } else {
        "integer @1 is not declared in process @2"
    };
    telling(summary, hint).with_words(text_at(tokens, number), process_name(tokens, number), b"")
}

/// Returns what is told of a name that is known otherwise: in other letters, as a resource, or in other languages.
fn known_word<'t>(tokens: &[Token<'t>], number: usize, is_resource: bool) -> Option<Told<'t>> {
    let name = text_at(tokens, number);
    let resource = resource_in_other_letters(tokens, name);
    if is_resource {
        return Some(in_other_letters(tokens, number, is_resource, resource?));
    }
    if let Some(told) = value_word(tokens, number) {
        return Some(told);
    }
    if let Some(other) = integer_in_other_letters(tokens, number) {
        return Some(in_other_letters(tokens, number, is_resource, other));
    }
    if resource? == name {
        return Some(undeclared(
            tokens,
            number,
            is_resource,
            "@1 is a resource, and only integers have values; a process gets it by hold 1 of @1 do .. od",
        ));
    }
    None
}

/// Returns that a name is declared in other letters.
fn in_other_letters<'t>(
    tokens: &[Token<'t>],
    number: usize,
    is_resource: bool,
    other: &'t [u8],
) -> Told<'t> {
    let hint = if is_resource {
        "the resource @3 is declared, and capital and small letters are different"
    } else {
        "the integer @3 is declared, and capital and small letters are different"
    };
    undeclared(tokens, number, is_resource, hint)
        .with_words(text_at(tokens, number), process_name(tokens, number), other)
        .replacing(number, other)
}

/// Returns the name of a resource that differs from this one only in capital and small letters.
fn resource_in_other_letters<'t>(tokens: &[Token<'t>], name: &[u8]) -> Option<&'t [u8]> {
    for number in 0..tokens.len() {
        let other = text_at(tokens, number.saturating_add(1));
        if is_at(tokens, number, Mark::Resource) && other.eq_ignore_ascii_case(name) {
            return Some(other);
        }
    }
    None
}

/// Returns what is told of an integer that is not declared and that no other name is near.
fn unknown_integer<'t>(tokens: &[Token<'t>], number: usize) -> Told<'t> {
    let hint = if declares_integers(tokens, number) {
        "add it to the integers that the process declares"
    } else {
        "declare it after the first begin of the process: integer @1;"
    };
    let told = undeclared(tokens, number, false, hint).declaring();
    match other_owner(tokens, text_at(tokens, number)) {
        Some(owner) => told
            .with_words(text_at(tokens, number), process_name(tokens, number), owner)
            .with_second("the integer @1 of process @3 cannot be used in another process"),
        None => told,
    }
}

/// Returns what is told of a name that is a value in other languages: a truth value, or, if it is not assigned and no process
/// declares it, another one.
fn value_word<'t>(tokens: &[Token<'t>], number: usize) -> Option<Told<'t>> {
    let name = text_at(tokens, number);
    let value = value_of(name)?;
    let is_assigned = is_at(tokens, number.saturating_add(1), Mark::Assign);
    if !is_truth(name) && (is_assigned || other_owner(tokens, name).is_some()) {
        return None;
    }
    let told = undeclared(tokens, number, false, value.hint);
    if is_assigned || value.instead.is_empty() {
        Some(told)
    } else {
        Some(told.replacing(number, value.instead.as_bytes()))
    }
}

/// Returns the name of an integer of the same process that differs from this one only in capital letters.
fn integer_in_other_letters<'t>(tokens: &[Token<'t>], number: usize) -> Option<&'t [u8]> {
    let name = text_at(tokens, number);
    let mut declared = None;
    for i in process_before(tokens, number)?..number {
        declared = integers_behind(tokens, i, declared);
        let other = text_at(tokens, i);
        if declared.is_some() && is_name(tokens, i) && other.eq_ignore_ascii_case(name) {
            return Some(other);
        }
    }
    None
}

/// Returns whether a name is a truth value in other languages.
fn is_truth(name: &[u8]) -> bool {
    name.eq_ignore_ascii_case(b"true") || name.eq_ignore_ascii_case(b"false")
}

/// Returns whether the process in which a token is declares any integer.
fn declares_integers(tokens: &[Token], number: usize) -> bool {
    match process_before(tokens, number) {
        Some(process) => is_at(tokens, process.saturating_add(3), Mark::Integer),
        None => false,
    }
}

/// Returns the name of a process that declares an integer of this name.
fn other_owner<'t>(tokens: &[Token<'t>], name: &[u8]) -> Option<&'t [u8]> {
    let mut declared = None;
    for number in 0..tokens.len() {
        declared = integers_behind(tokens, number, declared);
        if declared.is_some() && text_at(tokens, number) == name {
            return Some(process_name(tokens, number));
        }
    }
    None
}

fn amount<'t>(tokens: &[Token<'t>], number: usize) -> Told<'t> {
    let value = text_at(tokens, number);
    let hint = if value.iter().all(|byte| *byte == b'0') {
        "leave the hold out, or hold at least 1"
    } else {
        ""
    };
    if is_at(tokens, number.saturating_sub(1), Mark::Equal) {
        let name = text_at(tokens, number.saturating_sub(2));
        telling(
            "resource @2 cannot have the capital @1: at most 1000000 is allowed",
            hint,
        )
        .with_words(value, name, b"")
    } else {
        let name = text_at(tokens, number.saturating_add(2));
        telling("a hold cannot be @1 of @2: an amount is 1 to 1000000", hint).with_words(
            value, name, b"",
        )
    }
}

fn repeated<'t>(tokens: &[Token<'t>], number: usize) -> Told<'t> {
    telling(
        "the hold names resource @1 twice",
        "a hold has one amount of each resource: add the two amounts, or put one hold inside the other",
    )
    .naming(text_at(tokens, number))
}

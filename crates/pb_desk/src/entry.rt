//! Entries of a journal.

ghost use Rattle.std.specs.Prelude.{◌≡◌, ◌<◌, ◌≤◌, length, take, drop, option_map, true};
ghost use Rattle.std.specs.Char.{is_ascii_digit};
ghost use Rattle.std.specs.List.{list_all};
ghost use Rattle.std.specs.Str.{bytes_eq};
ghost use Rattle.std.specs.Str.Parse.{digits_value};
ghost use Rattle.pb_desk.specs.Entries as spec;
ghost use Rattle.pb_desk.specs.Entries.{entry_view};

use crate::words::{back, front};
use pb_code::is_numeral;

/// An entry of a journal.
#[derive(Clone, Copy)]
pub enum Entry<'t> {
    /// A session begins: its number, its key, and the seconds of its lease.
    Begin(u64, &'t [u8], u64),
    /// A session ends.
    End(u64),
    /// A command: the session, the number of the request, whether an operator gave it, and its line.
    Command(u64, u64, bool, &'t [u8]),
    /// A command of the first start.
    Declare(&'t [u8]),
}

/// What is before the first space of a text, and what is after it.
#[derive(Clone, Copy)]
struct Field<'t> {
    first: &'t [u8],
    rest: &'t [u8],
}

/// Parts a text at its first space.
fn cut<'t>(text: &'t [u8]) -> Field<'t>
    ensures first { result.first.now ≡ spec.field_of text.now }
    ensures rest { result.rest.now ≡ spec.after_field text.now }
{
    for i in 0..text.len() {
        if text[i] == b' ' {
            return Field {
                first: front(text, i),
                rest: back(text, i + 1),
            };
        }
    }
    Field {
        first: text,
        rest: back(text, text.len()),
    }
}

/// Returns the number that up to eighteen digits write.
fn value(digits: &[u8]) -> u64
    requires digits { list_all is_ascii_digit digits.now ≡ true }
    requires few { length digits.now < 19 }
    ensures { result ≡ digits_value 10 digits.now }
{
    let mut number: u64 = 0;
    for digit in digits {
        number = number * 10 + (*digit - b'0') as u64;
    }
    number
}

/// Returns the number that a word is, if it has one to eighteen digits.
fn number_of(word: &[u8]) -> Option<u64>
    ensures { result ≡ spec.number_of word.now }
{
    if is_numeral(word) && word.len() < 19 {
        Some(value(word))
    } else {
        None
    }
}

/// Returns the entry by which a session begins.
fn begin_of<'t>(text: &'t [u8]) -> Option<Entry<'t>>
    ensures { option_map entry_view result ≡ spec.begin_of text.now }
{
    let id = cut(text);
    let key = cut(id.rest);
    let Some(number) = number_of(id.first) else {
        return None;
    };
    let Some(lease) = number_of(key.rest) else {
        return None;
    };
    Some(Entry::Begin(number, key.first, lease))
}

/// Returns the entry by which a session ends.
fn end_of<'t>(text: &'t [u8]) -> Option<Entry<'t>>
    ensures { option_map entry_view result ≡ spec.end_from (spec.number_of text.now) }
{
    match number_of(text) {
        Some(id) => Some(Entry::End(id)),
        None => None,
    }
}

/// Returns the entry of a command.
fn command_entry<'t>(by_operator: bool, text: &'t [u8]) -> Option<Entry<'t>>
    ensures { option_map entry_view result ≡ spec.command_entry by_operator text.now }
{
    let session = cut(text);
    let request = cut(session.rest);
    let Some(id) = number_of(session.first) else {
        return None;
    };
    let Some(number) = number_of(request.first) else {
        return None;
    };
    Some(Entry::Command(id, number, by_operator, request.rest))
}

/// Returns whether a word is this text.
fn is(word: &[u8], text: &str) -> bool
    ensures { result ≡ bytes_eq word.now text.now }
{
    word == text.as_bytes()
}

/// Returns the entry that a line spells.
pub fn entry_in<'t>(line: &'t [u8]) -> Option<Entry<'t>>
    ensures { option_map entry_view result ≡ spec.entry_in line.now }
{
    let kind = cut(line);
    if is(kind.first, "C") {
        return command_entry(false, kind.rest);
    }
    if is(kind.first, "P") {
        return command_entry(true, kind.rest);
    }
    if is(kind.first, "O") {
        return begin_of(kind.rest);
    }
    if is(kind.first, "E") {
        return end_of(kind.rest);
    }
    if is(kind.first, "A") {
        return Some(Entry::Declare(kind.rest));
    }
    None
}

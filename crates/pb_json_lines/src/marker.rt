//! What a byte of a pattern stands for, and what it takes of a line.

ghost use Rattle.std.specs.Prelude.{◌≡◌, ◌≤◌, ◌<◌, ◌==◌, IfSome, length, not, true};
ghost use Rattle.std.specs.List.{list_all, list_any, position};
ghost use Rattle.std.specs.Char.{is_ascii_digit};
ghost use Rattle.std.specs.Str.Parse.{digits_value};
ghost use Rattle.pb_code.specs.Names as names;
ghost use Rattle.pb_json_lines.specs.Lists as lists;
ghost use Rattle.pb_json_lines.specs.Patterns as spec;

use crate::list::{Shape, is_label_byte, is_list, is_name_byte};
use pb_code::is_numeral;

/// What a byte of a pattern stands for.
#[derive(Clone, Copy, Debug, PartialEq, Eq)]
pub enum Marker {
    /// The byte itself.
    Itself,
    /// A name.
    Name,
    /// A number.
    Number,
    /// Amounts with their resources, up to the end of the line.
    Pairs,
    /// Amounts with the resources of a bank, up to the end of the line.
    Shares,
    /// Numbers, up to the end of the line.
    Numbers,
    /// All up to the end of the line.
    Rest,
    /// An `s`, if there is one.
    Plural,
    /// The name of a job or a resource of a bank.
    Label,
    /// The code of a refusal.
    Code,
}

/// Returns whether a byte is one of these.
fn is_among(bytes: &[u8], byte: u8) -> bool
    ensures { result ≡ list_any (λ b. b == byte) bytes.now }
{
    bytes.iter().any(|b| *b == byte)
}

/// Returns what a byte of a pattern stands for.
pub(crate) fn marker_of(byte: u8) -> Marker
    ensures { result ≡ spec.marker_of byte }
{
    if is_among(b"PRXCFTU2", byte) {
        Marker::Name
    } else if is_among(b"AVKMGLENODSIQJY015679", byte) {
        Marker::Number
    } else if byte == b'B' {
        Marker::Pairs
    } else if byte == b'@' {
        Marker::Shares
    } else if byte == b'H' {
        Marker::Numbers
    } else if byte == b'W' {
        Marker::Rest
    } else if byte == b'Z' {
        Marker::Plural
    } else if byte == b'3' || byte == b'4' {
        Marker::Label
    } else if byte == b'8' {
        Marker::Code
    } else {
        Marker::Itself
    }
}

/// Returns the place of the first byte that no name has.
fn name_end(line: &[u8]) -> Option<usize>
    ensures place { result ≡ position (λ b. not (names.is_name_byte b)) line.now }
    ensures within { IfSome result (λ at. at < length line.now) }
{
    line.iter().position(|b| !is_name_byte(*b))
}

/// Returns the place of the first byte that no such name has.
fn label_end(line: &[u8]) -> Option<usize>
    ensures place { result ≡ position (λ b. not (lists.is_label_byte b)) line.now }
    ensures within { IfSome result (λ at. at < length line.now) }
{
    line.iter().position(|b| !is_label_byte(*b))
}

/// Returns whether a byte is a digit or a minus sign.
fn is_number_byte(b: u8) -> bool
    ensures { result ≡ spec.is_number_byte b }
{
    b.is_ascii_digit() || b == b'-'
}

/// Returns the place of the first byte that no number has.
fn number_end(line: &[u8]) -> Option<usize>
    ensures place { result ≡ position (λ b. not (spec.is_number_byte b)) line.now }
    ensures within { IfSome result (λ at. at < length line.now) }
{
    line.iter().position(|b| !is_number_byte(*b))
}

/// Returns the place, or the length of the line.
fn up_to(end: Option<usize>, line: &[u8]) -> usize
    requires { IfSome end (λ at. at < length line.now) }
    ensures value { result ≡ spec.up_to end line.now }
    ensures within { result ≤ length line.now }
{
    match end {
        Some(at) => at,
        None => line.len(),
    }
}

/// Returns 1 if there is a byte.
fn one(line: &[u8]) -> usize
    ensures value { result ≡ spec.one line.now }
    ensures within { result ≤ length line.now }
{
    match line {
        [] => 0,
        [_, ..] => 1,
    }
}

/// Returns 1 if the first byte is an `s`.
fn plural(line: &[u8]) -> usize
    ensures value { result ≡ spec.plural line.now }
    ensures within { result ≤ length line.now }
{
    match line {
        [b's', ..] => 1,
        _ => 0,
    }
}

/// Returns how many bytes of a line a byte of a pattern takes.
pub(crate) fn taken(marker: Marker, line: &[u8]) -> usize
    ensures value { result ≡ spec.taken_by marker line.now }
    ensures within { result ≤ length line.now }
{
    match marker {
        Marker::Itself => one(line),
        Marker::Name | Marker::Code => up_to(name_end(line), line),
        Marker::Label => up_to(label_end(line), line),
        Marker::Number => up_to(number_end(line), line),
        Marker::Plural => plural(line),
        Marker::Pairs | Marker::Shares | Marker::Numbers | Marker::Rest => line.len(),
    }
}

/// Returns whether a word begins with a letter.
fn begins_with_letter(word: &[u8]) -> bool
    ensures { result ≡ spec.begins_with_letter word.now }
{
    match word {
        [] => false,
        [first, ..] => first.is_ascii_alphabetic(),
    }
}

/// Returns whether a word is a number, after a minus sign or not.
fn is_integer(word: &[u8]) -> bool
    ensures { result ≡ spec.is_integer word.now }
{
    match word {
        [] => false,
        [b'-', rest @ ..] => is_numeral(rest),
        _ => is_numeral(word),
    }
}

/// Returns whether a word is a capital letter and a number, or `input` or `output`.
fn is_code(word: &[u8]) -> bool
    ensures { result ≡ spec.is_code word.now }
{
    match word {
        [] => false,
        [first, rest @ ..] => {
            (first.is_ascii_uppercase() && is_numeral(rest))
                || (word == b"input".as_slice() || word == b"output".as_slice())
        }
    }
}

/// Returns whether the bytes that a byte of a pattern took are of its form.
pub(crate) fn meets(marker: Marker, byte: u8, word: &[u8]) -> bool
    ensures { result ≡ spec.meets_by marker byte word.now }
{
    match marker {
        Marker::Itself => word == [byte].as_slice(),
        Marker::Name => begins_with_letter(word),
        Marker::Label => !word.is_empty(),
        Marker::Code => is_code(word),
        Marker::Number => is_integer(word),
        Marker::Pairs => is_list(Shape::Pairs, word),
        Marker::Shares => is_list(Shape::Shares, word),
        Marker::Numbers => is_list(Shape::Numbers, word),
        Marker::Plural | Marker::Rest => true,
    }
}

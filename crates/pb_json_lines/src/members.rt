//! The members that the pattern of a line makes of it.

ghost use Rattle.std.specs.Prelude.{◌≡◌, ◌≤◌, ◌<◌, ◌++◌, OnOk, codes, length, true};
ghost use Rattle.std.specs.List.{list_all};
ghost use Rattle.std.specs.Char.{is_ascii_digit};
ghost use Rattle.std.specs.Str.Parse.{digits_value};
ghost use Rattle.pb_json.specs.Strings.{string_text};
ghost use Rattle.pb_json_lines.specs.Lists.{list_text};
ghost use Rattle.pb_json_lines.specs.Patterns as spec;

use crate::list::{Shape, put_list};
use crate::marker::{Marker, marker_of, meets, taken};
use pb_base::NoMemory;
use pb_base::writing::put;
use pb_code::is_numeral;
use pb_json::put_string;

/// The first number that a float of 64 bits may not have.
const TOO_GREAT: u64 = 9_007_199_254_740_992;

/// Returns whether a line is of a pattern.
pub(crate) fn fits(pattern: &[u8], line: &[u8]) -> bool
    ensures { result ≡ spec.fits pattern.now line.now }
{
    let mut rest = line;
    for i in 0..pattern.len() {
        let byte = pattern[i];
        let marker = marker_of(byte);
        let (word, behind) = rest.split_at(taken(marker, rest));
        if !meets(marker, byte, word) {
            return false;
        }
        rest = behind;
    }
    rest.is_empty()
}

/// Returns the key of the member that a byte of a pattern makes.
fn key_of(byte: u8) -> &'static str
    ensures { result.now ≡ spec.key_of byte }
{
    if byte == b'P' {
        "process"
    } else if byte == b'A' {
        "arm"
    } else if byte == b'V' {
        "value"
    } else if byte == b'R' {
        "resource"
    } else if byte == b'B' || byte == b'@' {
        "amounts"
    } else if byte == b'X' {
        "integer"
    } else if byte == b'Q' {
        "count"
    } else if byte == b'M' {
        "amount"
    } else if byte == b'K' {
        "claim"
    } else if byte == b'H' {
        "lines"
    } else if byte == b'G' {
        "capital"
    } else if byte == b'L' {
        "least"
    } else if byte == b'E' {
        "free"
    } else if byte == b'C' {
        "code"
    } else if byte == b'F' {
        "fault"
    } else if byte == b'I' {
        "at"
    } else if byte == b'N' {
        "number"
    } else if byte == b'O' {
        "outcomes"
    } else if byte == b'D' {
        "deadlocks"
    } else if byte == b'S' {
        "limit"
    } else if byte == b'T' {
        "outer"
    } else if byte == b'J' {
        "outer_line"
    } else if byte == b'U' {
        "inner"
    } else if byte == b'Y' {
        "inner_line"
    } else if byte == b'0' {
        "place"
    } else if byte == b'1' {
        "line"
    } else if byte == b'2' {
        "holder"
    } else if byte == b'3' {
        "job"
    } else if byte == b'4' {
        "resource"
    } else if byte == b'5' {
        "cash"
    } else if byte == b'6' {
        "needs"
    } else if byte == b'7' {
        "holds"
    } else if byte == b'8' {
        "code"
    } else if byte == b'9' {
        "of_text"
    } else {
        "text"
    }
}

/// Returns the number that up to 16 digits write.
fn value(digits: &[u8]) -> u64
    requires digits { list_all is_ascii_digit digits.now ≡ true }
    requires few { length digits.now < 17 }
    ensures { result ≡ digits_value 10 digits.now }
{
    let mut number: u64 = 0;
    for digit in digits {
        number = number * 10 + (*digit - b'0') as u64;
    }
    number
}

/// Returns whether a reader that keeps numbers as floats of 64 bits keeps the number of these digits.
fn is_exact(digits: &[u8]) -> bool
    ensures { result ≡ spec.is_exact digits.now }
{
    if is_numeral(digits) && digits.len() < 17 {
        value(digits) < TOO_GREAT
    } else {
        false
    }
}

/// Returns the digits of a number.
fn digits_of(word: &[u8]) -> &[u8]
    ensures { result.now ≡ spec.digits_of word.now }
{
    match word {
        [b'-', digits @ ..] => digits,
        _ => word,
    }
}

/// Appends a number as it stands, or a string of it.
fn put_number(out: &mut Vec<u8>, word: &[u8]) -> Result<(), NoMemory>
    ensures { OnOk result (out.new.items ≡ out.old.items ++ spec.number_text word.now) }
{
    if is_exact(digits_of(word)) {
        return put(out, word);
    }
    put(out, b"\"")?;
    put(out, word)?;
    put(out, b"\"")
}

/// Appends the key of a member.
fn put_key(out: &mut Vec<u8>, byte: u8) -> Result<(), NoMemory>
    ensures { OnOk result (out.new.items ≡ out.old.items ++ (codes ",\"" ++ spec.key_of byte ++ codes "\":")) }
{
    put(out, b",\"")?;
    put(out, key_of(byte).as_bytes())?;
    put(out, b"\":")
}

/// Appends the value of a member that is a number.
fn put_number_member(out: &mut Vec<u8>, byte: u8, word: &[u8]) -> Result<(), NoMemory>
    ensures { OnOk result (out.new.items ≡ out.old.items ++ spec.member_text byte (spec.number_text word.now)) }
{
    put_key(out, byte)?;
    put_number(out, word)
}

/// Appends a member that is a string.
fn put_string_member(out: &mut Vec<u8>, byte: u8, word: &[u8]) -> Result<(), NoMemory>
    ensures { OnOk result (out.new.items ≡ out.old.items ++ spec.member_text byte (string_text word.now)) }
{
    put_key(out, byte)?;
    put_string(out, word)
}

/// Appends a member that is a list.
fn put_list_member(out: &mut Vec<u8>, byte: u8, shape: Shape, word: &[u8]) -> Result<(), NoMemory>
    ensures { OnOk result (out.new.items ≡ out.old.items ++ spec.member_text byte (list_text shape word.now)) }
{
    put_key(out, byte)?;
    put_list(out, shape, word)
}

/// Appends the member that a byte of a pattern makes of what it took.
fn put_member(out: &mut Vec<u8>, marker: Marker, byte: u8, word: &[u8]) -> Result<(), NoMemory>
    ensures { OnOk result (out.new.items ≡ out.old.items ++ spec.member_by marker byte word.now) }
{
    match marker {
        Marker::Itself | Marker::Plural => Ok(()),
        Marker::Name | Marker::Rest | Marker::Label | Marker::Code => {
            put_string_member(out, byte, word)
        }
        Marker::Number => put_number_member(out, byte, word),
        Marker::Pairs => put_list_member(out, byte, Shape::Pairs, word),
        Marker::Shares => put_list_member(out, byte, Shape::Shares, word),
        Marker::Numbers => put_list_member(out, byte, Shape::Numbers, word),
    }
}

/// Appends the members that a pattern makes of a line.
pub(crate) fn put_members(out: &mut Vec<u8>, pattern: &[u8], line: &[u8]) -> Result<(), NoMemory>
    ensures { OnOk result (out.new.items ≡ out.old.items ++ spec.members pattern.now line.now) }
{
    let mut rest = line;
    for i in 0..pattern.len() {
        let byte = pattern[i];
        let marker = marker_of(byte);
        let (word, behind) = rest.split_at(taken(marker, rest));
        put_member(out, marker, byte, word)?;
        rest = behind;
    }
    Ok(())
}

//! The words of a command.

ghost use Rattle.std.specs.Prelude.{◌≡◌, ◌<◌, ◌==◌, length, option_map, true, IfSome};
ghost use Rattle.std.specs.Char.{is_ascii_digit};
ghost use Rattle.std.specs.List.{list_all, position};
ghost use Rattle.std.specs.Str.Parse.{digits_value};
ghost use Rattle.pb_debug_commands.specs.Commands as spec;
ghost use Rattle.pb_debug_commands.specs.View.{arm_view, integer_view};

use pb_code::{are_name_bytes, is_numeral};

/// An arm, by the name of its process and its number.
#[derive(Clone, Copy)]
pub struct ArmWord<'t> {
    pub process: &'t [u8],
    pub arm: u32,
}

/// An integer of a process, by their names.
#[derive(Clone, Copy)]
pub struct IntegerWord<'t> {
    pub process: &'t [u8],
    pub integer: &'t [u8],
}

/// An arm, and a line.
#[derive(Clone, Copy)]
pub struct StopWord<'t> {
    pub process: &'t [u8],
    pub arm: u32,
    pub line: u32,
}

/// Returns the number that up to ten digits write.
fn value(digits: &[u8]) -> u64
    requires digits { list_all is_ascii_digit digits.now ≡ true }
    requires few { length digits.now < 11 }
    ensures { result ≡ digits_value 10 digits.now }
{
    let mut number: u64 = 0;
    for digit in digits {
        number = number * 10 + (*digit - b'0') as u64;
    }
    number
}

/// Returns the number that a word of one to eight digits writes.
pub(crate) fn number(word: &[u8]) -> Option<u32>
    ensures { result ≡ spec.number_of word.now }
{
    if is_numeral(word) && word.len() < 9 {
        Some(value(word) as u32)
    } else {
        None
    }
}

/// Returns the number up to 4,294,967,295 that a word writes.
pub(crate) fn mark(word: &[u8]) -> Option<u32>
    ensures { result ≡ spec.mark_of word.now }
{
    if is_numeral(word) && word.len() < 11 {
        u32::try_from(value(word)).ok()
    } else {
        None
    }
}

/// Returns whether a word looks like a name: a letter, then letters, digits or `_`.
pub(crate) fn looks_like_name(word: &[u8]) -> bool
    ensures { result ≡ spec.looks_like_name word.now }
{
    match word {
        [] => false,
        [first, rest @ ..] => first.is_ascii_alphabetic() && are_name_bytes(rest),
    }
}

/// Returns the word, if it looks like a name.
pub(crate) fn name_word(word: &[u8]) -> Option<&[u8]>
    ensures { option_map (λ w. w.now) result ≡ spec.word_of word.now }
{
    if looks_like_name(word) {
        Some(word)
    } else {
        None
    }
}

/// Returns the offset of the first byte that is this one.
pub(crate) fn find(text: &[u8], byte: u8) -> Option<usize>
    ensures place { result ≡ position (λ b. b == byte) text.now }
    ensures within { IfSome result (λ at. at < length text.now) }
{
    text.iter().position(|b| *b == byte)
}

/// Returns the process and the arm of a word `P.a`.
pub(crate) fn arm_word(word: &[u8]) -> Option<ArmWord>
    ensures { option_map arm_view result ≡ spec.arm_of word.now }
{
    let dot = find(word, b'.')?;
    let process = &word[..dot];
    if !looks_like_name(process) {
        return None;
    }
    let arm = number(&word[dot + 1..])?;
    Some(ArmWord { process, arm })
}

/// Returns the process and the integer of a word `P X`.
pub(crate) fn integer_word(word: &[u8]) -> Option<IntegerWord>
    ensures { option_map integer_view result ≡ spec.integer_of word.now }
{
    let space = find(word, b' ')?;
    let process = name_word(&word[..space])?;
    let integer = name_word(&word[space + 1..])?;
    Some(IntegerWord { process, integer })
}

//! Lines, their words, and what a word says.

ghost use Rattle.std.specs.Prelude.{◌≡◌, ◌<◌, ◌^◌, ◌-◌, map, IfOk, IfErr, min, true};
ghost use Rattle.std.specs.Str.{bytes_eq};
ghost use Rattle.std.specs.Str.Parse.{digits_value};
ghost use Rattle.pb_object.specs.declared.words.Verdict.TheVariants.{Read};
ghost use Rattle.pb_object.specs.Lines.{Fails, Gives, first_words, judged};
ghost use Rattle.pb_object.specs.Words as spec;
ghost use Rattle.std.specs.List.{list_all};
ghost use Rattle.std.specs.Char.{is_ascii_digit};

use crate::fault::{Fault, ReadError};
use pb_code::is_numeral;
use std::alloc::{AllocError, Global};

/// What a line or a part of it says.
#[derive(Clone, Copy)]
pub(crate) enum Verdict<T> {
    /// It is not of the form.
    Malformed,
    /// It is of the form, with a number out of range.
    Beyond,
    Read(T),
}

/// Leaves in `words` the words of the first line, and returns what follows its end.
pub(crate) fn words_into<'t>(
    words: &mut Vec<&'t [u8]>,
    text: &'t [u8],
) -> Result<&'t [u8], ReadError>
    ensures { Gives (λ rest. (map (λ w. w.now) words.new.items, rest.now)) result (first_words text.now) }
{
    words.clear();
    let mut start = 0;
    for end in 0..text.len() {
        match text[end] {
            b' ' => {
                words.push(&text[start..end])?;
                start = end + 1;
            }
            b'\n' => {
                words.push(&text[start..end])?;
                return Ok(&text[end + 1..]);
            }
            _ => {}
        }
    }
    Err(ReadError::Fault(Fault::Malformed(text.len())))
}

/// Returns the words of the first line, and what follows its end.
pub(crate) fn words_of(alloc: Global, text: &[u8]) -> Result<(Vec<&[u8]>, &[u8]), ReadError>
    ensures { Gives (λ x. (map (λ w. w.now) x.0.items, x.1.now)) result (first_words text.now) }
{
    let mut words = Vec::new(alloc);
    let rest = words_into(&mut words, text)?;
    Ok((words, rest))
}

/// Returns what the line is read as, if the text from its start on has `left` bytes, and what follows the
/// line.
pub(crate) fn judge_line<T>(
    left: usize,
    verdict: Verdict<T>,
    rest: &[u8],
) -> Result<(T, &[u8]), ReadError>
    ensures read { IfOk result (λ x. (verdict ≡ Read x.0) × (x.1.now ≡ rest.now)) }
    ensures fault { IfErr result (λ e. Fails e (judged left verdict)) }
{
    match verdict {
        Verdict::Malformed => Err(ReadError::Fault(Fault::Malformed(left))),
        Verdict::Beyond => Err(ReadError::Fault(Fault::Beyond(left))),
        Verdict::Read(x) => Ok((x, rest)),
    }
}

/// Returns whether the word is this text.
pub(crate) fn is(word: &[u8], text: &str) -> bool
    ensures { result ≡ bytes_eq word.now text.now }
{
    word == text.as_bytes()
}

/// Returns a copy of the word.
pub(crate) fn copy_of(alloc: Global, word: &[u8]) -> Result<Vec<u8>, AllocError>
    ensures { IfOk result (λ copy. copy.items ≡ word.now) }
{
    word.to_vec(alloc)
}

/// Returns whether two words are the same.
pub(crate) fn same(a: &[u8], b: &[u8]) -> bool
    ensures { result ≡ bytes_eq a.now b.now }
{
    a == b
}

/// Returns the number that digits write, or `u64::MAX` if it is larger.
pub(crate) fn saturated(digits: &[u8]) -> u64
    requires { list_all is_ascii_digit digits.now ≡ true }
    ensures { result ≡ min (digits_value 10 digits.now) (2 ^ 64 - 1) }
{
    let mut number: u64 = 0;
    for digit in digits {
        number = number
            .saturating_mul(10)
            .saturating_add((*digit - b'0') as u64);
    }
    number
}

/// Returns a number from `low` to `high`.
#[tactic(auto, unfolding(crate::specs::Words::number))]
pub(crate) fn number(low: u64, high: u64, word: &[u8]) -> Verdict<u64>
    requires { high < 2 ^ 64 - 1 }
    ensures number { result ≡ spec.number low high word.now }
    ensures range { spec.IsBetween low high result }
{
    if !is_numeral(word) {
        return Verdict::Malformed;
    }
    let number = saturated(word);
    if number < low || high < number {
        return Verdict::Beyond;
    }
    Verdict::Read(number)
}

//! How far a piece of a text goes.

ghost use Rattle.std.specs.Prelude.{◌≡◌, ◌<◌, ◌≤◌, ◌⊎◌, ℕ, ◌+◌, pos, true, false};
ghost use Rattle.std.specs.Prelude.{MatchOption, length, slice_index, EachIndex};
ghost use Rattle.std.specs.Char.{is_ascii_digit};
ghost use Rattle.pb_lexer.specs.Forms.{is_allowed, is_blank, is_word, value};

use pb_base::limits::MAX_NUMBER;

/// Returns whether a text may have the byte.
pub(crate) fn is_allowed(byte: u8) -> bool
    ensures { result ≡ is_allowed byte }
{
    matches!(byte, b' '..=b'~' | b'\t' | b'\n' | b'\r')
}

/// Returns whether the byte is a space, tab, line feed or carriage return.
pub(crate) fn is_blank(byte: u8) -> bool
    ensures { result ≡ is_blank byte }
{
    matches!(byte, b' ' | b'\t' | b'\n' | b'\r')
}

/// Returns whether the byte is a letter, a digit or `_`.
fn is_word(byte: u8) -> bool
    ensures { result ≡ is_word byte }
{
    byte.is_ascii_alphabetic() || byte.is_ascii_digit() || byte == b'_'
}

/// Returns where the letters, digits and `_` from `start` on end.
pub(crate) fn word_end(text: &[u8], start: usize) -> usize
    requires { start ≤ length text.now }
    ensures within { (start ≤ result) × (result ≤ length text.now) }
    ensures each { (k : ℕ) → start ≤ k → k < result → is_word (slice_index text.now k) ≡ true }
    ensures stops { result < length text.now → is_word (slice_index text.now result) ≡ false }
{
    let mut end = start;
    while end < text.len() && is_word(text[end]) {
        end += 1;
    }
    end
}

/// Returns where the digits from `start` on end.
pub(crate) fn digits_end(text: &[u8], start: usize) -> usize
    requires { start ≤ length text.now }
    ensures within { (start ≤ result) × (result ≤ length text.now) }
    ensures each { (k : ℕ) → start ≤ k → k < result → is_ascii_digit (slice_index text.now k) ≡ true }
    ensures stops { result < length text.now → is_ascii_digit (slice_index text.now result) ≡ false }
{
    let mut end = start;
    while end < text.len() && text[end].is_ascii_digit() {
        end += 1;
    }
    end
}

/// Returns where the line ends that goes on from `start`.
pub(crate) fn line_end(text: &[u8], start: usize) -> usize
    requires { start ≤ length text.now }
    ensures within { (start ≤ result) × (result ≤ length text.now) }
    ensures each { (k : ℕ) → start ≤ k → k < result → slice_index text.now k ≡ 10 → ⊥ }
    ensures stops { (result ≡ length text.now) ⊎ (slice_index text.now result ≡ 10) }
{
    let mut end = start;
    while end < text.len() && text[end] != b'\n' {
        end += 1;
    }
    end
}

/// Returns the offset of the first byte from `start` up to `end` that no text may have.
pub(crate) fn bad_byte(text: &[u8], start: usize, end: usize) -> Option<usize>
    requires { (start ≤ end) × (end ≤ length text.now) }
    ensures { MatchOption result
        ((k : ℕ) → start ≤ k → k < end → is_allowed (slice_index text.now k) ≡ true)
        (λ at. (start ≤ at) × (at < end) × (is_allowed (slice_index text.now at) ≡ false)
        × ((k : ℕ) → start ≤ k → k < at → is_allowed (slice_index text.now k) ≡ true)) }
{
    let mut at = start;
    while at < end {
        if !is_allowed(text[at]) {
            return Some(at);
        }
        at += 1;
    }
    None
}

/// Returns the number that the digits say, if it is not too large.
pub(crate) fn value(digits: &[u8]) -> Option<u64>
    requires { EachIndex digits.now (λ k. is_ascii_digit (slice_index digits.now k) ≡ true) }
    ensures { MatchOption result
        (MAX_NUMBER < value digits.now)
        (λ n. (n ≡ value digits.now) × (n ≤ MAX_NUMBER)) }
{
    let mut number = 0;
    for digit in digits {
        if number > MAX_NUMBER / 10 {
            return None;
        }
        number = 10 * number + u64::from(*digit - b'0');
        if number > MAX_NUMBER {
            return None;
        }
    }
    Some(number)
}

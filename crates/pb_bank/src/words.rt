//! The words of a line.

ghost use Rattle.std.specs.Prelude.{◌≡◌, ◌<◌, ◌≤◌, ◌||◌, ◌==◌, ◌∷◌, [], length, take, drop, slice_index, slice_index_or, map, IfSome, IfNone};
ghost use Rattle.std.specs.Prelude.{true, false};
ghost use Rattle.std.specs.Char.{is_ascii_digit};
ghost use Rattle.std.specs.List.{list_all};
ghost use Rattle.std.specs.Str.Parse.{digits_value};
ghost use Rattle.pb_bank.specs.Answers as answers;
ghost use Rattle.pb_bank.specs.Desks as desk;
ghost use Rattle.pb_bank.specs.Words as spec;

use pb_base::limits::MAX_AMOUNT;
use pb_code::is_numeral;

/// A word, and what is behind it.
#[derive(Clone, Copy)]
pub struct Cut<'t> {
    pub word: &'t [u8],
    pub rest: &'t [u8],
}

/// Two words, and what is after them.
#[derive(Clone, Copy)]
pub struct TwoWords<'t> {
    pub first: &'t [u8],
    pub second: &'t [u8],
    pub rest: &'t [u8],
}

/// Returns whether a byte is a space, a tab or a carriage return.
pub fn is_blank(b: u8) -> bool
    ensures { result ≡ spec.is_blank b }
{
    b == b' ' || b == b'\t' || b == b'\r'
}

#[tactic(auto, using(crate::proofs::WordLemmas::skip_blank, crate::proofs::WordLemmas::trim_blank, crate::proofs::WordLemmas::trim_ends, crate::proofs::WordLemmas::trim_nothing))]
/// Returns the number of blanks that a text begins with.
fn blanks(text: &[u8]) -> usize
    ensures bound { result ≤ length text.now }
    ensures words { spec.words_of (drop result text.now) ≡ spec.words_of text.now }
    ensures trimmed { spec.trimmed text.now ≡ drop result text.now }
    ensures ends { result < length text.now → spec.is_blank (slice_index text.now result) ≡ false }
{
    for i in 0..text.len() {
        if !is_blank(text[i]) {
            return i;
        }
    }
    text.len()
}

#[tactic(auto, using(crate::proofs::WordLemmas::word_more, crate::proofs::WordLemmas::starts))]
/// Returns the number of bytes before the first blank or comma.
fn word_length(text: &[u8]) -> usize
    ensures bound { result ≤ length text.now }
    ensures words { spec.words_of text.now ≡ spec.cut_words (take result text.now) (drop result text.now) }
    ensures ends { result < length text.now → spec.ends_word (slice_index text.now result) ≡ true }
{
    for i in 0..text.len() {
        if is_blank(text[i]) || text[i] == b',' {
            return i;
        }
    }
    text.len()
}

/// Parts a text.
fn cut_at<'t>(text: &'t [u8], at: usize) -> Cut<'t>
    requires { at ≤ length text.now }
    ensures word { result.word.now ≡ take at text.now }
    ensures rest { result.rest.now ≡ drop at text.now }
{
    let (word, rest) = text.split_at(at);
    Cut { word, rest }
}

/// Returns a text without the blanks that it begins with.
pub fn trimmed<'t>(text: &'t [u8]) -> &'t [u8]
    ensures { result.now ≡ spec.trimmed text.now }
{
    cut_at(text, blanks(text)).rest
}

/// Returns the first word of a text that does not begin with a blank.
fn word_at_once<'t>(text: &'t [u8]) -> Cut<'t>
    requires { 0 < length text.now → spec.is_blank (slice_index text.now 0) ≡ false }
    ensures words { spec.words_of text.now ≡ spec.before result.word.now (spec.words_of result.rest.now) }
    ensures shorter { length result.rest.now ≤ length text.now }
    ensures less { 0 < length result.word.now → length result.rest.now < length text.now }
    ensures some { 0 < length text.now → 0 < length result.word.now }
{
    if text.is_empty() {
        return Cut {
            word: text,
            rest: text,
        };
    }
    let length = word_length(text);
    if length == 0 {
        return cut_at(text, 1);
    }
    cut_at(text, length)
}

/// Returns the first word of a text, which is empty if there is none.
pub fn first_word<'t>(text: &'t [u8]) -> Cut<'t>
    ensures words { spec.words_of text.now ≡ spec.before result.word.now (spec.words_of result.rest.now) }
    ensures shorter { length result.rest.now ≤ length text.now }
    ensures less { 0 < length result.word.now → length result.rest.now < length text.now }
    ensures none { length result.word.now ≡ 0 → spec.words_of text.now ≡ [] }
{
    let start = cut_at(text, blanks(text));
    word_at_once(start.rest)
}

/// Returns what is after the command of a line.
pub fn after_command<'t>(line: &'t [u8]) -> &'t [u8]
    ensures { spec.words_of result.now ≡ answers.line_words line.now }
{
    first_word(trimmed(line)).rest
}

/// Returns the first two words of a text.
pub fn two_words<'t>(text: &'t [u8]) -> Option<TwoWords<'t>>
    ensures some { IfSome result (λ w. spec.words_of text.now ≡ w.first.now ∷ w.second.now ∷ spec.words_of w.rest.now) }
    ensures shorter { IfSome result (λ w. length w.rest.now < length text.now) }
    ensures first { IfSome result (λ w. 0 < length w.first.now) }
    ensures none { IfNone result (spec.has_two (spec.words_of text.now) ≡ false) }
{
    let one = first_word(text);
    if one.word.is_empty() {
        return None;
    }
    let two = first_word(one.rest);
    if two.word.is_empty() {
        return None;
    }
    Some(TwoWords {
        first: one.word,
        second: two.word,
        rest: two.rest,
    })
}

/// Returns the word with this number of a text, which is empty if there is none.
pub fn nth_word<'t>(text: &'t [u8], n: usize) -> &'t [u8]
    ensures { result.now ≡ slice_index_or (spec.words_of text.now) n [] }
{
    let mut rest = text;
    for k in 0..n {
        let _ = k;
        rest = first_word(rest).rest;
    }
    first_word(rest).word
}

/// Returns the number that up to seven digits write.
fn value(digits: &[u8]) -> u32
    requires digits { list_all is_ascii_digit digits.now ≡ true }
    requires few { length digits.now < 8 }
    ensures { result ≡ digits_value 10 digits.now }
{
    let mut number: u32 = 0;
    for digit in digits {
        number = number * 10 + (*digit - b'0') as u32;
    }
    number
}

/// Returns the amount that a word writes, if it is at most 1,000,000.
pub fn amount_of(word: &[u8]) -> Option<u32>
    ensures { result ≡ spec.amount_of word.now }
{
    if is_numeral(word) && word.len() < 8 {
        let amount = value(word);
        if MAX_AMOUNT < amount {
            None
        } else {
            Some(amount)
        }
    } else {
        None
    }
}

fn is_name_byte(b: u8) -> bool
    ensures { result ≡ spec.is_name_byte b }
{
    b.is_ascii_alphabetic() || b.is_ascii_digit() || b == b'_' || b == b'-' || b == b'.'
}

fn are_name_bytes(word: &[u8]) -> bool
    ensures { result ≡ list_all spec.is_name_byte word.now }
{
    word.iter().all(|b| is_name_byte(*b))
}

/// Returns whether a word can be a name.
pub fn is_name(word: &[u8]) -> bool
    ensures { result ≡ spec.is_name word.now }
{
    word.len() < 33 && are_name_bytes(word)
}

/// Returns whether a word is a comma.
pub fn is_comma(word: &[u8]) -> bool
    ensures { result ≡ spec.is_comma word.now }
{
    word == ",".as_bytes()
}

/// Returns the number of the first that has this name.
pub fn place_of(names: &[Vec<u8>], word: &[u8]) -> Option<usize>
    ensures place { result ≡ desk.place_of (map (λ name. name.items) names.now) word.now }
    ensures within { IfSome result (λ at. at < length names.now) }
{
    for i in 0..names.len() {
        if names[i].as_slice() == word {
            return Some(i);
        }
    }
    None
}

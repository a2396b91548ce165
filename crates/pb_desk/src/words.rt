//! The words of a line, as the bank reads them.

ghost use Rattle.std.specs.Prelude.{◌≡◌, ◌<◌, ◌≤◌, ◌||◌, ◌==◌, [], length, take, drop, slice_index, false, true};
ghost use Rattle.std.specs.Str.{bytes_eq};
ghost use Rattle.pb_bank.specs.Answers.{first_of, line_words};
ghost use Rattle.pb_bank.specs.Words as spec;
ghost use Rattle.pb_desk.specs.Refusals.{subject_of, verb_of};

use pb_bank::{after_command, is_blank};

/// Returns the first bytes of a text.
pub(crate) fn front<'t>(text: &'t [u8], count: usize) -> &'t [u8]
    requires { count ≤ length text.now }
    ensures { result.now ≡ take count text.now }
{
    let (first, _) = text.split_at(count);
    first
}

/// Returns a text without its first bytes.
pub(crate) fn back<'t>(text: &'t [u8], count: usize) -> &'t [u8]
    requires { count ≤ length text.now }
    ensures { result.now ≡ drop count text.now }
{
    let (_, rest) = text.split_at(count);
    rest
}

/// Returns whether a byte ends a word.
fn ends_word(b: u8) -> bool
    ensures { result ≡ spec.ends_word b }
{
    is_blank(b) || b == b','
}

/// Returns the first word of a text that does not begin with a blank.
fn word_at_once<'t>(text: &'t [u8]) -> &'t [u8]
    requires { 0 < length text.now → spec.is_blank (slice_index text.now 0) ≡ false }
    ensures { result.now ≡ first_of (spec.words_of text.now) }
{
    for i in 0..text.len() {
        let ends = ends_word(text[i]);
        if ends {
            // A comma is a word.
            if i == 0 {
                return front(text, 1);
            }
            return front(text, i);
        }
    }
    text
}

/// Returns the first word of a text, which is empty if there is none.
fn first_word<'t>(text: &'t [u8]) -> &'t [u8]
    ensures first { result.now ≡ first_of (spec.words_of text.now) }
    ensures trimmed { spec.words_of (spec.trimmed text.now) ≡ spec.words_of text.now }
{
    for i in 0..text.len() {
        if !is_blank(text[i]) {
            return word_at_once(back(text, i));
        }
    }
    back(text, text.len())
}

/// Returns the word that a line begins with.
fn verb<'t>(line: &'t [u8]) -> &'t [u8]
    ensures { result.now ≡ verb_of line.now }
{
    first_word(line)
}

/// Returns whether this is the word that a line begins with.
pub(crate) fn begins_with(line: &[u8], word: &str) -> bool
    ensures { result ≡ bytes_eq (verb_of line.now) word.now }
{
    verb(line) == word.as_bytes()
}

/// Returns the second word of a line.
pub(crate) fn subject<'t>(line: &'t [u8]) -> &'t [u8]
    ensures { result.now ≡ subject_of line.now }
{
    first_word(after_command(line))
}

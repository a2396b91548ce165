//! The lines of a header.

ghost use Rattle.std.specs.Prelude.{◌≡◌, ◌<◌, length, true};
ghost use Rattle.std.specs.Char.{is_ascii_digit};
ghost use Rattle.std.specs.List.{list_all};
ghost use Rattle.std.specs.Str.Parse.{digits_value};
ghost use Rattle.pb_frames.specs.Heads as spec;

use pb_code::is_numeral;

/// What the line that says the size begins with, in any case.
const LENGTH: &[u8] = b"Content-Length:";

/// The size that is told for one of more than eight digits, which is over any limit.
const LARGE: usize = 100_000_000;

/// What a line of a header comes to, with those before it.
#[derive(Clone, Copy)]
pub enum LineEnd {
    /// More lines follow. The lines so far say this size, or none.
    Further(Option<usize>),
    /// It is the empty line after the others, which say this size.
    Complete(usize),
    /// The line is not a header field.
    Wrong,
}

/// Returns the number that up to eight digits write.
fn value(digits: &[u8]) -> usize
    requires digits { list_all is_ascii_digit digits.now ≡ true }
    requires few { length digits.now < 9 }
    ensures { result ≡ digits_value 10 digits.now }
{
    let mut number: usize = 0;
    for digit in digits {
        number = number * 10 + (*digit - b'0') as usize;
    }
    number
}

/// Returns the size that a word of digits writes, or `LARGE` if there are more than eight.
fn size_in(word: &[u8]) -> Option<usize>
    ensures { result ≡ spec.size_of word.now }
{
    if !is_numeral(word) {
        return None;
    }
    if word.len() < 9 {
        Some(value(word))
    } else {
        Some(LARGE)
    }
}

/// Returns whether a line says the size.
#[tactic(auto, using(std::proofs::lemmas::List::take_min))]
fn says_length(line: &[u8]) -> bool
    ensures { result ≡ spec.says_length line.now }
{
    let name = LENGTH.len().min(line.len());
    line[..name].eq_ignore_ascii_case(LENGTH)
}

/// Returns what stands after the name of the size, and after the blanks there.
#[tactic(auto, using(std::proofs::lemmas::List::drop_min, std::proofs::lemmas::Str::Ascii::trim_ascii_start_is))]
fn field_value(line: &[u8]) -> &[u8]
    ensures { result.now ≡ spec.field_value line.now }
{
    let name = LENGTH.len().min(line.len());
    line.split_at(name).1.trim_ascii_start()
}

/// Returns what a line, given without its end, comes to.
fn line_says(line: &[u8], said: Option<usize>) -> LineEnd
    ensures { result ≡ spec.of_line line.now said }
{
    if line.is_empty() {
        return match said {
            Some(size) => LineEnd::Complete(size),
            None => LineEnd::Wrong,
        };
    }
    if !says_length(line) {
        return LineEnd::Further(said);
    }
    match size_in(field_value(line)) {
        Some(size) => LineEnd::Further(Some(size)),
        None => LineEnd::Wrong,
    }
}

/// Returns what a line, given without its line feed, comes to, with a size that those before it say.
pub fn end_line(line: &[u8], said: Option<usize>) -> LineEnd
    ensures { result ≡ spec.of_ended line.now said }
{
    if line.is_empty() {
        return LineEnd::Wrong;
    }
    let last = line.len() - 1;
    if line[last] != b'\r' {
        return LineEnd::Wrong;
    }
    line_says(&line[..last], said)
}

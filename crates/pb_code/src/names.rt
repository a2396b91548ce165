//! Names.

ghost use Rattle.std.specs.Prelude.{◌≡◌, ◌↔◌, true};
ghost use Rattle.std.specs.List.{list_all};
ghost use Rattle.std.specs.Str.{bytes_eq};
ghost use Rattle.pb_code.specs.Limits.{IsName};
ghost use Rattle.pb_code.specs.Names as spec;

use pb_base::limits::MAX_NAME;

/// Returns whether the word is this text.
fn is(word: &[u8], text: &str) -> bool
    ensures { result ≡ bytes_eq word.now text.now }
{
    word == text.as_bytes()
}

/// Returns whether a byte is a letter, a digit or `_`.
fn is_name_byte(b: u8) -> bool
    ensures { result ≡ spec.is_name_byte b }
{
    b.is_ascii_alphabetic() || b.is_ascii_digit() || b == b'_'
}

/// Returns whether each byte is a letter, a digit or `_`.
pub fn are_name_bytes(word: &[u8]) -> bool
    ensures { result ≡ list_all spec.is_name_byte word.now }
{
    word.iter().all(|b| is_name_byte(*b))
}

/// Returns whether the word means something else than a name.
fn is_reserved(word: &[u8]) -> bool
    ensures { result ≡ spec.is_among spec.reserved_words word.now }
{
    is(word, "and")
        || is(word, "begin")
        || is(word, "div")
        || is(word, "do")
        || is(word, "else")
        || is(word, "end")
        || is(word, "fi")
        || is(word, "hold")
        || is(word, "if")
        || is(word, "integer")
        || is(word, "mod")
        || is(word, "not")
        || is(word, "od")
        || is(word, "of")
        || is(word, "or")
        || is(word, "parbegin")
        || is(word, "parend")
        || is(word, "print")
        || is(word, "process")
        || is(word, "resource")
        || is(word, "skip")
        || is(word, "then")
        || is(word, "while")
}

/// Tests a name.
#[tactic(auto, unfolding(crate::specs::Names::is_name))]
fn has_form(word: &[u8]) -> bool
    ensures { result ≡ spec.is_name word.now }
{
    match word {
        [] => false,
        [first, rest @ ..] => {
            first.is_ascii_alphabetic()
                && are_name_bytes(rest)
                && rest.len() < MAX_NAME
                && !is_reserved(word)
        }
    }
}

/// Returns whether the word may name a process, a resource or an integer: 1 to 32 letters, digits and `_`, a
/// letter first, and no reserved word.
pub fn is_name(word: &[u8]) -> bool
    ensures name { (result ≡ true) ↔ IsName word.now }
    ensures test { result ≡ spec.is_name word.now }
{
    has_form(word)
}

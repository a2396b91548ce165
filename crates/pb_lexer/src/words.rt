//! Symbols and reserved words.

ghost use Rattle.std.specs.Prelude.{◌≡◌, ◌<◌, ℕ, MatchOption, length, slice_index, true, false};
ghost use Rattle.std.specs.Prelude.{List, [], ◌∷◌};
ghost use Rattle.std.specs.Char.{is_ascii_alphabetic};
ghost use Rattle.pb_lexer.specs.Forms.{spelling};

use crate::token::Mark;

/// Returns the reserved word of two bytes that these are.
#[tactic(auto, using(crate::proofs::Spellings::none_of_two))]
fn of_two(word: &[u8]) -> Option<Mark>
    requires length { length word.now ≡ 2 }
    requires letter { is_ascii_alphabetic (slice_index word.now 0) ≡ true }
    ensures { MatchOption result
        ((m : Mark) → word.now ≡ spelling m → ⊥)
        (λ m. word.now ≡ spelling m) }
{
    if word == b"do".as_slice() {
        Some(Mark::Do)
    } else if word == b"fi".as_slice() {
        Some(Mark::Fi)
    } else if word == b"if".as_slice() {
        Some(Mark::If)
    } else if word == b"od".as_slice() {
        Some(Mark::Od)
    } else if word == b"of".as_slice() {
        Some(Mark::Of)
    } else if word == b"or".as_slice() {
        Some(Mark::Or)
    } else {
        None
    }
}

/// Returns the reserved word of three bytes that these are.
#[tactic(auto, using(crate::proofs::Spellings::none_of_three))]
fn of_three(word: &[u8]) -> Option<Mark>
    requires length { length word.now ≡ 3 }
    requires letter { is_ascii_alphabetic (slice_index word.now 0) ≡ true }
    ensures { MatchOption result
        ((m : Mark) → word.now ≡ spelling m → ⊥)
        (λ m. word.now ≡ spelling m) }
{
    if word == b"and".as_slice() {
        Some(Mark::And)
    } else if word == b"div".as_slice() {
        Some(Mark::Div)
    } else if word == b"end".as_slice() {
        Some(Mark::End)
    } else if word == b"mod".as_slice() {
        Some(Mark::Mod)
    } else if word == b"not".as_slice() {
        Some(Mark::Not)
    } else {
        None
    }
}

/// Returns the reserved word of four bytes that these are.
#[tactic(auto, using(crate::proofs::Spellings::none_of_four))]
fn of_four(word: &[u8]) -> Option<Mark>
    requires length { length word.now ≡ 4 }
    requires letter { is_ascii_alphabetic (slice_index word.now 0) ≡ true }
    ensures { MatchOption result
        ((m : Mark) → word.now ≡ spelling m → ⊥)
        (λ m. word.now ≡ spelling m) }
{
    if word == b"else".as_slice() {
        Some(Mark::Else)
    } else if word == b"hold".as_slice() {
        Some(Mark::Hold)
    } else if word == b"skip".as_slice() {
        Some(Mark::Skip)
    } else if word == b"then".as_slice() {
        Some(Mark::Then)
    } else {
        None
    }
}

/// Returns the reserved word of five bytes that these are.
#[tactic(auto, using(crate::proofs::Spellings::none_of_five))]
fn of_five(word: &[u8]) -> Option<Mark>
    requires length { length word.now ≡ 5 }
    requires letter { is_ascii_alphabetic (slice_index word.now 0) ≡ true }
    ensures { MatchOption result
        ((m : Mark) → word.now ≡ spelling m → ⊥)
        (λ m. word.now ≡ spelling m) }
{
    if word == b"begin".as_slice() {
        Some(Mark::Begin)
    } else if word == b"print".as_slice() {
        Some(Mark::Print)
    } else if word == b"while".as_slice() {
        Some(Mark::While)
    } else {
        None
    }
}

/// Returns the reserved word of six bytes that these are.
#[tactic(auto, using(crate::proofs::Spellings::none_of_six))]
fn of_six(word: &[u8]) -> Option<Mark>
    requires length { length word.now ≡ 6 }
    requires letter { is_ascii_alphabetic (slice_index word.now 0) ≡ true }
    ensures { MatchOption result
        ((m : Mark) → word.now ≡ spelling m → ⊥)
        (λ m. word.now ≡ spelling m) }
{
    if word == b"parend".as_slice() {
        Some(Mark::Parend)
    } else {
        None
    }
}

/// Returns the reserved word of seven bytes that these are.
#[tactic(auto, using(crate::proofs::Spellings::none_of_seven))]
fn of_seven(word: &[u8]) -> Option<Mark>
    requires length { length word.now ≡ 7 }
    requires letter { is_ascii_alphabetic (slice_index word.now 0) ≡ true }
    ensures { MatchOption result
        ((m : Mark) → word.now ≡ spelling m → ⊥)
        (λ m. word.now ≡ spelling m) }
{
    if word == b"integer".as_slice() {
        Some(Mark::Integer)
    } else if word == b"process".as_slice() {
        Some(Mark::Process)
    } else {
        None
    }
}

/// Returns the reserved word of eight bytes that these are.
#[tactic(auto, using(crate::proofs::Spellings::none_of_eight))]
fn of_eight(word: &[u8]) -> Option<Mark>
    requires length { length word.now ≡ 8 }
    requires letter { is_ascii_alphabetic (slice_index word.now 0) ≡ true }
    ensures { MatchOption result
        ((m : Mark) → word.now ≡ spelling m → ⊥)
        (λ m. word.now ≡ spelling m) }
{
    if word == b"parbegin".as_slice() {
        Some(Mark::Parbegin)
    } else if word == b"resource".as_slice() {
        Some(Mark::Resource)
    } else {
        None
    }
}

/// Returns the reserved word that these bytes are, if they are one.
#[tactic(auto, using(crate::proofs::Spellings::none_of_another_length))]
pub(crate) fn reserved(word: &[u8]) -> Option<Mark>
    requires { is_ascii_alphabetic (slice_index word.now 0) ≡ true }
    ensures { MatchOption result
        ((m : Mark) → word.now ≡ spelling m → ⊥)
        (λ m. word.now ≡ spelling m) }
{
    match word.len() {
        2 => of_two(word),
        3 => of_three(word),
        4 => of_four(word),
        5 => of_five(word),
        6 => of_six(word),
        7 => of_seven(word),
        8 => of_eight(word),
        _ => None,
    }
}

/// Returns the symbol that these two bytes are, if they are one.
pub(crate) fn symbol_of_two(first: u8, second: u8) -> Option<Mark>
    requires { is_ascii_alphabetic first ≡ false }
    ensures { MatchOption result
        ((m : Mark) → spelling m ≡ first ∷ second ∷ [] → ⊥)
        (λ m. spelling m ≡ first ∷ second ∷ []) }
{
    match (first, second) {
        (b':', b'=') => Some(Mark::Assign),
        (b'<', b'>') => Some(Mark::NotEqual),
        (b'<', b'=') => Some(Mark::AtMost),
        (b'>', b'=') => Some(Mark::AtLeast),
        _ => None,
    }
}

/// Returns the symbol that this byte is, if it is one.
pub(crate) fn symbol(byte: u8) -> Option<Mark>
    ensures { MatchOption result
        ((m : Mark) → spelling m ≡ byte ∷ [] → ⊥)
        (λ m. spelling m ≡ byte ∷ []) }
{
    match byte {
        b';' => Some(Mark::Semicolon),
        b',' => Some(Mark::Comma),
        b'(' => Some(Mark::Open),
        b')' => Some(Mark::Close),
        b'+' => Some(Mark::Plus),
        b'-' => Some(Mark::Minus),
        b'*' => Some(Mark::Star),
        b'=' => Some(Mark::Equal),
        b'<' => Some(Mark::Less),
        b'>' => Some(Mark::Greater),
        _ => None,
    }
}

//! The lists at the end of a line.

ghost use Rattle.std.specs.Prelude.{◌≡◌, ◌++◌, ◌==◌, OnOk, cond};
ghost use Rattle.pb_code.specs.Names as names;
ghost use Rattle.std.specs.List.{fold};
ghost use Rattle.pb_json_lines.specs.Lists as spec;

use pb_base::NoMemory;
use pb_base::writing::put;

/// What a list is of.
#[derive(Clone, Copy, Debug, PartialEq, Eq)]
pub enum Shape {
    /// Numbers, which spaces part.
    Numbers,
    /// Amounts with their resources, which spaces part.
    Pairs,
    /// Amounts with the resources of a bank, which commas part.
    Shares,
}

/// Where a reader of a list is.
#[derive(Clone, Copy, Debug, PartialEq, Eq)]
pub enum Mode {
    /// Before the first space.
    Begin,
    /// At the first digit of a number.
    FirstDigit,
    /// Behind a digit.
    Digits,
    /// Behind the number 0.
    Zero,
    /// At the first letter of a name.
    FirstLetter,
    /// Behind a byte of a name.
    Letters,
    /// Behind a comma.
    Comma,
    /// Behind a byte that no list has there.
    Wrong,
}

/// Returns whether a byte is a letter, a digit or `_`.
pub(crate) fn is_name_byte(b: u8) -> bool
    ensures { result ≡ names.is_name_byte b }
{
    b.is_ascii_alphabetic() || b.is_ascii_digit() || b == b'_'
}

/// Returns whether the name of a job or a resource of a bank may have a byte.
pub(crate) fn is_label_byte(b: u8) -> bool
    ensures { result ≡ spec.is_label_byte b }
{
    is_name_byte(b) || (b == b'-' || b == b'.')
}

/// Returns the mode, if the test holds.
fn only_if(test: bool, mode: Mode) -> Mode
    ensures { result ≡ cond test mode Mode.Wrong }
{
    if test { mode } else { Mode::Wrong }
}

/// Returns where a reader is after a byte that may be the first digit of a number.
fn at_number(shape: Shape, byte: u8) -> Mode
    ensures { result ≡ spec.at_number shape byte }
{
    match shape {
        Shape::Shares if byte == b'0' => Mode::Zero,
        Shape::Shares => only_if(byte.is_ascii_digit(), Mode::Digits),
        Shape::Pairs | Shape::Numbers => {
            only_if(byte.is_ascii_digit() && byte != b'0', Mode::Digits)
        }
    }
}

/// Returns where a reader is after a number, at a byte that is no digit.
fn behind_number(shape: Shape, byte: u8) -> Mode
    ensures { result ≡ spec.behind_number shape byte }
{
    match shape {
        Shape::Numbers => only_if(byte == b' ', Mode::FirstDigit),
        Shape::Pairs | Shape::Shares => only_if(byte == b' ', Mode::FirstLetter),
    }
}

/// Returns where a reader is after a byte that may be the first of a name.
fn at_name(shape: Shape, byte: u8) -> Mode
    ensures { result ≡ spec.at_name shape byte }
{
    match shape {
        Shape::Shares => only_if(is_label_byte(byte), Mode::Letters),
        Shape::Pairs | Shape::Numbers => only_if(byte.is_ascii_alphabetic(), Mode::Letters),
    }
}

/// Returns where a reader is after a name, at one byte more.
fn behind_name(shape: Shape, byte: u8) -> Mode
    ensures { result ≡ spec.behind_name shape byte }
{
    match shape {
        Shape::Shares if is_label_byte(byte) => Mode::Letters,
        Shape::Shares => only_if(byte == b',', Mode::Comma),
        Shape::Pairs | Shape::Numbers if is_name_byte(byte) => Mode::Letters,
        Shape::Pairs | Shape::Numbers => only_if(byte == b' ', Mode::FirstDigit),
    }
}

/// Returns where a reader is after one byte more.
fn next(shape: Shape, mode: Mode, byte: u8) -> Mode
    ensures { result ≡ spec.next shape mode byte }
{
    match mode {
        Mode::Begin | Mode::Comma => only_if(byte == b' ', Mode::FirstDigit),
        Mode::FirstDigit => at_number(shape, byte),
        Mode::Digits if byte.is_ascii_digit() => Mode::Digits,
        Mode::Digits | Mode::Zero => behind_number(shape, byte),
        Mode::FirstLetter => at_name(shape, byte),
        Mode::Letters => behind_name(shape, byte),
        Mode::Wrong => Mode::Wrong,
    }
}

/// Returns whether a list is of numbers alone.
fn are_numbers(shape: Shape) -> bool
    ensures { result ≡ spec.are_numbers shape }
{
    match shape {
        Shape::Numbers => true,
        Shape::Pairs | Shape::Shares => false,
    }
}

/// Returns whether a list may end there.
fn may_end(shape: Shape, mode: Mode) -> bool
    ensures { result ≡ spec.may_end shape mode }
{
    match mode {
        Mode::Digits => are_numbers(shape),
        Mode::Letters => !are_numbers(shape),
        Mode::Begin
        | Mode::FirstDigit
        | Mode::Zero
        | Mode::FirstLetter
        | Mode::Comma
        | Mode::Wrong => false,
    }
}

/// Returns whether a word is a list of this shape.
pub(crate) fn is_list(shape: Shape, word: &[u8]) -> bool
    ensures { result ≡ spec.is_list shape word.now }
{
    let mut mode = Mode::Begin;
    for byte in word {
        mode = next(shape, mode, *byte);
    }
    may_end(shape, mode)
}

/// Returns what stands for a space in a list of pairs.
fn parting_pairs(mode: Mode) -> &'static [u8]
    ensures { result.now ≡ spec.parting_pairs mode }
{
    match mode {
        Mode::Begin => b"{\"amount\":",
        Mode::Digits | Mode::Zero => b",\"resource\":\"",
        Mode::Letters | Mode::Comma => b"\"},{\"amount\":",
        Mode::FirstDigit | Mode::FirstLetter | Mode::Wrong => b"",
    }
}

/// Returns what stands for a space.
fn parting(shape: Shape, mode: Mode) -> &'static [u8]
    ensures { result.now ≡ spec.parting shape mode }
{
    match (shape, mode) {
        (Shape::Numbers, Mode::Digits) => b",",
        (Shape::Numbers, _) => b"",
        (Shape::Pairs | Shape::Shares, _) => parting_pairs(mode),
    }
}

/// Appends what is said of a byte.
fn put_said(out: &mut Vec<u8>, shape: Shape, mode: Mode, byte: u8) -> Result<(), NoMemory>
    ensures { OnOk result (out.new.items ≡ out.old.items ++ spec.said shape mode byte) }
{
    if byte == b' ' {
        return put(out, parting(shape, mode));
    }
    if byte == b',' {
        return Ok(());
    }
    put(out, &[byte])
}

/// Appends what is said of the bytes of a list.
fn put_inside(out: &mut Vec<u8>, shape: Shape, word: &[u8]) -> Result<(), NoMemory>
    ensures { OnOk result (out.new.items ≡ out.old.items ++ spec.inside shape Mode.Begin word.now) }
{
    let mut mode = Mode::Begin;
    for byte in word {
        put_said(out, shape, mode, *byte)?;
        mode = next(shape, mode, *byte);
    }
    Ok(())
}

/// Returns the end of the last pair.
fn closing(shape: Shape) -> &'static [u8]
    ensures { result.now ≡ spec.closing shape }
{
    match shape {
        Shape::Numbers => b"",
        Shape::Pairs | Shape::Shares => b"\"}",
    }
}

/// Appends a list in JSON.
pub(crate) fn put_list(out: &mut Vec<u8>, shape: Shape, word: &[u8]) -> Result<(), NoMemory>
    ensures { OnOk result (out.new.items ≡ out.old.items ++ spec.list_text shape word.now) }
{
    put(out, b"[")?;
    put_inside(out, shape, word)?;
    put(out, closing(shape))?;
    put(out, b"]")
}

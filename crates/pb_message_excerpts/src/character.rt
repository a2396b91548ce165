//! Characters of UTF-8, as a terminal shows them.

ghost use Rattle.std.specs.Prelude.{◌≡◌};
ghost use Rattle.pb_message_excerpts.specs.Characters as spec;

/// Returns the byte with a number; 0 past the end.
fn byte_at(bytes: &[u8], number: usize) -> u32
    ensures { result ≡ spec.byte_at bytes.now number }
{
    if number < bytes.len() {
        u32::from(bytes[number])
    } else {
        0
    }
}

/// Returns whether a byte is one of a character after its first.
fn is_later(byte: u32) -> bool
    ensures { result ≡ spec.is_later byte }
{
    128 <= byte && byte <= 191
}

/// Returns the number of the character of two bytes with which bytes begin; 0 if they begin with none.
fn of_two(bytes: &[u8]) -> u32
    ensures { result ≡ spec.of_two bytes.now }
{
    let (first, second) = (byte_at(bytes, 0), byte_at(bytes, 1));
    if 194 <= first && first <= 223 && is_later(second) {
        (first - 192) * 64 + (second - 128)
    } else {
        0
    }
}

/// Returns that of three bytes.
fn of_three(bytes: &[u8]) -> u32
    ensures { result ≡ spec.of_three bytes.now }
{
    let (first, second, third) = (byte_at(bytes, 0), byte_at(bytes, 1), byte_at(bytes, 2));
    if 224 <= first && first <= 239 && is_later(second) && is_later(third) {
        (first - 224) * 4096 + (second - 128) * 64 + (third - 128)
    } else {
        0
    }
}

/// Returns that of four bytes.
fn of_four(bytes: &[u8]) -> u32
    ensures { result ≡ spec.of_four bytes.now }
{
    let (first, second) = (byte_at(bytes, 0), byte_at(bytes, 1));
    let (third, fourth) = (byte_at(bytes, 2), byte_at(bytes, 3));
    if 240 <= first && first <= 244 && is_later(second) && is_later(third) && is_later(fourth) {
        (first - 240) * 262144 + (second - 128) * 4096 + (third - 128) * 64 + (fourth - 128)
    } else {
        0
    }
}

/// Returns whether a character can be seen: it is no control character, and none that turns or hides others.
fn is_seen(number: u32) -> bool
    ensures { result ≡ spec.is_seen number }
{
    !(number < 160
        || number == 0xAD
        || number == 0x61C
        || number == 0x180E
        || (0x200B <= number && number <= 0x200F)
        || (0x2028 <= number && number <= 0x202E)
        || (0x2060 <= number && number <= 0x206F)
        || (0xD800 <= number && number <= 0xDFFF)
        || number == 0xFEFF
        || (0xFFF9 <= number && number <= 0xFFFB)
        || 0xE0000 <= number)
}

/// Returns the number of the character beyond ASCII with which bytes begin in UTF-8, if it can be seen; else 0.
pub(crate) fn first_character(bytes: &[u8]) -> u32
    ensures { result ≡ spec.character_at bytes.now }
{
    let (two, three, four) = (of_two(bytes), of_three(bytes), of_four(bytes));
    if is_seen(two) {
        two
    } else if is_seen(three) && 0x800 <= three {
        three
    } else if is_seen(four) && 0x10000 <= four {
        four
    } else {
        0
    }
}

/// Returns how many bytes a character has after its first.
pub(crate) fn later_bytes(number: u32) -> usize
    ensures { result ≡ spec.later_bytes number }
{
    if number < 0x80 {
        0
    } else if number < 0x800 {
        1
    } else if number < 0x10000 {
        2
    } else {
        3
    }
}

/// Returns whether a number is between two others, or is one of them.
fn is_between(low: u32, high: u32, number: u32) -> bool
    ensures { result ≡ spec.is_between low high number }
{
    low <= number && number <= high
}

/// Returns whether a character is put over the one before it.
fn is_over(number: u32) -> bool
    ensures { result ≡ spec.is_over number }
{
    is_between(0x300, 0x36F, number)
        || is_between(0x20D0, 0x20FF, number)
        || is_between(0xFE00, 0xFE0F, number)
}

/// Returns whether a character is a letter of East Asia.
fn is_wide_letter(number: u32) -> bool
    ensures { result ≡ spec.is_wide_letter number }
{
    is_between(0x1100, 0x115F, number)
        || is_between(0x2E80, 0xA4CF, number)
        || is_between(0xAC00, 0xD7A3, number)
        || is_between(0xF900, 0xFAFF, number)
        || is_between(0x20000, 0x3FFFD, number)
}

/// Returns whether a character is a sign of East Asia, or a picture.
fn is_wide_sign(number: u32) -> bool
    ensures { result ≡ spec.is_wide_sign number }
{
    is_between(0xFE30, 0xFE6F, number)
        || is_between(0xFF01, 0xFF60, number)
        || is_between(0xFFE0, 0xFFE6, number)
        || is_between(0x1F300, 0x1F64F, number)
        || is_between(0x1F680, 0x1F6FF, number)
        || is_between(0x1F900, 0x1F9FF, number)
}

/// Returns how many columns of a terminal a character takes.
pub(crate) fn columns(number: u32) -> usize
    ensures { result ≡ spec.columns number }
{
    if is_over(number) {
        0
    } else if is_wide_letter(number) || is_wide_sign(number) {
        2
    } else {
        1
    }
}

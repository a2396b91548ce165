//! Strings.

ghost use Rattle.std.specs.Prelude.{◌≡◌, ◌<◌, ◌++◌, OnOk};
ghost use Rattle.std.specs.List.{flat_map};
ghost use Rattle.pb_json.specs.Strings.{escaped, hex_digit, is_plain, string_text};

use pb_base::NoMemory;
use pb_base::writing::put;

/// Returns the digit of base 16 of a number.
pub fn hex_digit(number: u8) -> u8
    requires { number < 16 }
    ensures { result ≡ hex_digit number }
{
    if number < 10 {
        48 + number
    } else {
        87 + number
    }
}

/// Returns whether a byte stands for itself, if it is no quote and no backslash.
pub fn is_plain(byte: u8) -> bool
    ensures { result ≡ is_plain byte }
{
    byte >= 32 && byte < 127 && byte != b'<'
}

/// Appends what stands for a byte inside a string.
fn put_byte(out: &mut Vec<u8>, byte: u8) -> Result<(), NoMemory>
    ensures { OnOk result (out.new.items ≡ out.old.items ++ escaped byte) }
{
    if byte == b'"' {
        return put(out, b"\\\"");
    }
    if byte == b'\\' {
        return put(out, b"\\\\");
    }
    if byte == b'\n' {
        return put(out, b"\\n");
    }
    if is_plain(byte) {
        return put(out, &[byte]);
    }
    let high = hex_digit(byte / 16);
    let low = hex_digit(byte % 16);
    put(out, &[b'\\', b'u', b'0', b'0', high, low])
}

/// Appends a JSON string of these bytes to `out`, with its quotes. What is written is ASCII with no control
/// byte and no `<`, whatever the bytes are; a byte of 127 or more is written as the character with its
/// number.
pub fn put_string(out: &mut Vec<u8>, bytes: &[u8]) -> Result<(), NoMemory>
    ensures { OnOk result (out.new.items ≡ out.old.items ++ string_text bytes.now) }
{
    put(out, b"\"")?;
    for byte in bytes {
        put_byte(out, *byte)?;
    }
    put(out, b"\"")
}

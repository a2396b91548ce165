//! Strings of JSON in UTF-8, and pieces of a text.

ghost use Rattle.std.specs.Prelude.{◌≡◌, ◌++◌, OnOk, string_bytes};
ghost use Rattle.std.specs.List.{flat_map};
ghost use Rattle.pb_findings.specs.Strings.{byte_in_words, further, inside, items_text, list_member, words_member, words_text};

use pb_base::NoMemory;
use pb_base::writing::put;
use pb_json::hex_digit;

/// Appends what stands for a byte inside a string of UTF-8.
fn put_byte(out: &mut Vec<u8>, byte: u8) -> Result<(), NoMemory>
    ensures { OnOk result (out.new.items ≡ out.old.items ++ byte_in_words byte) }
{
    if byte == b'"' {
        return put(out, b"\\\"");
    }
    if byte == b'\\' {
        return put(out, b"\\\\");
    }
    if byte == b'\n' {
        return put(out, b"\\n");
    }
    if byte >= 32 {
        return put(out, &[byte]);
    }
    let high = hex_digit(byte / 16);
    let low = hex_digit(byte % 16);
    put(out, &[b'\\', b'u', b'0', b'0', high, low])
}

/// Appends the inside of a string of UTF-8.
pub fn put_inside(out: &mut Vec<u8>, bytes: &[u8]) -> Result<(), NoMemory>
    ensures { OnOk result (out.new.items ≡ out.old.items ++ inside bytes.now) }
{
    for byte in bytes {
        put_byte(out, *byte)?;
    }
    Ok(())
}

/// Appends a string of UTF-8, with its quotes.
pub fn put_words(out: &mut Vec<u8>, bytes: &[u8]) -> Result<(), NoMemory>
    ensures { OnOk result (out.new.items ≡ out.old.items ++ words_text bytes.now) }
{
    put(out, b"\"")?;
    put_inside(out, bytes)?;
    put(out, b"\"")
}

/// Appends pieces, one after another, each as it is.
pub fn put_all(out: &mut Vec<u8>, pieces: &[&[u8]]) -> Result<(), NoMemory>
    ensures { OnOk result (out.new.items ≡ out.old.items ++ flat_map (λ piece. piece.now) pieces.now) }
{
    for i in 0..pieces.len() {
        put(out, pieces[i])?;
    }
    Ok(())
}

/// Appends a member with a string.
pub fn put_member(out: &mut Vec<u8>, name: &[u8], bytes: &[u8]) -> Result<(), NoMemory>
    ensures { OnOk result (out.new.items ≡ out.old.items ++ words_member name.now bytes.now) }
{
    put(out, name)?;
    put_words(out, bytes)
}

/// Appends strings that are not the first of a list.
fn put_further_strings(out: &mut Vec<u8>, strings: &[String]) -> Result<(), NoMemory>
    ensures { OnOk result (out.new.items ≡ out.old.items ++ flat_map (further (λ words. words_text (string_bytes words))) strings.now) }
{
    for words in strings {
        put_member(out, b", ", words.as_bytes())?;
    }
    Ok(())
}

/// Appends the strings of a list.
fn put_items(out: &mut Vec<u8>, strings: &[String]) -> Result<(), NoMemory>
    ensures { OnOk result (out.new.items ≡ out.old.items ++ items_text (λ words. words_text (string_bytes words)) strings.now) }
{
    match strings {
        [first, others @ ..] => {
            put_words(out, first.as_bytes())?;
            put_further_strings(out, others)
        }
        [] => Ok(()),
    }
}

/// Appends a member with a list of strings.
pub fn put_strings(out: &mut Vec<u8>, name: &[u8], strings: &[String]) -> Result<(), NoMemory>
    ensures { OnOk result (out.new.items ≡ out.old.items ++ list_member name.now (λ words. words_text (string_bytes words)) strings.now) }
{
    put(out, name)?;
    put(out, b"[")?;
    put_items(out, strings)?;
    put(out, b"]")
}

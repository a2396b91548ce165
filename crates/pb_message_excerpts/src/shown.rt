//! Bytes of a text as a message shows them.

ghost use Rattle.std.specs.Prelude.{◌≡◌, ◌<◌, ◌≤◌, ◌++◌, IfOk, OnOk, drop, length, map, replicate, slice_index};
ghost use Rattle.pb_message_excerpts.specs.Characters as spec;
ghost use Rattle.pb_message_excerpts.specs.Characters.{below_byte, below_bytes, character_at, shown_byte, shown_bytes};

use crate::character::{columns, first_character, later_bytes};
use pb_base::NoMemory;
use std::alloc::Global;

/// Returns bytes as a message shows them: a character of UTF-8 that can be seen as itself, a carriage return as a space,
/// and a question mark for each other byte that is neither printable nor a tab.
pub fn printable(alloc: Global, bytes: &[u8]) -> Result<Vec<u8>, NoMemory>
    ensures { IfOk result (λ shown. shown.items ≡ shown_bytes 0 bytes.now) }
{
    let mut shown = Vec::new(alloc);
    put_shown(&mut shown, bytes)?;
    Ok(shown)
}

/// Returns a byte as a message shows it.
pub fn printable_byte(byte: u8) -> u8
    ensures { result ≡ shown_byte byte }
{
    if byte == b'\t' || (32 <= byte && byte <= 126) {
        byte
    } else if byte == b'\r' {
        b' '
    } else {
        b'?'
    }
}

/// Returns a byte as a message shows it, with which a character begins that can be seen if its number is not 0.
fn shown_first(character: u32, byte: u8) -> u8
    ensures { result ≡ spec.shown_first character byte }
{
    if character == 0 {
        printable_byte(byte)
    } else {
        byte
    }
}

/// Returns the number of the character beyond ASCII that begins at an offset, if it can be seen; else 0.
#[tactic(auto, using(std::proofs::lemmas::List::take_rest))]
fn character_from(bytes: &[u8], at: usize) -> u32
    requires { at ≤ length bytes.now }
    ensures { result ≡ character_at (drop at bytes.now) }
{
    first_character(&bytes[at..])
}

/// Returns the byte at an offset as a message shows it, after a character of which some bytes are still to come.
fn shown_next(later: usize, bytes: &[u8], at: usize) -> u8
    requires { at < length bytes.now }
    ensures { result ≡ spec.shown_next later (drop at bytes.now) (slice_index bytes.now at) }
{
    if later == 0 {
        shown_first(character_from(bytes, at), bytes[at])
    } else {
        bytes[at]
    }
}

/// Returns how many bytes of a character are still to come after the byte at an offset.
fn later_next(later: usize, bytes: &[u8], at: usize) -> usize
    requires { at < length bytes.now }
    ensures { result ≡ spec.later_next later (drop at bytes.now) }
{
    if later == 0 {
        later_bytes(character_from(bytes, at))
    } else {
        later - 1
    }
}

/// Appends bytes to `out`, as a message shows them.
#[tactic(auto, unfolding(crate::specs::Characters::shown_bytes))]
pub(crate) fn put_shown(out: &mut Vec<u8>, bytes: &[u8]) -> Result<(), NoMemory>
    ensures { OnOk result (out.new.items ≡ out.old.items ++ shown_bytes 0 bytes.now) }
{
    let mut later = 0usize;
    for at in 0..bytes.len() {
        out.push(shown_next(later, bytes, at))?;
        later = later_next(later, bytes, at);
    }
    Ok(())
}

fn blank_below(byte: u8) -> u8
    ensures { result ≡ below_byte byte }
{
    if byte == b'\t' { b'\t' } else { b' ' }
}

/// Appends blanks to `out`.
fn put_blanks(out: &mut Vec<u8>, count: usize) -> Result<(), NoMemory>
    ensures { OnOk result (out.new.items ≡ out.old.items ++ replicate count 32) }
{
    for i in 0..count {
        let _ = i;
        out.push(b' ')?;
    }
    Ok(())
}

/// Appends to `out` what is below a byte, with which a character begins that can be seen if its number is not 0.
fn put_below_first(out: &mut Vec<u8>, character: u32, byte: u8) -> Result<(), NoMemory>
    ensures { OnOk result (out.new.items ≡ out.old.items ++ spec.below_first character byte) }
{
    if character == 0 {
        out.push(blank_below(byte))?;
    } else {
        put_blanks(out, columns(character))?;
    }
    Ok(())
}

/// Appends to `out` what is below the byte at an offset, after a character of which some bytes are still to come.
fn put_below_next(out: &mut Vec<u8>, later: usize, bytes: &[u8], at: usize) -> Result<(), NoMemory>
    requires { at < length bytes.now }
    ensures { OnOk result (out.new.items
        ≡ out.old.items ++ spec.below_next later (drop at bytes.now) (slice_index bytes.now at)) }
{
    if later == 0 {
        put_below_first(out, character_from(bytes, at), bytes[at])?;
    }
    Ok(())
}

/// Appends to `out` what is below bytes before a mark, if they are shown.
#[tactic(auto, unfolding(crate::specs::Characters::below_bytes))]
pub(crate) fn put_below_shown(out: &mut Vec<u8>, bytes: &[u8]) -> Result<(), NoMemory>
    ensures { OnOk result (out.new.items ≡ out.old.items ++ below_bytes 0 bytes.now) }
{
    let mut later = 0usize;
    for at in 0..bytes.len() {
        put_below_next(out, later, bytes, at)?;
        later = later_next(later, bytes, at);
    }
    Ok(())
}

/// Appends to `out` what is below bytes of ASCII.
pub(crate) fn put_below(out: &mut Vec<u8>, bytes: &[u8]) -> Result<(), NoMemory>
    ensures { OnOk result (out.new.items ≡ out.old.items ++ map below_byte bytes.now) }
{
    for byte in bytes {
        out.push(blank_below(*byte))?;
    }
    Ok(())
}

//! The message of a cause, put together.

ghost use Rattle.std.specs.Prelude.{◌≡◌, ◌++◌, IfOk, IsTrue, OnOk, length, replicate, string_bytes};
ghost use Rattle.std.specs.Fmt.{decimal};
ghost use Rattle.std.specs.List.{flat_map};
ghost use Rattle.pb_messages.specs.Details.{AreDetails, AreSpots, IsSpot, ShowsWording, first_offset, note_row};
ghost use Rattle.pb_options.specs.Codes.{code_name};
ghost use Rattle.pb_messages.specs.Messages.{IsMessage, IsShown, IsSummary, message};

use pb_accept::Cause;
use pb_base::NoMemory;
use pb_message_excerpts::{place_of, show_place};
use pb_mistakes::{Spot, Wording};
use std::alloc::Global;

/// Returns the message of a cause: its code, what is wrong in words, its place in the text, and details. A
/// label is put before the line of the place. A wording that is not whole has no message.
pub fn worded(
    alloc: Global,
    label: &str,
    text: &[u8],
    cause: &Cause,
    wording: &Wording,
) -> Result<Vec<u8>, NoMemory>
    ensures told { IfOk result (λ message. IsMessage label.now text.now cause.now message.items) }
    // It shows the words, all other places and all notes of the wording, which is whole.
    ensures shows { IfOk result (λ message. ShowsWording label.now text.now cause.now wording.now message.items) }
    ensures whole { OnOk result (IsTrue wording.now.is_whole) }
{
    let summary = wording.summary.as_bytes();
    if !wording.is_whole || !is_summary(summary) {
        return Err(NoMemory);
    }
    let shown = show_cause(alloc, label, text, cause)?;
    let details = details(alloc, label, text, cause, wording)?;
    compose(alloc, cause, summary, &shown, &details)
}

/// Returns whether words are there, and in one line.
fn is_summary(words: &[u8]) -> bool
    ensures { IsTrue result → IsSummary words.now }
{
    for k in 0..words.len() {
        if words[k] == b'\n' {
            return false;
        }
    }
    !words.is_empty()
}

/// Returns the place of a cause, if it has one, as a message shows it.
fn show_cause(alloc: Global, label: &str, text: &[u8], cause: &Cause) -> Result<Vec<u8>, NoMemory>
    ensures { IfOk result (λ shown. IsShown label.now text.now cause.now.at shown.items) }
{
    match cause.at {
        Some(at) => show_place(alloc, label.as_bytes(), text, at.min(text.len())),
        None => Ok(Vec::new(alloc)),
    }
}

/// Returns the lines after the place of a fault.
fn details(
    alloc: Global,
    label: &str,
    text: &[u8],
    cause: &Cause,
    wording: &Wording,
) -> Result<Vec<u8>, NoMemory>
    ensures { IfOk result (λ details. AreDetails label.now text.now cause.now wording.now details.items) }
{
    let mut out = show_spots(alloc, label, text, &wording.spots)?;
    let first = place_of(text, first_place(cause, &wording.spots).min(text.len()));
    let width = decimal_width(alloc, first.line)?;
    put_notes(&mut out, width, &wording.notes)?;
    Ok(out)
}

/// Returns the offset at which a message points first.
fn first_place(cause: &Cause, spots: &[Spot]) -> usize
    ensures { result ≡ first_offset cause.now.at spots.now }
{
    match (cause.at, spots.first()) {
        (Some(at), _) => at,
        (None, Some(spot)) => spot.at,
        (None, None) => 0,
    }
}

/// Returns other places, as a message shows them.
fn show_spots(alloc: Global, label: &str, text: &[u8], spots: &[Spot]) -> Result<Vec<u8>, NoMemory>
    ensures { IfOk result (λ shown. AreSpots label.now text.now spots.now shown.items) }
{
    let mut out = Vec::new(alloc);
    for spot in spots {
        let shown = show_spot(alloc, label, text, spot)?;
        out.extend_from_slice(&shown)?;
    }
    Ok(out)
}

/// Returns another place, as `show_place` shows it.
fn show_spot(alloc: Global, label: &str, text: &[u8], spot: &Spot) -> Result<Vec<u8>, NoMemory>
    ensures { IfOk result (λ shown. IsSpot label.now text.now spot.now shown.items) }
{
    let label = format!(in alloc; "{}{}", spot.label, label)?;
    show_place(alloc, label.as_bytes(), text, spot.at.min(text.len()))
}

/// Returns how many digits a number has.
fn decimal_width(alloc: Global, number: usize) -> Result<usize, NoMemory>
    ensures { IfOk result (λ width. width ≡ length (decimal number)) }
{
    Ok(format!(in alloc; "{number}")?.len())
}

/// Appends notes to `out`, each with a margin of this width.
fn put_notes(out: &mut Vec<u8>, width: usize, notes: &[String]) -> Result<(), NoMemory>
    ensures { OnOk result (out.new.items
        ≡ out.old.items ++ flat_map (λ note. note_row width (string_bytes note)) notes.now) }
{
    for note in notes {
        put_note(out, width, note.as_bytes())?;
    }
    Ok(())
}

/// Appends a note to `out`, with a margin of this width and a space before it.
fn put_note(out: &mut Vec<u8>, width: usize, note: &[u8]) -> Result<(), NoMemory>
    ensures { OnOk result (out.new.items ≡ out.old.items ++ note_row width note.now) }
{
    put_blanks(out, width)?;
    out.extend_from_slice(b" = ")?;
    out.extend_from_slice(note)?;
    out.push(b'\n')?;
    Ok(())
}

/// Appends blanks to `out`.
fn put_blanks(out: &mut Vec<u8>, count: usize) -> Result<(), NoMemory>
    ensures { OnOk result (out.new.items ≡ out.old.items ++ replicate count 32) }
{
    for i in 0..count {
        let _ = i;
        out.push(b' ')?;
    }
    Ok(())
}

/// Returns a message: the code of a cause, what is wrong in words, the place of the fault, and details, which
/// end in line feeds.
fn compose(
    alloc: Global,
    cause: &Cause,
    summary: &[u8],
    shown: &[u8],
    details: &[u8],
) -> Result<Vec<u8>, NoMemory>
    ensures { IfOk result (λ text. text.items ≡ message (code_name cause.now.code) summary.now shown.now details.now) }
{
    let mut text = Vec::new(alloc);
    put_message(
        &mut text,
        cause.code.name().as_bytes(),
        summary,
        shown,
        details,
    )?;
    Ok(text)
}

/// Appends a message to `text`.
fn put_message(
    text: &mut Vec<u8>,
    code: &[u8],
    summary: &[u8],
    shown: &[u8],
    details: &[u8],
) -> Result<(), NoMemory>
    ensures { OnOk result (text.new.items ≡ text.old.items ++ message code.now summary.now shown.now details.now) }
{
    text.extend_from_slice(b"error ")?;
    text.extend_from_slice(code)?;
    text.extend_from_slice(b": ")?;
    text.extend_from_slice(summary)?;
    text.push(b'\n')?;
    text.extend_from_slice(shown)?;
    text.extend_from_slice(details)?;
    Ok(())
}

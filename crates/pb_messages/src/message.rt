//! The message of a refused input.

ghost use Rattle.std.specs.Prelude.{◌≡◌, ◌≤◌, [], IfNone, IfOk, IfSome, IsTrue, false, OnOk, length, min, string_bytes};
ghost use Rattle.pb_lexer.specs.Cutting.{line_at};
ghost use Rattle.pb_accept.specs.Refusals.{IsAcceptedText};
ghost use Rattle.pb_messages.specs.Messages.{TellsRefusal};
ghost use Rattle.pb_messages.specs.Said.{SaysByReading, SaysOfObjectText, SaysOfPickedObject, SaysOfPickedSource, SaysOfPickedText, SaysOfProgram, SaysOfText, SaysOfTexts};
ghost use Rattle.pb_messages.specs.Said.{IsLastLabel, SaysMore, SaysToPerson, behind, long_input, long_output, text_label};
ghost use Rattle.pb_messages.specs.declared.message.Reading.TheVariants.{Debugged, Replayed, Shown};

use crate::first_format::first_format_message;
use crate::objects::object_message;
use crate::picks::lines_message;
use crate::texts::{early_message, text_message};
use pb_base::limits::MAX_INPUT;
use pb_base::{Lending, NoMemory};
use pb_command_io::{first_part, two_parts};
use pb_message_excerpts::place_of;
use pb_message_stops::Lines;
use pb_sources::is_object;
use std::alloc::{AllocError, Global};

/// What is said of an input that is too long.
const LONG_INPUT: &[u8] = b"error input: the input is longer than 4194304 bytes\n";

/// What is said of a run that is too long.
const LONG_OUTPUT: &[u8] =
    b"error output: the text with its run is longer than 4194304 bytes\n  = hint: record fewer steps: --steps 100000\n";

/// With more bytes of messages than these, the texts that follow have none.
const MANY_BYTES: usize = 4_096;

/// What a command reads.
#[derive(Clone, Copy, Debug, PartialEq, Eq)]
pub enum Reading {
    /// A text.
    Text,
    /// A text whose capital does not matter.
    Claims,
    /// A text of which a run is to be written, which may be too long.
    Recorded,
    /// A text that is to become an object in the first format.
    FirstFormat,
    /// Texts, which lines `%%` part.
    Texts,
    /// An object.
    Object,
    /// A text, and pick lines after the first line `%%`, made under this lending.
    Replayed(Lending),
    /// A text or an object, and pick lines after the first line `%%`, made under this lending.
    Shown(Lending),
    /// A text or an object, and pick lines between the first two lines `%%`. What follows is not looked at.
    Debugged(Lending),
}

/// Returns the message of a refused input, or one for each refused text of it; nothing if there is nothing to
/// be said of these bytes.
pub fn message_of(alloc: Global, reading: Reading, bytes: &[u8]) -> Result<Vec<u8>, NoMemory>
    ensures { IfOk result (λ message. SaysToPerson reading bytes.now message.items) }
{
    if bytes.len() > MAX_INPUT {
        return long_message(alloc);
    }
    whole_message(alloc, reading, bytes)
}

/// Returns the message of an input that is too long.
pub fn long_message(alloc: Global) -> Result<Vec<u8>, NoMemory>
    ensures { IfOk result (λ message. message.items ≡ long_input) }
{
    Ok(Vec::from_slice(alloc, LONG_INPUT)?)
}

/// Returns the messages of an input that is not too long.
fn whole_message(alloc: Global, reading: Reading, bytes: &[u8]) -> Result<Vec<u8>, NoMemory>
    requires { length bytes.now ≤ MAX_INPUT }
    ensures { IfOk result (λ message. SaysByReading reading bytes.now message.items) }
{
    match reading {
        Reading::Text => whole_text_message(alloc, bytes),
        Reading::Recorded => recorded_message(alloc, bytes),
        Reading::Claims => claims_message(alloc, bytes),
        Reading::FirstFormat => first_format_message(alloc, bytes),
        Reading::Texts => texts_messages(alloc, bytes),
        Reading::Object => whole_object_message(alloc, bytes),
        Reading::Replayed(lending) => replayed_message(alloc, lending, bytes),
        Reading::Shown(lending) => shown_message(alloc, lending, bytes),
        Reading::Debugged(lending) => debugged_message(alloc, lending, bytes),
    }
}

/// Returns the message of a text, or nothing if it is accepted.
fn whole_text_message(alloc: Global, text: &[u8]) -> Result<Vec<u8>, NoMemory>
    ensures { IfOk result (λ message. SaysOfText text.now [] message.items) }
{
    match refusal_message(alloc, "", text)? {
        Some(message) => Ok(message),
        None => Ok(Vec::new(alloc)),
    }
}

/// Returns the message of a text, if it is refused.
fn refusal_message(alloc: Global, label: &str, text: &[u8]) -> Result<Option<Vec<u8>>, NoMemory>
    ensures accepted { IfOk result (λ told. IfNone told (IsAcceptedText text.now)) }
    ensures refused { IfOk result (λ told. IfSome told (λ message. TellsRefusal label.now text.now message.items)) }
{
    match text_message(alloc, label, text)? {
        Ok(_) => Ok(None),
        Err(message) => Ok(Some(message)),
    }
}

/// Returns the message of a text whose capital does not matter, or nothing if it is accepted.
fn claims_message(alloc: Global, text: &[u8]) -> Result<Vec<u8>, NoMemory>
    ensures { IfOk result (λ message. SaysOfProgram text.now message.items) }
{
    match early_message(alloc, text)? {
        Some(message) => Ok(message),
        None => Ok(Vec::new(alloc)),
    }
}

/// Returns the message of an object, or nothing if it is accepted.
fn whole_object_message(alloc: Global, object: &[u8]) -> Result<Vec<u8>, NoMemory>
    ensures { IfOk result (λ message. SaysOfObjectText object.now message.items) }
{
    match object_message(alloc, object)? {
        Ok(_) => Ok(Vec::new(alloc)),
        Err(message) => Ok(message),
    }
}

/// Returns the message of a text, or of its run that is too long.
fn recorded_message(alloc: Global, text: &[u8]) -> Result<Vec<u8>, NoMemory>
    ensures { IfOk result (λ message. SaysOfText text.now long_output message.items) }
{
    match refusal_message(alloc, "", text)? {
        Some(message) => Ok(message),
        None => Ok(Vec::from_slice(alloc, LONG_OUTPUT)?),
    }
}

/// Returns the messages of the first texts of an input that are refused.
fn texts_messages(alloc: Global, bytes: &[u8]) -> Result<Vec<u8>, NoMemory>
    requires { length bytes.now ≤ MAX_INPUT }
    ensures { IfOk result (λ messages. SaysOfTexts bytes.now messages.items) }
{
    let mut out = Vec::new(alloc);
    let mut number = 1u64;
    let mut rest = bytes;
    loop {
        let cut = first_part(rest);
        let label = part_label(alloc, number, cut.rest.is_none())?;
        tell_text(alloc, &mut out, label.as_str(), cut.part)?;
        let Some(more) = cut.rest else {
            return Ok(out);
        };
        if out.len() > MANY_BYTES {
            return Ok(out);
        }
        number = number.saturating_add(1);
        rest = more;
    }
}

/// Appends the message of a text to `out`, if the text is refused.
fn tell_text(alloc: Global, out: &mut Vec<u8>, label: &str, text: &[u8]) -> Result<(), NoMemory>
    ensures { OnOk result (SaysMore label.now text.now out.old.items out.new.items) }
{
    match refusal_message(alloc, label, text)? {
        Some(message) => put_message(out, &message),
        None => Ok(()),
    }
}

/// Appends a message to `out`, after an empty line if there are others.
fn put_message(out: &mut Vec<u8>, message: &[u8]) -> Result<(), NoMemory>
    ensures { OnOk result (out.new.items ≡ behind out.old.items message.now) }
{
    if !out.is_empty() {
        out.push(b'\n')?;
    }
    out.extend_from_slice(message)?;
    Ok(())
}

/// Returns what is said before the line of a text: its number, unless it is the only one.
fn part_label(alloc: Global, number: u64, is_last: bool) -> Result<String, AllocError>
    ensures last { IsTrue is_last → IfOk result (λ label. IsLastLabel number (string_bytes label)) }
    ensures earlier { is_last ≡ false → IfOk result (λ label. string_bytes label ≡ text_label number) }
{
    if number == 1 && is_last {
        return Ok(String::new(alloc));
    }
    format!(in alloc; "text {number}, ")
}

/// Returns the message of a text and the pick lines after it.
fn replayed_message(alloc: Global, lending: Lending, bytes: &[u8]) -> Result<Vec<u8>, NoMemory>
    ensures { IfOk result (λ message. SaysByReading (Replayed lending) bytes.now message.items) }
{
    let (text, lines) = two_parts(bytes);
    let before = line_of(bytes, text.len());
    picked_text_message(
        alloc,
        lending,
        text,
        Lines {
            text: lines,
            before,
        },
    )
}

/// Returns the message of a text or an object and the pick lines after it, made under a lending.
fn shown_message(alloc: Global, lending: Lending, bytes: &[u8]) -> Result<Vec<u8>, NoMemory>
    ensures { IfOk result (λ message. SaysByReading (Shown lending) bytes.now message.items) }
{
    let (source, text) = two_parts(bytes);
    let before = line_of(bytes, source.len());
    picked_message(alloc, lending, source, Lines { text, before })
}

/// Returns the message of a text or an object and the pick lines after it, with commands after them.
pub(crate) fn debugged_message(
    alloc: Global,
    lending: Lending,
    bytes: &[u8],
) -> Result<Vec<u8>, NoMemory>
    ensures { IfOk result (λ message. SaysByReading (Debugged lending) bytes.now message.items) }
{
    let (source, rest) = two_parts(bytes);
    let (text, _) = two_parts(rest);
    let before = line_of(bytes, source.len());
    picked_message(alloc, lending, source, Lines { text, before })
}

/// Returns the number of the line at an offset.
fn line_of(bytes: &[u8], at: usize) -> usize
    ensures { result ≡ line_at bytes.now (min at (length bytes.now)) }
{
    place_of(bytes, at.min(bytes.len())).line
}

/// Returns the message of a text or an object, or of pick lines over its code.
fn picked_message(
    alloc: Global,
    lending: Lending,
    source: &[u8],
    lines: Lines<'_>,
) -> Result<Vec<u8>, NoMemory>
    ensures { IfOk result (λ message.
        SaysOfPickedSource lending lines.entry.before source.now lines.entry.text.now message.items) }
{
    if is_object(source) {
        picked_object_message(alloc, lending, source, lines)
    } else {
        picked_text_message(alloc, lending, source, lines)
    }
}

/// Returns the message of a text, or of pick lines over its code.
fn picked_text_message(
    alloc: Global,
    lending: Lending,
    text: &[u8],
    lines: Lines<'_>,
) -> Result<Vec<u8>, NoMemory>
    ensures { IfOk result (λ message.
        SaysOfPickedText lending lines.entry.before text.now lines.entry.text.now message.items) }
{
    match text_message(alloc, "", text)? {
        Ok(compiled) => lines_message(alloc, lending, compiled.verified(), lines),
        Err(message) => Ok(message),
    }
}

/// Returns the message of an object, or of pick lines over its code.
fn picked_object_message(
    alloc: Global,
    lending: Lending,
    object: &[u8],
    lines: Lines<'_>,
) -> Result<Vec<u8>, NoMemory>
    ensures { IfOk result (λ message.
        SaysOfPickedObject lending lines.entry.before object.now lines.entry.text.now message.items) }
{
    match object_message(alloc, object)? {
        Ok((verified, _)) => lines_message(alloc, lending, &verified, lines),
        Err(message) => Ok(message),
    }
}

//! What there is to say of a refused text of a file.

ghost use Rattle.std.specs.Prelude.{◌≡◌, ◌≤◌, All, IfOk, length, min, option_map};
ghost use Rattle.pb_codegen.specs.Compiled.{IsRefused};
ghost use Rattle.pb_findings.specs.Findings.{IsFirstSpot, IsRefusalOf, IsSpotOf, IsWhole, in_file};

use crate::part::{Part, lines_before, offset_of};
use crate::rule::Rule;
use crate::spot::{Spot, spot_at};
use crate::words::{in_lines_of_file, what_of};
use pb_accept::{fault_line, text_cause};
use pb_base::NoMemory;
use pb_codegen::CompileFault;
use pb_message_wording::text_wording;
use pb_mistakes::{Spot as Other, Wording};
use std::alloc::Global;

/// What there is to say of a refused text.
#[derive(Drop)]
pub struct Refusal {
    /// What it is filed under.
    pub rule: Rule,
    /// Its line, without a line feed.
    pub line: Vec<u8>,
    /// What is wrong, in words.
    pub message: String,
    /// The offset in the file of the byte at which it is, if it is at one.
    pub offset: Option<usize>,
    /// The place of that byte.
    pub first: Option<Spot>,
    /// Other places that have to do with it.
    pub others: Vec<Spot>,
    /// What could stand there.
    pub expected: Vec<String>,
    /// What is usually meant.
    pub hints: Vec<String>,
    /// What else there is to say.
    pub notes: Vec<String>,
}

/// What a message says beside what is wrong and where.
#[derive(Drop)]
struct Notes {
    expected: Vec<String>,
    hints: Vec<String>,
    others: Vec<String>,
}

/// Returns the notes of a message by their kinds.
fn notes_of(alloc: Global, wording: &Wording) -> Result<Notes, NoMemory> {
    let mut sorted = Notes {
        expected: Vec::new(alloc),
        hints: Vec::new(alloc),
        others: Vec::new(alloc),
    };
    for note in &wording.notes {
        if let Some(words) = note.strip_prefix("expected: ") {
            sorted.expected.push(String::from_str(alloc, words)?)?;
        } else if let Some(words) = note.strip_prefix("hint: ") {
            sorted.hints.push(String::from_str(alloc, words)?)?;
        } else {
            sorted.others.push(String::from_str(alloc, note)?)?;
        }
    }
    Ok(sorted)
}

/// Returns the offset in the file of a cause, if it has one.
fn offset_if(part: Part<'_>, at: Option<usize>) -> Option<usize>
    requires { part.start ≤ length part.file.now }
    ensures { result ≡ option_map (in_file part.entry.start part.entry.text.now) at }
{
    match at {
        Some(at) => Some(offset_of(part, at)),
        None => None,
    }
}

/// Returns the place of an offset of a file, if there is one.
fn first_spot(alloc: Global, file: &[u8], offset: Option<usize>) -> Option<Spot>
    ensures { IsFirstSpot file.now offset result }
{
    match offset {
        Some(at) => Some(spot_at(file, at.min(file.len()), String::new(alloc))),
        None => None,
    }
}

/// Returns another place of a message as one of the file.
fn other_spot(alloc: Global, part: Part<'_>, other: &Other) -> Result<Spot, NoMemory>
    requires { part.start ≤ length part.file.now }
    ensures { IfOk result (IsSpotOf part.entry.file.now) }
{
    let what = what_of(alloc, &other.label)?;
    Ok(spot_at(
        part.file,
        offset_of(part, other.at).min(part.file.len()),
        what,
    ))
}

/// Returns other places of a message as those of the file.
fn other_spots(alloc: Global, part: Part<'_>, others: &[Other]) -> Result<Vec<Spot>, NoMemory>
    requires { part.start ≤ length part.file.now }
    ensures { IfOk result (λ spots. All (IsSpotOf part.entry.file.now) spots.items) }
{
    let mut spots = Vec::new(alloc);
    for other in others {
        spots.push(other_spot(alloc, part, other)?)?;
    }
    Ok(spots)
}

/// Returns what there is to say of a text that is refused for a fault.
pub fn refusal_of(alloc: Global, part: Part<'_>, fault: CompileFault) -> Result<Refusal, NoMemory>
    requires refused { IsRefused part.text.now fault }
    requires within { part.start ≤ length part.file.now }
    ensures { IfOk result (IsRefusalOf part.entry.file.now part.entry.start part.entry.text.now) }
{
    let Some(cause) = text_cause(&fault) else {
        return Err(NoMemory);
    };
    let wording = text_wording(alloc, part.text, &fault)?;
    if !wording.is_whole {
        return Err(NoMemory);
    }
    let line = fault_line(alloc, fault)?;
    let offset = offset_if(part, cause.at);
    let first = first_spot(alloc, part.file, offset);
    let others = other_spots(alloc, part, &wording.spots)?;
    let before = lines_before(part);
    let message = in_lines_of_file(alloc, &wording.summary, before)?;
    let notes = notes_of(alloc, &wording)?;
    Ok(Refusal {
        rule: Rule::Code(cause.code),
        line,
        message,
        offset,
        first,
        others,
        expected: notes.expected,
        hints: notes.hints,
        notes: notes.others,
    })
}

/// Returns a refusal of a text as a whole, which no place of it has to do with.
pub fn whole_refusal(
    alloc: Global,
    rule: Rule,
    line: &str,
    message: &str,
) -> Result<Refusal, NoMemory>
    ensures { IfOk result (IsWhole rule line.now) }
{
    Ok(Refusal {
        rule,
        line: Vec::from_slice(alloc, line.as_bytes())?,
        message: String::from_str(alloc, message)?,
        offset: None,
        first: None,
        others: Vec::new(alloc),
        expected: Vec::new(alloc),
        hints: Vec::new(alloc),
        notes: Vec::new(alloc),
    })
}

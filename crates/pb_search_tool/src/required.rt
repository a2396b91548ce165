//! What is said of a line that may be meant to require something, and is no requirement or stands too late.

ghost use Rattle.std.specs.Prelude.{◌≡◌, MatchResult, false};
ghost use Rattle.pb_search_tool.specs.Messages.{KeepsNotes};

use pb_message_excerpts::{is_near, nearest};
use pb_mistakes::Wording;
use pb_search_engine::requirement_of;
use std::alloc::{AllocError, Global};
use std::str;

/// What requirements look like.
const FORMS: &str =
    "a requirement is `has a parbegin`, `has a hold` or `claims at least K R`: K is from 1 to 1000000, with no zeros before it, and R is the name of a resource";

/// The requirements that have no amount.
const PARTS: [&str; 2] = ["has a parbegin", "has a hold"];

/// What is before the amount of a claim.
const CLAIM: &str = "claims at least ";

/// The most bytes of a line that is compared with requirements.
const MAX_COMPARED: usize = 64;

/// Changes what is told of a line that may be meant to require something: it is no requirement, or it is one that stands
/// too late. What is told of other lines stays.
pub(crate) fn tell_requirement(alloc: Global, wording: &mut Wording, line: &[u8])
    ensures { KeepsNotes wording.old wording.new }
{
    let Ok(words) = str::from_utf8(line) else {
        return;
    };
    if !may_require(words) {
        return;
    }
    if requirement_of(line).is_some() {
        retell(
            alloc,
            wording,
            "a requirement stands before the print lines",
        );
        hint_first(
            alloc,
            wording,
            "move this line up, before the first print line",
        );
    } else {
        retell(
            alloc,
            wording,
            "this is neither a requirement nor a print line",
        );
        hint_first(alloc, wording, FORMS);
        hint_meant(alloc, wording, words);
    }
}

/// Returns whether a line may be meant to require something: nothing is wrong with its ends, it names no arm, and it does
/// not print.
fn may_require(line: &str) -> bool {
    let first = match line.split_once(' ') {
        Some((first, _)) => first,
        None => line,
    };
    let has_right_ends = !line.is_empty() && line.trim_ascii().len() == line.len();
    has_right_ends && !first.contains('.') && !line.contains("print")
}

/// Replaces the fault in words.
fn retell(alloc: Global, wording: &mut Wording, summary: &str)
    ensures { KeepsNotes wording.old wording.new }
{
    match String::from_str(alloc, summary) {
        Ok(summary) => wording.summary = summary,
        Err(_) => wording.is_whole = false,
    }
}

/// Adds a hint before all others: which requirement was probably meant, if the line is near one.
fn hint_meant(alloc: Global, wording: &mut Wording, line: &str)
    ensures { KeepsNotes wording.old wording.new }
{
    match meant(alloc, line) {
        Ok(Some(meant)) => note_first(wording, format!(in alloc; "hint: did you mean `{meant}`?")),
        Ok(None) => {}
        Err(_) => wording.is_whole = false,
    }
}

/// Adds a hint before all others.
fn hint_first(alloc: Global, wording: &mut Wording, hint: &str)
    ensures { KeepsNotes wording.old wording.new }
{
    note_first(wording, format!(in alloc; "hint: {hint}"));
}

/// Adds a note before all others.
fn note_first(wording: &mut Wording, note: Result<String, AllocError>)
    ensures { KeepsNotes wording.old wording.new }
{
    match note {
        Ok(note) => wording.is_whole &= wording.notes.insert(0, note).is_ok(),
        Err(_) => wording.is_whole = false,
    }
}

/// Returns the requirement to which a line is near, as it is written.
fn meant(alloc: Global, line: &str) -> Result<Option<&'static str>, AllocError> {
    if line.len() > MAX_COMPARED {
        return Ok(None);
    }
    if let Some(number) = nearest(alloc, line, &PARTS)? {
        return Ok(PARTS.get(number).copied());
    }
    meant_claim(alloc, before_amount(line.as_bytes()))
}

/// Returns how a claim is written, if words before an amount are near to those of a claim and not the same.
fn meant_claim(alloc: Global, words: &[u8]) -> Result<Option<&'static str>, AllocError> {
    let Ok(words) = str::from_utf8(words) else {
        return Ok(None);
    };
    if words == CLAIM || !is_near(alloc, words, CLAIM)? {
        return Ok(None);
    }
    Ok(Some("claims at least K R"))
}

/// Returns what is before the first digit of a line.
fn before_amount(line: &[u8]) -> &[u8] {
    for end in 0..line.len() {
        if line[end].is_ascii_digit() {
            return &line[..end];
        }
    }
    line
}

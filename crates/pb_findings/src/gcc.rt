//! What is found, as lines of a compiler.

ghost use Rattle.std.specs.Prelude.{◌≡◌, ◌++◌, OnOk, string_bytes};
ghost use Rattle.std.specs.List.{flat_map};
ghost use Rattle.pb_findings.specs.Gcc.{first_start, first_gcc, found_gcc, further_gcc, head_gcc, note_gcc, start_of_spot, place_gcc};
ghost use Rattle.pb_findings.specs.Gcc.{refusal_gcc, report_gcc, spots_gcc, verdict_gcc, warned_gcc, what_else};
ghost use Rattle.pb_findings.specs.Spots.{spots_of};

use crate::refusal::Refusal;
use crate::said::{Found, Report, Verdict};
use crate::spot::Spot;
use crate::spots::places;
use crate::warned::Warned;
use pb_base::NoMemory;
use pb_base::writing::{put, put_name, put_number};

/// A line and a column of a file, both from 1.
#[derive(Clone, Copy)]
struct At {
    line: usize,
    column: usize,
}

/// Appends the place with which a line begins.
fn put_place(out: &mut Vec<u8>, name: &[u8], place: At) -> Result<(), NoMemory>
    ensures { OnOk result (out.new.items ≡ out.old.items ++ place_gcc name.now place) }
{
    put(out, name)?;
    put_number(out, b":", place.line)?;
    put_number(out, b":", place.column)?;
    put(out, b": ")
}

/// Appends the line of a refusal or a warning.
fn put_head(
    out: &mut Vec<u8>,
    name: &[u8],
    place: At,
    level: &[u8],
    code: &[u8],
    words: &[u8],
) -> Result<(), NoMemory>
    ensures { OnOk result (out.new.items ≡ out.old.items ++ head_gcc name.now place level.now code.now words.now) }
{
    put_place(out, name, place)?;
    put(out, level)?;
    put_name(out, b": ", code)?;
    put_name(out, b": ", words)?;
    put(out, b"\n")
}

/// Appends the line of a note.
fn put_note(
    out: &mut Vec<u8>,
    name: &[u8],
    place: At,
    kind: &[u8],
    words: &[u8],
) -> Result<(), NoMemory>
    ensures { OnOk result (out.new.items ≡ out.old.items ++ note_gcc name.now place kind.now words.now) }
{
    put_place(out, name, place)?;
    put_name(out, b"note: ", kind)?;
    put(out, words)?;
    put(out, b"\n")
}

/// Appends a note for each of some words.
fn put_notes(
    out: &mut Vec<u8>,
    name: &[u8],
    place: At,
    kind: &[u8],
    notes: &[String],
) -> Result<(), NoMemory>
    ensures { OnOk result (out.new.items ≡ out.old.items ++ flat_map (λ words. note_gcc name.now place kind.now (string_bytes words)) notes.now) }
{
    for words in notes {
        put_note(out, name, place, kind, words.as_bytes())?;
    }
    Ok(())
}

/// Returns the line and the column of a place.
fn place_of(spot: &Spot) -> At
    ensures { result ≡ start_of_spot spot.now }
{
    At {
        line: spot.line,
        column: spot.column,
    }
}

/// Returns the line and the column of the first place of a refusal, or those of the begin of the file.
fn begin(refusal: &Refusal) -> At
    ensures { result ≡ first_start (spots_of refusal.now) }
{
    match places(refusal) {
        Some(spots) => place_of(spots.first),
        None => At { line: 1, column: 1 },
    }
}

/// Returns what there is to say of a place that is not the first.
fn words_else(what: &[u8]) -> &[u8]
    ensures { result.now ≡ what_else what.now }
{
    match what {
        [] => b"here too",
        [_, ..] => what,
    }
}

/// Appends the note of a place that is not the first.
fn put_further(out: &mut Vec<u8>, name: &[u8], spot: &Spot) -> Result<(), NoMemory>
    ensures { OnOk result (out.new.items ≡ out.old.items ++ further_gcc name.now spot.now) }
{
    put_note(
        out,
        name,
        place_of(spot),
        b"",
        words_else(spot.what.as_bytes()),
    )
}

/// Appends the notes of places that are not the first.
fn put_all_further(out: &mut Vec<u8>, name: &[u8], spots: &[Spot]) -> Result<(), NoMemory>
    ensures { OnOk result (out.new.items ≡ out.old.items ++ flat_map (further_gcc name.now) spots.now) }
{
    for spot in spots {
        put_further(out, name, spot)?;
    }
    Ok(())
}

/// Appends the note of the first place, if there is more to say of it than the message.
fn put_first(out: &mut Vec<u8>, name: &[u8], place: At, what: &[u8]) -> Result<(), NoMemory>
    ensures { OnOk result (out.new.items ≡ out.old.items ++ first_gcc name.now place what.now) }
{
    match what {
        [] => Ok(()),
        [_, ..] => put_note(out, name, place, b"", what),
    }
}

/// Appends the notes of the places of a refusal.
fn put_spots(out: &mut Vec<u8>, name: &[u8], refusal: &Refusal) -> Result<(), NoMemory>
    ensures { OnOk result (out.new.items ≡ out.old.items ++ spots_gcc name.now (spots_of refusal.now)) }
{
    match places(refusal) {
        Some(spots) => {
            put_first(
                out,
                name,
                place_of(spots.first),
                spots.first.what.as_bytes(),
            )?;
            put_all_further(out, name, spots.others)
        }
        None => Ok(()),
    }
}

/// Appends the lines of a refusal.
fn put_refusal(out: &mut Vec<u8>, name: &[u8], refusal: &Refusal) -> Result<(), NoMemory>
    ensures { OnOk result (out.new.items ≡ out.old.items ++ refusal_gcc name.now refusal.now) }
{
    let place = begin(refusal);
    let code = refusal.rule.name().as_bytes();
    put_head(out, name, place, b"error", code, refusal.message.as_bytes())?;
    put_spots(out, name, refusal)?;
    put_notes(out, name, place, b"", &refusal.notes)?;
    put_notes(out, name, place, b"expected: ", &refusal.expected)?;
    put_notes(out, name, place, b"hint: ", &refusal.hints)
}

/// Appends the line of a warning.
fn put_warning(out: &mut Vec<u8>, name: &[u8], warned: &Warned) -> Result<(), NoMemory>
    ensures { OnOk result (out.new.items ≡ out.old.items ++ warned_gcc name.now warned.now) }
{
    put_head(
        out,
        name,
        place_of(&warned.spot),
        b"warning",
        warned.code.name().as_bytes(),
        warned.message.as_bytes(),
    )
}

/// Appends the lines of warnings.
fn put_warnings(out: &mut Vec<u8>, name: &[u8], warned: &[Warned]) -> Result<(), NoMemory>
    ensures { OnOk result (out.new.items ≡ out.old.items ++ flat_map (warned_gcc name.now) warned.now) }
{
    for one in warned {
        put_warning(out, name, one)?;
    }
    Ok(())
}

/// Appends the lines of what comes of a text.
fn put_verdict(out: &mut Vec<u8>, name: &[u8], verdict: &Verdict) -> Result<(), NoMemory>
    ensures { OnOk result (out.new.items ≡ out.old.items ++ verdict_gcc name.now verdict.now) }
{
    match verdict {
        Verdict::Accepted(warned) => put_warnings(out, name, warned),
        Verdict::Refused(refusal) => put_refusal(out, name, refusal),
    }
}

/// Appends the lines of the texts of a file.
fn put_texts(out: &mut Vec<u8>, name: &[u8], texts: &[Found]) -> Result<(), NoMemory>
    ensures { OnOk result (out.new.items ≡ out.old.items ++ flat_map (found_gcc name.now) texts.now) }
{
    for found in texts {
        put_verdict(out, name, &found.verdict)?;
    }
    Ok(())
}

/// Appends the lines of a file.
fn put_report(out: &mut Vec<u8>, report: &Report) -> Result<(), NoMemory>
    ensures { OnOk result (out.new.items ≡ out.old.items ++ report_gcc report.now) }
{
    match report {
        Report::Texts { name, found } => put_texts(out, name, found),
        Report::Unread { .. } => Ok(()),
    }
}

/// Appends the lines of files.
pub fn put_lines(out: &mut Vec<u8>, said: &[Report]) -> Result<(), NoMemory>
    ensures { OnOk result (out.new.items ≡ out.old.items ++ flat_map report_gcc said.now) }
{
    for report in said {
        put_report(out, report)?;
    }
    Ok(())
}

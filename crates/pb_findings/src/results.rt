//! Refusals and warnings, as results of SARIF.

ghost use Rattle.std.specs.Prelude.{◌≡◌, ◌<◌, ◌^◌, ◌++◌, [], OnOk, string_bytes};
ghost use Rattle.std.specs.List.{flat_map};
ghost use Rattle.pb_findings.specs.Sarif.{address_sarif, comma_before, found_sarif, location_members, message_sarif, note_sarif, others_sarif};
ghost use Rattle.pb_findings.specs.Sarif.{place_sarif, refusal_sarif, region_sarif, related_from, related_members, related_sarif, report_sarif, said_sarif, some_related};
ghost use Rattle.pb_findings.specs.Sarif.{result_head, result_places, verdict_sarif, warned_sarif, what_sarif};
ghost use Rattle.pb_findings.specs.Spots.{spots_listed};

use crate::refusal::Refusal;
use crate::said::{Found, Report, Verdict};
use crate::spot::Spot;
use crate::spots::{Spots, places};
use crate::strings::{put_all, put_inside, put_words};
use crate::warned::Warned;
use itoa::Buffer;
use pb_base::NoMemory;
use pb_base::writing::{put, put_digits, put_name};

/// Appends what is at a place.
fn put_said(out: &mut Vec<u8>, what: &[u8]) -> Result<(), NoMemory>
    ensures { OnOk result (out.new.items ≡ out.old.items ++ said_sarif what.now) }
{
    put(
        out,
        b",\n              \"message\": {\n                \"text\": ",
    )?;
    put_words(out, what)?;
    put(out, b"\n              }")
}

/// Appends what is at a place, if that is said.
fn put_what(out: &mut Vec<u8>, what: &[u8]) -> Result<(), NoMemory>
    ensures { OnOk result (out.new.items ≡ out.old.items ++ what_sarif what.now) }
{
    match what {
        [] => Ok(()),
        [_, ..] => put_said(out, what),
    }
}

/// Appends where in a file it is.
fn put_region(out: &mut Vec<u8>, line: usize, column: usize) -> Result<(), NoMemory>
    ensures { OnOk result (out.new.items ≡ out.old.items ++ region_sarif line column) }
{
    let mut begin = Buffer::new();
    let mut at = Buffer::new();
    put_all(
        out,
        &[
            b",\n                \"region\": {\n                  \"startLine\": ",
            begin.format(line).as_bytes(),
            b",\n                  \"startColumn\": ",
            at.format(column).as_bytes(),
            b"\n                }",
        ],
    )
}

/// Appends the address of a file.
fn put_address(out: &mut Vec<u8>, name: &[u8]) -> Result<(), NoMemory>
    ensures { OnOk result (out.new.items ≡ out.old.items ++ address_sarif name.now) }
{
    put_name(
        out,
        b"\"physicalLocation\": {\n                \"artifactLocation\": {\n                  \"uri\": \"",
        name,
    )?;
    put(out, b"\"\n                }")
}

/// Appends the members of a place.
fn put_place(out: &mut Vec<u8>, name: &[u8], spot: &Spot) -> Result<(), NoMemory>
    ensures { OnOk result (out.new.items ≡ out.old.items ++ place_sarif name.now spot.now) }
{
    put_address(out, name)?;
    put_region(out, spot.line, spot.column)?;
    put(out, b"\n              }")?;
    put_what(out, spot.what.as_bytes())
}

/// Appends the members of a file.
fn put_file(out: &mut Vec<u8>, name: &[u8]) -> Result<(), NoMemory>
    ensures { OnOk result (out.new.items ≡ out.old.items ++ location_members name.now []) }
{
    put_address(out, name)?;
    put(out, b"\n              }")
}

/// Appends the members of the first place of some, or of the file if there are none.
fn put_location(out: &mut Vec<u8>, name: &[u8], spots: Option<Spots<'_>>) -> Result<(), NoMemory>
    ensures { OnOk result (out.new.items ≡ out.old.items ++ location_members name.now (spots_listed spots.entry)) }
{
    match spots {
        Some(spots) => put_place(out, name, spots.first),
        None => put_file(out, name),
    }
}

/// Appends the comma before the item of a list with this number, from 0.
fn put_comma(out: &mut Vec<u8>, number: usize) -> Result<(), NoMemory>
    ensures { OnOk result (out.new.items ≡ out.old.items ++ comma_before number) }
{
    if number == 0 { Ok(()) } else { put(out, b",") }
}

/// Appends a place that is not the first, with its number among these, from 0.
fn put_one_related(
    out: &mut Vec<u8>,
    name: &[u8],
    number: usize,
    spot: &Spot,
) -> Result<(), NoMemory>
    requires { number < 2 ^ 63 }
    ensures { OnOk result (out.new.items ≡ out.old.items ++ related_sarif name.now number spot.now) }
{
    put_comma(out, number)?;
    put(out, b"\n            {\n              \"id\": ")?;
    put_digits(out, number + 1)?;
    put(out, b",\n              ")?;
    put_place(out, name, spot)?;
    put(out, b"\n            }")
}

/// Appends places that are not the first.
fn put_all_related(out: &mut Vec<u8>, name: &[u8], spots: &[Spot]) -> Result<(), NoMemory>
    ensures { OnOk result (out.new.items ≡ out.old.items ++ related_from name.now 0 spots.now) }
{
    for i in 0..spots.len() {
        put_one_related(out, name, i, &spots[i])?;
    }
    Ok(())
}

/// Appends the member with places that are not the first.
fn put_some_related(out: &mut Vec<u8>, name: &[u8], spots: &[Spot]) -> Result<(), NoMemory>
    ensures { OnOk result (out.new.items ≡ out.old.items ++ some_related name.now spots.now) }
{
    put(out, b",\n          \"relatedLocations\": [")?;
    put_all_related(out, name, spots)?;
    put(out, b"\n          ]")
}

/// Appends the member with places that are not the first, if there are some.
fn put_others(out: &mut Vec<u8>, name: &[u8], spots: &[Spot]) -> Result<(), NoMemory>
    ensures { OnOk result (out.new.items ≡ out.old.items ++ others_sarif name.now spots.now) }
{
    match spots {
        [] => Ok(()),
        [_, ..] => put_some_related(out, name, spots),
    }
}

/// Appends the member with the places after the first, if there are some.
fn put_related(out: &mut Vec<u8>, name: &[u8], spots: Option<Spots<'_>>) -> Result<(), NoMemory>
    ensures { OnOk result (out.new.items ≡ out.old.items ++ related_members name.now (spots_listed spots.entry)) }
{
    match spots {
        Some(spots) => put_others(out, name, spots.others),
        None => Ok(()),
    }
}

/// Appends what comes before the inside of a message.
fn put_head(out: &mut Vec<u8>, level: &[u8], code: &[u8]) -> Result<(), NoMemory>
    ensures { OnOk result (out.new.items ≡ out.old.items ++ result_head level.now code.now) }
{
    put_all(
        out,
        &[
            b",\n        {\n          \"ruleId\": \"",
            code,
            b"\",\n          \"level\": \"",
            level,
            b"\",\n          \"message\": {\n            \"text\": \"",
        ],
    )
}

/// Appends what comes after the inside of a message.
fn put_places(out: &mut Vec<u8>, name: &[u8], spots: Option<Spots<'_>>) -> Result<(), NoMemory>
    ensures { OnOk result (out.new.items ≡ out.old.items ++ result_places name.now (spots_listed spots.entry)) }
{
    put(
        out,
        b"\"\n          },\n          \"locations\": [\n            {\n              ",
    )?;
    put_location(out, name, spots)?;
    put(out, b"\n            }\n          ]")?;
    put_related(out, name, spots)?;
    put(out, b"\n        }")
}

/// Appends a note, which begins a line.
fn put_note(out: &mut Vec<u8>, kind: &[u8], words: &[u8]) -> Result<(), NoMemory>
    ensures { OnOk result (out.new.items ≡ out.old.items ++ note_sarif kind.now words.now) }
{
    put(out, b"\\n")?;
    put(out, kind)?;
    put_inside(out, words)
}

/// Appends notes of a kind.
fn put_notes(out: &mut Vec<u8>, kind: &[u8], notes: &[String]) -> Result<(), NoMemory>
    ensures { OnOk result (out.new.items ≡ out.old.items ++ flat_map (λ words. note_sarif kind.now (string_bytes words)) notes.now) }
{
    for words in notes {
        put_note(out, kind, words.as_bytes())?;
    }
    Ok(())
}

/// Appends the inside of the message of a refusal.
fn put_message(out: &mut Vec<u8>, refusal: &Refusal) -> Result<(), NoMemory>
    ensures { OnOk result (out.new.items ≡ out.old.items ++ message_sarif refusal.now) }
{
    put_inside(out, refusal.message.as_bytes())?;
    put_notes(out, b"", &refusal.notes)?;
    put_notes(out, b"expected: ", &refusal.expected)?;
    put_notes(out, b"hint: ", &refusal.hints)
}

/// Appends a refusal.
fn put_refusal(out: &mut Vec<u8>, name: &[u8], refusal: &Refusal) -> Result<(), NoMemory>
    ensures { OnOk result (out.new.items ≡ out.old.items ++ refusal_sarif name.now refusal.now) }
{
    put_head(out, b"error", refusal.rule.name().as_bytes())?;
    put_message(out, refusal)?;
    put_places(out, name, places(refusal))
}

/// Appends a warning.
fn put_warning(out: &mut Vec<u8>, name: &[u8], warned: &Warned) -> Result<(), NoMemory>
    ensures { OnOk result (out.new.items ≡ out.old.items ++ warned_sarif name.now warned.now) }
{
    let place = Spots {
        first: &warned.spot,
        others: &[],
    };
    put_head(out, b"warning", warned.code.name().as_bytes())?;
    put_inside(out, warned.message.as_bytes())?;
    put_places(out, name, Some(place))
}

/// Appends warnings.
fn put_warnings(out: &mut Vec<u8>, name: &[u8], warned: &[Warned]) -> Result<(), NoMemory>
    ensures { OnOk result (out.new.items ≡ out.old.items ++ flat_map (warned_sarif name.now) warned.now) }
{
    for one in warned {
        put_warning(out, name, one)?;
    }
    Ok(())
}

/// Appends what comes of a text.
fn put_verdict(out: &mut Vec<u8>, name: &[u8], verdict: &Verdict) -> Result<(), NoMemory>
    ensures { OnOk result (out.new.items ≡ out.old.items ++ verdict_sarif name.now verdict.now) }
{
    match verdict {
        Verdict::Accepted(warned) => put_warnings(out, name, warned),
        Verdict::Refused(refusal) => put_refusal(out, name, refusal),
    }
}

/// Appends what comes of the texts of a file.
fn put_texts(out: &mut Vec<u8>, name: &[u8], texts: &[Found]) -> Result<(), NoMemory>
    ensures { OnOk result (out.new.items ≡ out.old.items ++ flat_map (found_sarif name.now) texts.now) }
{
    for found in texts {
        put_verdict(out, name, &found.verdict)?;
    }
    Ok(())
}

/// Appends what comes of a file.
fn put_report(out: &mut Vec<u8>, report: &Report) -> Result<(), NoMemory>
    ensures { OnOk result (out.new.items ≡ out.old.items ++ report_sarif report.now) }
{
    match report {
        Report::Texts { name, found } => put_texts(out, name, found),
        Report::Unread { .. } => Ok(()),
    }
}

/// Appends what comes of files, each result with a comma before it.
pub fn put_results(out: &mut Vec<u8>, said: &[Report]) -> Result<(), NoMemory>
    ensures { OnOk result (out.new.items ≡ out.old.items ++ flat_map report_sarif said.now) }
{
    for report in said {
        put_report(out, report)?;
    }
    Ok(())
}

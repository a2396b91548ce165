//! What is found, as an object of JSON on a line for each text.

ghost use Rattle.std.specs.Prelude.{◌≡◌, ◌++◌, OnOk, codes, string_bytes};
ghost use Rattle.std.specs.List.{flat_map};
ghost use Rattle.pb_findings.specs.Objects.{acceptance_members, first_text, found_json, offset_member, place_members, refusal_head};
ghost use Rattle.pb_findings.specs.Objects.{refusal_members, refusal_notes, refusal_places, report_json, spot_text, text_head, unread_json};
ghost use Rattle.pb_findings.specs.Objects.{verdict_members, warned_text, warnings_text, what_text};
ghost use Rattle.pb_findings.specs.Spots.{spots_of};
ghost use Rattle.pb_findings.specs.Strings.{further, items_text, list_member};

use crate::refusal::Refusal;
use crate::said::{Found, Report, Verdict};
use crate::spot::Spot;
use crate::spots::places;
use crate::strings::{put_member, put_strings};
use crate::warned::Warned;
use pb_base::NoMemory;
use pb_base::writing::{put, put_name, put_number};

/// Appends the line and the column of a place.
fn put_place(out: &mut Vec<u8>, spot: &Spot) -> Result<(), NoMemory>
    ensures { OnOk result (out.new.items ≡ out.old.items ++ place_members spot.now) }
{
    put_number(out, b"\"line\": ", spot.line)?;
    put_number(out, b", \"column\": ", spot.column)
}

/// Appends what is at a place, if that is said.
fn put_what(out: &mut Vec<u8>, what: &[u8]) -> Result<(), NoMemory>
    ensures { OnOk result (out.new.items ≡ out.old.items ++ what_text what.now) }
{
    match what {
        [] => Ok(()),
        [_, ..] => put_member(out, b", \"what\": ", what),
    }
}

/// Appends a place.
fn put_spot(out: &mut Vec<u8>, spot: &Spot) -> Result<(), NoMemory>
    ensures { OnOk result (out.new.items ≡ out.old.items ++ spot_text spot.now) }
{
    put(out, b"{")?;
    put_place(out, spot)?;
    put_what(out, spot.what.as_bytes())?;
    put(out, b"}")
}

/// Appends places that are not the first of a list.
fn put_further_spots(out: &mut Vec<u8>, spots: &[Spot]) -> Result<(), NoMemory>
    ensures { OnOk result (out.new.items ≡ out.old.items ++ flat_map (further spot_text) spots.now) }
{
    for spot in spots {
        put(out, b", ")?;
        put_spot(out, spot)?;
    }
    Ok(())
}

/// Appends all places of a refusal.
fn put_all_spots(out: &mut Vec<u8>, refusal: &Refusal) -> Result<(), NoMemory>
    ensures { OnOk result (out.new.items ≡ out.old.items ++ items_text spot_text (spots_of refusal.now)) }
{
    match places(refusal) {
        Some(spots) => {
            put_spot(out, spots.first)?;
            put_further_spots(out, spots.others)
        }
        None => Ok(()),
    }
}

/// Appends the line and the column of a place as members after others.
fn put_first(out: &mut Vec<u8>, spot: &Spot) -> Result<(), NoMemory>
    ensures { OnOk result (out.new.items ≡ out.old.items ++ (codes ", " ++ place_members spot.now)) }
{
    put(out, b", ")?;
    put_place(out, spot)
}

/// Appends the line and the column of the first place of a refusal.
fn put_first_spot(out: &mut Vec<u8>, refusal: &Refusal) -> Result<(), NoMemory>
    ensures { OnOk result (out.new.items ≡ out.old.items ++ first_text (spots_of refusal.now)) }
{
    match places(refusal) {
        Some(spots) => put_first(out, spots.first),
        None => Ok(()),
    }
}

/// Appends the offset of a refusal, if it has one.
fn put_offset(out: &mut Vec<u8>, offset: Option<usize>) -> Result<(), NoMemory>
    ensures { OnOk result (out.new.items ≡ out.old.items ++ offset_member offset) }
{
    match offset {
        Some(at) => put_number(out, b", \"offset\": ", at),
        None => Ok(()),
    }
}

/// Appends where a refusal is.
fn put_places(out: &mut Vec<u8>, refusal: &Refusal) -> Result<(), NoMemory>
    ensures { OnOk result (out.new.items ≡ out.old.items ++ refusal_places refusal.now) }
{
    put_offset(out, refusal.offset)?;
    put_first_spot(out, refusal)?;
    put(out, b", \"places\": ")?;
    put(out, b"[")?;
    put_all_spots(out, refusal)?;
    put(out, b"]")
}

/// Appends the code, the line and the words of a refusal.
fn put_refusal_head(out: &mut Vec<u8>, refusal: &Refusal) -> Result<(), NoMemory>
    ensures { OnOk result (out.new.items ≡ out.old.items ++ refusal_head refusal.now) }
{
    put_member(
        out,
        b", \"accepted\": false, \"code\": ",
        refusal.rule.name().as_bytes(),
    )?;
    put_member(out, b", \"refusal\": ", &refusal.line)?;
    put_member(out, b", \"message\": ", refusal.message.as_bytes())
}

/// Appends what is expected, what is usually meant, and what else is said.
fn put_notes(out: &mut Vec<u8>, refusal: &Refusal) -> Result<(), NoMemory>
    ensures { OnOk result (out.new.items ≡ out.old.items ++ refusal_notes refusal.now) }
{
    put_strings(out, b", \"expected\": ", &refusal.expected)?;
    put_strings(out, b", \"hints\": ", &refusal.hints)?;
    put_strings(out, b", \"notes\": ", &refusal.notes)
}

/// Appends which text of which file it is.
fn put_head(out: &mut Vec<u8>, name: &[u8], number: usize) -> Result<(), NoMemory>
    ensures { OnOk result (out.new.items ≡ out.old.items ++ text_head name.now number) }
{
    put_name(out, b"{\"file\": \"", name)?;
    put_number(out, b"\", \"text\": ", number)
}

/// Appends a refusal, after the file and the text that it is of.
fn put_refusal(out: &mut Vec<u8>, refusal: &Refusal) -> Result<(), NoMemory>
    ensures { OnOk result (out.new.items ≡ out.old.items ++ refusal_members refusal.now) }
{
    put_refusal_head(out, refusal)?;
    put_places(out, refusal)?;
    put_notes(out, refusal)?;
    put(out, b"}\n")
}

/// Appends a warning.
fn put_warned(out: &mut Vec<u8>, warned: &Warned) -> Result<(), NoMemory>
    ensures { OnOk result (out.new.items ≡ out.old.items ++ warned_text warned.now) }
{
    put_member(out, b"{\"code\": ", warned.code.name().as_bytes())?;
    put_member(out, b", \"warning\": ", &warned.line)?;
    put_member(out, b", \"message\": ", warned.message.as_bytes())?;
    put(out, b", ")?;
    put_place(out, &warned.spot)?;
    put(out, b"}")
}

/// Appends warnings that are not the first of a list.
fn put_further_warned(out: &mut Vec<u8>, warned: &[Warned]) -> Result<(), NoMemory>
    ensures { OnOk result (out.new.items ≡ out.old.items ++ flat_map (further warned_text) warned.now) }
{
    for one in warned {
        put(out, b", ")?;
        put_warned(out, one)?;
    }
    Ok(())
}

/// Appends the warnings of a list.
fn put_warned_items(out: &mut Vec<u8>, warned: &[Warned]) -> Result<(), NoMemory>
    ensures { OnOk result (out.new.items ≡ out.old.items ++ items_text warned_text warned.now) }
{
    match warned {
        [first, others @ ..] => {
            put_warned(out, first)?;
            put_further_warned(out, others)
        }
        [] => Ok(()),
    }
}

/// Appends a member with a list of warnings.
fn put_warned_list(out: &mut Vec<u8>, warned: &[Warned]) -> Result<(), NoMemory>
    ensures { OnOk result (out.new.items ≡ out.old.items ++ list_member (codes ", \"warnings\": ") warned_text warned.now) }
{
    put(out, b", \"warnings\": ")?;
    put(out, b"[")?;
    put_warned_items(out, warned)?;
    put(out, b"]")
}

/// Appends the warnings of an accepted text, if they are asked for.
fn put_warnings(out: &mut Vec<u8>, warn: bool, warned: &[Warned]) -> Result<(), NoMemory>
    ensures { OnOk result (out.new.items ≡ out.old.items ++ warnings_text warn warned.now) }
{
    if warn {
        put_warned_list(out, warned)
    } else {
        Ok(())
    }
}

/// Appends that a text is accepted, after the file and the text that it is.
fn put_acceptance(out: &mut Vec<u8>, warn: bool, warned: &[Warned]) -> Result<(), NoMemory>
    ensures { OnOk result (out.new.items ≡ out.old.items ++ acceptance_members warn warned.now) }
{
    put(out, b", \"accepted\": true")?;
    put_warnings(out, warn, warned)?;
    put(out, b"}\n")
}

/// Appends what comes of a text, after the file and the text that it is.
fn put_verdict(out: &mut Vec<u8>, warn: bool, verdict: &Verdict) -> Result<(), NoMemory>
    ensures { OnOk result (out.new.items ≡ out.old.items ++ verdict_members warn verdict.now) }
{
    match verdict {
        Verdict::Accepted(warned) => put_acceptance(out, warn, warned),
        Verdict::Refused(refusal) => put_refusal(out, refusal),
    }
}

/// Appends the object of a text, with its warnings if they are asked for.
fn put_found(out: &mut Vec<u8>, warn: bool, name: &[u8], found: &Found) -> Result<(), NoMemory>
    ensures { OnOk result (out.new.items ≡ out.old.items ++ found_json warn name.now found.now) }
{
    put_head(out, name, found.number)?;
    put_verdict(out, warn, &found.verdict)
}

/// Appends the objects of the texts of a file.
fn put_texts(out: &mut Vec<u8>, warn: bool, name: &[u8], texts: &[Found]) -> Result<(), NoMemory>
    ensures { OnOk result (out.new.items ≡ out.old.items ++ flat_map (found_json warn name.now) texts.now) }
{
    for found in texts {
        put_found(out, warn, name, found)?;
    }
    Ok(())
}

/// Appends the object of a file that cannot be read.
fn put_unread(out: &mut Vec<u8>, name: &[u8], reason: &[u8]) -> Result<(), NoMemory>
    ensures { OnOk result (out.new.items ≡ out.old.items ++ unread_json name.now reason.now) }
{
    put_name(out, b"{\"file\": \"", name)?;
    put_member(
        out,
        b"\", \"accepted\": false, \"read\": false, \"message\": ",
        reason,
    )?;
    put(out, b"}\n")
}

/// Appends the objects of a file.
fn put_report(out: &mut Vec<u8>, warn: bool, report: &Report) -> Result<(), NoMemory>
    ensures { OnOk result (out.new.items ≡ out.old.items ++ report_json warn report.now) }
{
    match report {
        Report::Texts { name, found } => put_texts(out, warn, name, found),
        Report::Unread { name, reason } => put_unread(out, name, reason),
    }
}

/// Appends the objects of files, with warnings if they are asked for.
pub fn put_objects(out: &mut Vec<u8>, warn: bool, said: &[Report]) -> Result<(), NoMemory>
    ensures { OnOk result (out.new.items ≡ out.old.items ++ flat_map (report_json warn) said.now) }
{
    for report in said {
        put_report(out, warn, report)?;
    }
    Ok(())
}

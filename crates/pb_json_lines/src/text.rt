//! A text in JSON lines.

ghost use Rattle.std.specs.Prelude.{◌≡◌, ◌<◌, ◌++◌, ◌+◌, IfOk, IfSome, OnOk, IfErr, length, map, not, true, false, ◌||◌};
ghost use Rattle.std.specs.List.{position};
ghost use Rattle.pb_json.specs.Values.{comma};
ghost use Rattle.pb_json_lines.specs.Forms as forms;
ghost use Rattle.pb_json_lines.specs.JsonLines as spec;

use crate::form::{Dialect, Section, form_of};
use crate::lines::lines_of;
use crate::members::put_members;
use pb_base::NoMemory;
use pb_base::writing::put;
use pb_json::put_comma;
use std::alloc::Global;

/// Appends what the object of a line says, without its braces.
#[tactic(auto, unfolding(crate::specs::Forms::said_by))]
fn put_said(out: &mut Vec<u8>, dialect: Dialect, is_open: bool, text: &[u8]) -> Result<(), NoMemory>
    ensures { OnOk result (out.new.items ≡ out.old.items ++ forms.said_by (forms.form_of dialect is_open text.now) text.now) }
{
    let form = form_of(dialect, is_open, text);
    put(out, form.first.as_bytes())?;
    put_members(out, form.pattern.as_bytes(), text)
}

/// Appends the object of a line.
#[tactic(auto, unfolding(crate::specs::JsonLines::object_of))]
pub(crate) fn put_object(
    out: &mut Vec<u8>,
    dialect: Dialect,
    is_open: bool,
    text: &[u8],
) -> Result<(), NoMemory>
    ensures { OnOk result (out.new.items ≡ out.old.items ++ spec.object_of dialect is_open text.now) }
{
    put(out, b"{")?;
    put_said(out, dialect, is_open, text)?;
    put(out, b"}")
}

/// Returns the number of a section.
fn place_of(section: Section) -> u8
    ensures { result ≡ spec.place_of section }
{
    match section {
        Section::Alone => 0,
        Section::Opens => 1,
        Section::Heading => 2,
        Section::Processes => 3,
        Section::Integers => 4,
        Section::Holds => 5,
        Section::Asks => 6,
        Section::Prints => 7,
        Section::Picks => 8,
    }
}

/// Returns the section of a line.
fn section_of(dialect: Dialect, is_open: bool, text: &[u8]) -> Section
    ensures { result ≡ forms.section_of dialect is_open text.now }
{
    form_of(dialect, is_open, text).section
}

/// Returns whether a part of an outcome or a deadlock is of a section.
fn is_of(section: Section, text: &[u8]) -> bool
    ensures { result ≡ spec.is_of section text.now }
{
    place_of(section_of(Dialect::Program, true, text)) == place_of(section)
}

/// Returns whether a line is that of an outcome or a deadlock.
fn opens(dialect: Dialect, is_open: bool, text: &[u8]) -> bool
    ensures { result ≡ spec.opens dialect is_open text.now }
{
    match section_of(dialect, is_open, text) {
        Section::Opens => true,
        Section::Alone
        | Section::Heading
        | Section::Processes
        | Section::Integers
        | Section::Holds
        | Section::Asks
        | Section::Prints
        | Section::Picks => false,
    }
}

/// Returns whether a line belongs to the outcome or the deadlock before it.
fn is_part(dialect: Dialect, is_open: bool, text: &[u8]) -> bool
    ensures { result ≡ spec.is_part dialect is_open text.now }
{
    match section_of(dialect, is_open, text) {
        Section::Opens | Section::Alone => false,
        Section::Heading
        | Section::Processes
        | Section::Integers
        | Section::Holds
        | Section::Asks
        | Section::Prints
        | Section::Picks => true,
    }
}

/// Appends the object of a part after others, with the comma before it.
fn put_item(out: &mut Vec<u8>, before: usize, text: &[u8]) -> Result<(), NoMemory>
    ensures { OnOk result (out.new.items ≡ out.old.items ++ (comma before ++ spec.object_of Dialect.Program true text.now)) }
{
    put_comma(out, before)?;
    put_object(out, Dialect::Program, true, text)
}

/// Appends the objects of those lines that are of a section.
fn put_items(out: &mut Vec<u8>, section: Section, lines: &[&[u8]]) -> Result<(), NoMemory>
    ensures { OnOk result (out.new.items ≡ out.old.items ++ spec.items section 0 (map (λ l. l.now) lines.now)) }
{
    let mut before: usize = 0;
    for i in 0..lines.len() {
        if is_of(section, lines[i]) {
            put_item(out, before, lines[i])?;
            before += 1;
        }
    }
    Ok(())
}

/// Appends a member with the objects of the lines that are of a section.
fn put_list(
    out: &mut Vec<u8>,
    key: &[u8],
    section: Section,
    lines: &[&[u8]],
) -> Result<(), NoMemory>
    ensures { OnOk result (out.new.items ≡ out.old.items ++ spec.list_of key.now section (map (λ l. l.now) lines.now)) }
{
    put(out, b",\"")?;
    put(out, key)?;
    put(out, b"\":[")?;
    put_items(out, section, lines)?;
    put(out, b"]")
}

/// Appends the lists of an outcome or a deadlock.
#[tactic(auto, unfolding(crate::specs::JsonLines::lists_of))]
fn put_lists(out: &mut Vec<u8>, lines: &[&[u8]]) -> Result<(), NoMemory>
    ensures { OnOk result (out.new.items ≡ out.old.items ++ spec.lists_of (map (λ l. l.now) lines.now)) }
{
    put_list(out, b"processes", Section::Processes, lines)?;
    put_list(out, b"integers", Section::Integers, lines)?;
    put_list(out, b"holds", Section::Holds, lines)?;
    put_list(out, b"asks", Section::Asks, lines)?;
    put_list(out, b"prints", Section::Prints, lines)?;
    put_list(out, b"picks", Section::Picks, lines)
}

/// Returns the lines at the front that belong to an outcome or a deadlock before them.
fn parts_of<'s, 't>(lines: &'s [&'t [u8]]) -> &'s [&'t [u8]]
    ensures { map (λ l. l.now) result.now ≡ spec.parts_of (map (λ l. l.now) lines.now) }
{
    for i in 0..lines.len() {
        if !is_part(Dialect::Program, true, lines[i]) {
            return &lines[..i];
        }
    }
    lines
}

/// Appends the object of an outcome or a deadlock.
#[tactic(auto, unfolding(crate::specs::JsonLines::block_of))]
fn put_block(
    out: &mut Vec<u8>,
    dialect: Dialect,
    is_open: bool,
    first: &[u8],
    lines: &[&[u8]],
) -> Result<(), NoMemory>
    ensures { OnOk result (out.new.items ≡ out.old.items ++ spec.block_of dialect is_open first.now (map (λ l. l.now) lines.now)) }
{
    put(out, b"{")?;
    put_said(out, dialect, is_open, first)?;
    put_lists(out, parts_of(lines))?;
    put(out, b"}")
}

/// Appends what is written for a line.
fn put_for(
    out: &mut Vec<u8>,
    dialect: Dialect,
    is_open: bool,
    text: &[u8],
    lines: &[&[u8]],
) -> Result<(), NoMemory>
    ensures { OnOk result (out.new.items ≡ out.old.items ++ spec.said_of dialect is_open text.now (map (λ l. l.now) lines.now)) }
{
    if opens(dialect, is_open, text) {
        put_block(out, dialect, is_open, text, lines)?;
        return put(out, b"\n");
    }
    if is_part(dialect, is_open, text) {
        return Ok(());
    }
    put_object(out, dialect, is_open, text)?;
    put(out, b"\n")
}

/// Returns whether the next line may belong to an outcome or a deadlock.
fn stays_open(dialect: Dialect, is_open: bool, text: &[u8]) -> bool
    ensures { result ≡ spec.opens dialect is_open text.now || spec.is_part dialect is_open text.now }
{
    opens(dialect, is_open, text) || is_part(dialect, is_open, text)
}

/// Appends the objects of lines.
fn put_objects(out: &mut Vec<u8>, dialect: Dialect, lines: &[&[u8]]) -> Result<(), NoMemory>
    ensures { OnOk result (out.new.items ≡ out.old.items ++ spec.objects dialect false (map (λ l. l.now) lines.now)) }
{
    let mut is_open = false;
    for i in 0..lines.len() {
        put_for(out, dialect, is_open, lines[i], lines.split_at(i + 1).1)?;
        is_open = stays_open(dialect, is_open, lines[i]);
    }
    Ok(())
}

/// Returns the JSON lines of a text that a command wrote.
#[tactic(auto, unfolding(crate::specs::JsonLines::json_lines))]
pub fn json_lines(alloc: Global, dialect: Dialect, text: &[u8]) -> Result<Vec<u8>, NoMemory>
    ensures { IfOk result (λ lines. lines.items ≡ spec.json_lines dialect text.now) }
{
    let lines = lines_of(alloc, text)?;
    let mut out = Vec::new(alloc);
    put_objects(&mut out, dialect, lines.as_slice())?;
    Ok(out)
}

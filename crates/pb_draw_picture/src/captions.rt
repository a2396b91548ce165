//! The texts of a picture.

ghost use Rattle.std.specs.Prelude.{◌≡◌, ◌++◌, IfOk, OnOk, codes, map};
ghost use Rattle.std.specs.Fmt.{decimal};
ghost use Rattle.pb_base.specs.Lines.{fault_text, name_of, names_view, pair_text, pairs_text, pick_text};
ghost use Rattle.pb_code.specs.View.{labels_view};
ghost use Rattle.pb_draw_picture.specs.Texts as spec;

use crate::sizes::SMALL_CHARACTER;
use pb_base::writing::{put, put_number};
use pb_base::{Bundle, Event, FaultKind, Names, NoMemory, Pair, Pick};
use pb_code::Labels;
use pb_draw::Happening;
use std::alloc::Global;

/// Returns a number as text, with words after it.
pub(crate) fn number_text(alloc: Global, number: u64, words: &[u8]) -> Result<Vec<u8>, NoMemory>
    ensures { IfOk result (λ text. text.items ≡ decimal number ++ words.now) }
{
    let mut text = Vec::new(alloc);
    put_number(&mut text, b"", number)?;
    put(&mut text, words)?;
    Ok(text)
}

/// Appends the name with a number to `text`, if there is one.
pub(crate) fn put_name(text: &mut Vec<u8>, names: &[Vec<u8>], i: usize) -> Result<(), NoMemory>
    ensures { OnOk result (text.new.items ≡ text.old.items ++ name_of (map (λ name. name.items) names.now) i) }
{
    match names.get(i) {
        Some(name) => put(text, name),
        None => Ok(()),
    }
}

/// Returns `P.a`, the name of an arm.
pub(crate) fn arm_text(alloc: Global, names: &Names, pick: Pick) -> Result<Vec<u8>, NoMemory>
    ensures { IfOk result (λ text. text.items ≡ pick_text (names_view names.now) pick) }
{
    let mut text = Vec::new(alloc);
    put_name(&mut text, &names.processes, usize::from(pick.process))?;
    put_number(&mut text, b".", pick.arm)?;
    Ok(text)
}

/// Appends an amount and the name of its resource to `text`.
fn put_pair(text: &mut Vec<u8>, names: &Names, pair: Pair) -> Result<(), NoMemory>
    ensures { OnOk result (text.new.items ≡ text.old.items ++ pair_text (names_view names.now) pair) }
{
    put_number(text, b" ", pair.amount)?;
    put(text, b" ")?;
    put_name(text, &names.resources, usize::from(pair.resource))
}

/// Returns ` k R` for each pair of a bundle.
fn pairs_of(alloc: Global, names: &Names, bundle: &Bundle) -> Result<Vec<u8>, NoMemory>
    ensures { IfOk result (λ text. text.items ≡ pairs_text (names_view names.now) bundle.now) }
{
    let mut text = Vec::new(alloc);
    for i in 0..bundle.len() {
        put_pair(&mut text, names, bundle.get(i))?;
    }
    Ok(text)
}

/// Returns the amounts of a bundle, each with its resource.
pub(crate) fn bundle_text(
    alloc: Global,
    names: &Names,
    bundle: &Bundle,
) -> Result<Vec<u8>, NoMemory>
    ensures { IfOk result (λ text. text.items ≡ spec.bundle_text (names_view names.now) bundle.now) }
{
    let pairs = pairs_of(alloc, names, bundle)?;
    let start = pairs.len().min(1);
    let text = Vec::from_slice(alloc, &pairs[start..])?;
    Ok(text)
}

/// Returns the word for a fault.
fn fault_word(kind: FaultKind) -> &'static [u8]
    ensures { result.now ≡ fault_text kind }
{
    match kind {
        FaultKind::Divide => b"divide",
        FaultKind::Overflow => b"overflow",
    }
}

/// Appends a source line to `text`, if there is one.
fn put_line(text: &mut Vec<u8>, line: Option<u32>) -> Result<(), NoMemory>
    ensures { OnOk result (text.new.items ≡ text.old.items ++ spec.line_text line) }
{
    match line {
        Some(line) => put_number(text, b", line ", line),
        None => Ok(()),
    }
}

/// Returns what is written of an event: the bundle of a grant or a return, the event itself of the others, and the
/// source line of a fault.
pub(crate) fn caption(
    alloc: Global,
    names: &Names,
    line: Option<u32>,
    event: &Event,
) -> Result<Vec<u8>, NoMemory>
    ensures { IfOk result (λ text. text.items ≡ spec.caption (names_view names.now) line event.now) }
{
    let mut text = Vec::new(alloc);
    match event {
        Event::Granted { bundle, .. } => return bundle_text(alloc, names, bundle),
        Event::Returned { bundle, .. } => return bundle_text(alloc, names, bundle),
        Event::Printed { value, .. } => put_number(&mut text, b"print ", *value)?,
        Event::Faulted { kind, .. } => {
            put(&mut text, b"fault ")?;
            put(&mut text, fault_word(*kind))?;
            put_line(&mut text, line)?;
        }
        Event::Finished { .. } => put(&mut text, b"end")?,
    }
    Ok(text)
}

/// Returns what is written beside the mark of an event. A grant and a return have their hold.
pub(crate) fn label_of(
    alloc: Global,
    names: &Names,
    line: Option<u32>,
    event: &Event,
) -> Result<Vec<u8>, NoMemory>
    ensures { IfOk result (λ text. text.items ≡ spec.label_of (names_view names.now) line event.now) }
{
    match event {
        Event::Granted { .. } => Ok(Vec::new(alloc)),
        Event::Returned { .. } => Ok(Vec::new(alloc)),
        Event::Printed { .. } => caption(alloc, names, line, event),
        Event::Faulted { .. } => caption(alloc, names, line, event),
        Event::Finished { .. } => caption(alloc, names, line, event),
    }
}

/// Appends the name of an integer of a process to `text`, if it has one.
fn put_integer(text: &mut Vec<u8>, labels: &Labels, p: usize, x: usize) -> Result<(), NoMemory>
    ensures { OnOk result (text.new.items ≡ text.old.items ++ spec.integer_text (labels_view labels.now) p x) }
{
    match labels.processes.get(p) {
        Some(process) => put_name(text, &process.integers, x),
        None => Ok(()),
    }
}

/// Returns an integer that is read or assigned to, with its value, `x 1`.
pub(crate) fn integer_text(
    alloc: Global,
    labels: &Labels,
    pick: Pick,
    x: u8,
    value: i64,
) -> Result<Vec<u8>, NoMemory>
    ensures { IfOk result (λ text. text.items ≡ spec.value_text (labels_view labels.now) pick.process x value) }
{
    let mut text = Vec::new(alloc);
    put_integer(&mut text, labels, usize::from(pick.process), usize::from(x))?;
    put_number(&mut text, b" ", value)?;
    Ok(text)
}

/// Returns an assignment with its arm, `P.a x := 1`.
pub(crate) fn assignment_line(
    alloc: Global,
    names: &Names,
    labels: &Labels,
    pick: Pick,
    x: u8,
    value: i64,
) -> Result<Vec<u8>, NoMemory>
    ensures { IfOk result (λ text. text.items ≡ spec.assignment_line (names_view names.now) (labels_view labels.now) pick x value) }
{
    let mut text = arm_text(alloc, names, pick)?;
    put(&mut text, b" ")?;
    put_integer(&mut text, labels, usize::from(pick.process), usize::from(x))?;
    put_number(&mut text, b" := ", value)?;
    Ok(text)
}

/// Returns a read with its arm, `P.a read x 1`.
pub(crate) fn read_line(
    alloc: Global,
    names: &Names,
    labels: &Labels,
    pick: Pick,
    x: u8,
    value: i64,
) -> Result<Vec<u8>, NoMemory>
    ensures { IfOk result (λ text. text.items ≡ spec.read_line (names_view names.now) (labels_view labels.now) pick x value) }
{
    let mut text = arm_text(alloc, names, pick)?;
    put(&mut text, b" read ")?;
    put_integer(&mut text, labels, usize::from(pick.process), usize::from(x))?;
    put_number(&mut text, b" ", value)?;
    Ok(text)
}

/// Returns what is written of what a pick shows, for which there is room.
pub(crate) fn caption_of(
    alloc: Global,
    names: &Names,
    labels: &Labels,
    pick: Pick,
    line: Option<u32>,
    what: &Happening,
) -> Result<Vec<u8>, NoMemory>
    ensures { IfOk result (λ text. text.items
        ≡ spec.caption_of (names_view names.now) (labels_view labels.now) pick line what.now) }
{
    match what {
        Happening::Did(event) => caption(alloc, names, line, event),
        Happening::Read { integer, value } => integer_text(alloc, labels, pick, *integer, *value),
        Happening::Assigned { integer, value } => {
            integer_text(alloc, labels, pick, *integer, *value)
        }
    }
}

/// Appends a comma and the name of a process to `text`.
fn put_listed(text: &mut Vec<u8>, names: &Names, p: u8) -> Result<(), NoMemory>
    ensures { OnOk result (text.new.items ≡ text.old.items ++ (codes ", " ++ name_of (names_view names.now).processes p)) }
{
    put(text, b", ")?;
    put_name(text, &names.processes, usize::from(p))
}

/// Returns `, P` for each of these processes.
fn listed(alloc: Global, names: &Names, rest: &[u8]) -> Result<Vec<u8>, NoMemory>
    ensures { IfOk result (λ text. text.items ≡ spec.listed_text (names_view names.now) rest.now) }
{
    let mut text = Vec::new(alloc);
    for i in 0..rest.len() {
        put_listed(&mut text, names, rest[i])?;
    }
    Ok(text)
}

/// Returns the names of these processes, with a comma between two.
fn names_text(alloc: Global, names: &Names, rest: &[u8]) -> Result<Vec<u8>, NoMemory>
    ensures { IfOk result (λ text. text.items ≡ spec.names_text (names_view names.now) rest.now) }
{
    let listed = listed(alloc, names, rest)?;
    let start = listed.len().min(2);
    let text = Vec::from_slice(alloc, &listed[start..])?;
    Ok(text)
}

/// Returns `P could not finish`, for these processes.
fn stuck_text(alloc: Global, names: &Names, rest: &[u8]) -> Result<Vec<u8>, NoMemory>
    ensures { IfOk result (λ text. text.items ≡ spec.stuck_text (names_view names.now) rest.now) }
{
    let mut text = names_text(alloc, names, rest)?;
    put(&mut text, b" could not finish")?;
    Ok(text)
}

/// Returns why an arm is kept back, `P.a kept back: Q could not finish`.
pub(crate) fn kept_text(
    alloc: Global,
    names: &Names,
    arm: Pick,
    rest: &[u8],
) -> Result<Vec<u8>, NoMemory>
    ensures { IfOk result (λ text. text.items ≡ spec.kept_text (names_view names.now) arm rest.now) }
{
    let stuck = stuck_text(alloc, names, rest)?;
    let mut text = arm_text(alloc, names, arm)?;
    put(&mut text, b" kept back: ")?;
    put(&mut text, &stuck)?;
    Ok(text)
}

/// Returns whether there is room for a text.
fn has_room(width: u64, text: &[u8]) -> bool
    ensures { result ≡ spec.has_room width text.now }
{
    text.len() as u64 <= width / SMALL_CHARACTER
}

/// Returns who could not finish, as far as there is room: in words, or the names alone, or nothing.
pub(crate) fn room_text(
    alloc: Global,
    names: &Names,
    width: u64,
    rest: &[u8],
) -> Result<Vec<u8>, NoMemory>
    ensures { IfOk result (λ text. text.items ≡ spec.room_text (names_view names.now) width rest.now) }
{
    let stuck = stuck_text(alloc, names, rest)?;
    if has_room(width, &stuck) {
        return Ok(stuck);
    }
    let who = names_text(alloc, names, rest)?;
    if has_room(width, &who) {
        return Ok(who);
    }
    Ok(Vec::new(alloc))
}

/// Returns `R of k`, a resource with its capital.
pub(crate) fn resource_text(
    alloc: Global,
    names: &Names,
    r: usize,
    capital: u32,
) -> Result<Vec<u8>, NoMemory>
    ensures { IfOk result (λ text. text.items ≡ spec.resource_text (names_view names.now) r capital) }
{
    let mut text = Vec::new(alloc);
    put_name(&mut text, &names.resources, r)?;
    put_number(&mut text, b" of ", capital)?;
    Ok(text)
}

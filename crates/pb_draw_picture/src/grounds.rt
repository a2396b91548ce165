//! The grounds of the stretches that are shortened, and what is said below a picture.

ghost use Rattle.std.specs.Prelude.{◌≡◌, ◌≤◌, ◌++◌, ◌^◌, IfOk, OnOk, cond, map};
ghost use Rattle.pb_draw_picture.specs.Grounds as spec;
ghost use Rattle.pb_draw_picture.specs.Shapes.{text_of};

use crate::captions::number_text;
use crate::knot::Knot;
use crate::picture::{Label, LabelKind, Rect, RectKind};
use crate::shapes::rect_to;
use crate::sizes::{
    GAP_TEXT, GAP_TOP, LEFT_OUT_DOWN, LINE_NOTE_DOWN, MARGIN, MARK_NOTE_DOWN, MAX_SILENT, NOTE_DOWN,
};
use pb_base::NoMemory;
use pb_draw::Integers;
use std::alloc::Global;

/// What is said below a picture: how time goes, what lines are, and what bars and marks are.
pub(crate) const NOTE: &[u8] =
    b"time goes from left to right, pick by pick, with the numbers of picks above. grey: shortened";

pub(crate) const LINE_NOTE: &[u8] =
    b"line: an arm. hatched: asks for more than is there. dotted: kept back, else those named could not finish";

pub(crate) const MARK_NOTE: &[u8] =
    b"bar: a hold. triangle: grant or return, circle: print, cross: fault, square: end, diamond: assigned, open: read";

/// What is said below it if reads, or reads and assignments, are left out.
pub(crate) const READS_NOTE: &[u8] =
    b"more than 100 picks assign to an integer or read one: reads are not drawn";

pub(crate) const INTEGERS_NOTE: &[u8] =
    b"more than 100 picks assign to an integer: assignments and reads are not drawn";

/// Adds the ground of the stretch after an event, if it is shortened.
fn add_gap(rects: &mut Vec<Rect>, knot: &Knot, bottom: u64) -> Result<(), NoMemory>
    ensures { OnOk result (rects.new.items ≡ rects.old.items ++ spec.gap_if_shortened bottom knot.now) }
{
    if knot.silent > MAX_SILENT {
        let height = bottom.saturating_sub(GAP_TOP);
        rects.push(rect_to(RectKind::Gap, knot.silent_x(), knot.end(), GAP_TOP, height))?;
    }
    Ok(())
}

/// Returns the grounds of the stretches that are shortened.
pub(crate) fn gaps_of(alloc: Global, knots: &[Knot], bottom: u64) -> Result<Vec<Rect>, NoMemory>
    ensures { IfOk result (λ rects. rects.items ≡ spec.gaps bottom knots.now) }
{
    let mut rects = Vec::new(alloc);
    for i in 0..knots.len() {
        add_gap(&mut rects, &knots[i], bottom)?;
    }
    Ok(rects)
}

/// Returns how many silent picks a stretch has.
fn silent_at(alloc: Global, knot: &Knot) -> Result<Label, NoMemory>
    ensures { IfOk result (λ l. text_of l ≡ spec.silent_at knot.now) }
{
    let text = number_text(alloc, knot.silent, b" silent")?;
    Ok(Label {
        kind: LabelKind::Silent,
        x: knot.silent_x(),
        y: GAP_TEXT,
        text,
    })
}

/// Adds how many silent picks the stretch after an event has, if it is shortened.
fn add_silent(alloc: Global, knot: &Knot, labels: &mut Vec<Label>) -> Result<(), NoMemory>
    ensures { OnOk result (map text_of labels.new.items ≡ map text_of labels.old.items ++ spec.silent_if_shortened knot.now) }
{
    if knot.silent > MAX_SILENT {
        let silent = silent_at(alloc, knot)?;
        labels.push(silent)?;
    }
    Ok(())
}

/// Returns how many silent picks each of these stretches has.
pub(crate) fn silents_of(alloc: Global, knots: &[Knot]) -> Result<Vec<Label>, NoMemory>
    ensures { IfOk result (λ labels. map text_of labels.items ≡ spec.silents knots.now) }
{
    let mut labels = Vec::new(alloc);
    for i in 0..knots.len() {
        add_silent(alloc, &knots[i], &mut labels)?;
    }
    Ok(labels)
}

/// Returns a text that is known.
fn note_at(alloc: Global, y: u64, text: &[u8]) -> Result<Label, NoMemory>
    ensures { IfOk result (λ l. text_of l ≡ record { kind = LabelKind.Note; x = MARGIN; y = y; text = text.now }) }
{
    Ok(Label {
        kind: LabelKind::Note,
        x: MARGIN,
        y,
        text: Vec::from_slice(alloc, text)?,
    })
}

/// Returns what is said of time.
fn time_note() -> &'static [u8]
    ensures { result.now ≡ spec.time_note }
{
    NOTE
}

/// Returns what is said of lines.
fn line_note() -> &'static [u8]
    ensures { result.now ≡ spec.line_note }
{
    LINE_NOTE
}

/// Returns what is said of bars and marks.
fn mark_note() -> &'static [u8]
    ensures { result.now ≡ spec.mark_note }
{
    MARK_NOTE
}

/// Returns what is said if reads are left out.
fn reads_note() -> &'static [u8]
    ensures { result.now ≡ spec.reads_note }
{
    READS_NOTE
}

/// Returns what is said if reads and assignments are left out.
fn integers_note() -> &'static [u8]
    ensures { result.now ≡ spec.integers_note }
{
    INTEGERS_NOTE
}

/// Returns what is said if reads are left out, and assignments are drawn or not.
fn left_out_note(assignments: bool) -> &'static [u8]
    ensures { result.now ≡ cond assignments spec.reads_note spec.integers_note }
{
    if assignments {
        reads_note()
    } else {
        integers_note()
    }
}

/// Adds what of the integers is left out, if something is.
fn add_left_out(
    alloc: Global,
    foot: u64,
    integers: Integers,
    labels: &mut Vec<Label>,
) -> Result<(), NoMemory>
    requires { foot ≤ 2 ^ 63 }
    ensures { OnOk result (map text_of labels.new.items ≡ map text_of labels.old.items ++ spec.left_out foot integers) }
{
    if integers.reads {
        return Ok(());
    }
    let words = left_out_note(integers.assignments);
    labels.push(note_at(alloc, foot + LEFT_OUT_DOWN, words)?)?;
    Ok(())
}

/// Adds what is said below a picture whose rows end at a height.
pub(crate) fn add_notes(
    alloc: Global,
    foot: u64,
    integers: Integers,
    labels: &mut Vec<Label>,
) -> Result<(), NoMemory>
    requires { foot ≤ 2 ^ 63 }
    ensures { OnOk result (map text_of labels.new.items ≡ map text_of labels.old.items ++ spec.notes foot integers) }
{
    labels.push(note_at(alloc, foot + NOTE_DOWN, time_note())?)?;
    labels.push(note_at(alloc, foot + LINE_NOTE_DOWN, line_note())?)?;
    labels.push(note_at(alloc, foot + MARK_NOTE_DOWN, mark_note())?)?;
    add_left_out(alloc, foot, integers, labels)
}

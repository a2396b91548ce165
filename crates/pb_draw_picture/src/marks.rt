//! The marks of events, reads and assignments, and the numbers of their picks.

ghost use Rattle.std.specs.Prelude.{◌≡◌, ◌≤◌, ◌++◌, ◌+◌, ◌^◌, [], All, IfOk, OnOk, length, map};
ghost use Rattle.pb_base.specs.Lines.{HasNames, names_view};
ghost use Rattle.pb_code.specs.View.{labels_view};
ghost use Rattle.pb_draw.specs.Marks.{IsNamed};
ghost use Rattle.pb_draw_picture.specs.Axis.{IsChain};
ghost use Rattle.pb_draw_picture.specs.Marks as spec;
ghost use Rattle.pb_draw_picture.specs.Places.{places_of};
ghost use Rattle.pb_draw_picture.specs.Shapes.{sign_of, text_of};
ghost use Rattle.std.specs.Fmt.{decimal};

use crate::captions::{assignment_line, integer_text, label_of, number_text, read_line};
use crate::grid::Grid;
use crate::picture::{Label, LabelKind, Tick, TickKind};
use crate::sizes::{LABEL_LEFT, LABEL_UP, MIDDLE, NUMBER_Y};
use pb_base::{Event, Names, NoMemory, Pick, event_line};
use pb_code::Labels;
use pb_draw::{Happening, Mark};
use std::alloc::Global;

/// Returns what an event is.
fn kind_of(event: &Event) -> TickKind
    ensures { result ≡ spec.kind_of event.now }
{
    match event {
        Event::Granted { .. } => TickKind::Grant,
        Event::Returned { .. } => TickKind::Return,
        Event::Printed { .. } => TickKind::Print,
        Event::Faulted { .. } => TickKind::Fault,
        Event::Finished { .. } => TickKind::End,
    }
}

/// Returns a mark at a place, with its title and with the text beside it.
fn mark_at(kind: TickKind, x: u64, y: u64, title: Vec<u8>, label: Vec<u8>) -> Tick
    ensures { sign_of result ≡ spec.sign_at kind x y title.items label.items }
{
    Tick {
        kind,
        x,
        y,
        title,
        label,
        label_x: x.saturating_sub(LABEL_LEFT),
        label_y: y.saturating_sub(LABEL_UP),
    }
}

/// Returns the mark of an event of a source line at a place.
fn event_at(
    alloc: Global,
    names: &Names,
    x: u64,
    y: u64,
    line: Option<u32>,
    event: &Event,
) -> Result<Tick, NoMemory>
    requires { HasNames (names_view names.now) event.now }
    ensures { IfOk result (λ t. sign_of t ≡ spec.event_at (names_view names.now) x y line event.now) }
{
    let title = event_line(alloc, names, event)?;
    let label = label_of(alloc, names, line, event)?;
    Ok(mark_at(kind_of(event), x, y, title, label))
}

/// Returns the mark of a read at a place.
fn read_at(
    alloc: Global,
    names: &Names,
    labels: &Labels,
    x: u64,
    y: u64,
    pick: Pick,
    integer: u8,
    value: i64,
) -> Result<Tick, NoMemory>
    ensures { IfOk result (λ t. sign_of t
        ≡ spec.read_at (names_view names.now) (labels_view labels.now) x y pick integer value) }
{
    let title = read_line(alloc, names, labels, pick, integer, value)?;
    let label = integer_text(alloc, labels, pick, integer, value)?;
    Ok(mark_at(TickKind::Read, x, y, title, label))
}

/// Returns the mark of an assignment at a place.
fn assign_at(
    alloc: Global,
    names: &Names,
    labels: &Labels,
    x: u64,
    y: u64,
    pick: Pick,
    integer: u8,
    value: i64,
) -> Result<Tick, NoMemory>
    ensures { IfOk result (λ t. sign_of t
        ≡ spec.assign_at (names_view names.now) (labels_view labels.now) x y pick integer value) }
{
    let title = assignment_line(alloc, names, labels, pick, integer, value)?;
    let label = integer_text(alloc, labels, pick, integer, value)?;
    Ok(mark_at(TickKind::Assign, x, y, title, label))
}

/// Returns the mark of what a pick shows, at a place.
fn mark_for(
    alloc: Global,
    names: &Names,
    labels: &Labels,
    x: u64,
    y: u64,
    mark: &Mark,
) -> Result<Tick, NoMemory>
    requires { IsNamed (names_view names.now) mark.now.what }
    ensures { IfOk result (λ t. sign_of t
        ≡ spec.sign_for (names_view names.now) (labels_view labels.now) x y mark.now.pick mark.now.line mark.now.what) }
{
    match &mark.what {
        Happening::Did(event) => event_at(alloc, names, x, y, mark.line, event),
        Happening::Read { integer, value } => {
            read_at(alloc, names, labels, x, y, mark.pick, *integer, *value)
        }
        Happening::Assigned { integer, value } => {
            assign_at(alloc, names, labels, x, y, mark.pick, *integer, *value)
        }
    }
}

/// Returns the position after the pick of a mark.
fn behind(mark: &Mark) -> u64
    ensures { result ≡ mark.now.at + 1 }
{
    u64::from(mark.at) + 1
}

/// Returns the marks of events, reads and assignments.
pub(crate) fn marks_of(
    alloc: Global,
    names: &Names,
    labels: &Labels,
    grid: &Grid,
    marks: &[Mark],
) -> Result<Vec<Tick>, NoMemory>
    requires chain { IsChain grid.now.knots.items }
    requires named { All (λ m. IsNamed (names_view names.now) m.what) marks.now }
    ensures { IfOk result (λ ticks. map sign_of ticks.items ≡ spec.signs (names_view names.now) (labels_view labels.now) (places_of grid.now) marks.now) }
{
    let mut ticks = Vec::new(alloc);
    for i in 0..marks.len() {
        let mark = &marks[i];
        let x = grid.x(behind(mark));
        let y = grid.line(mark.pick) + MIDDLE;
        let tick = mark_for(alloc, names, labels, x, y, mark)?;
        ticks.push(tick)?;
    }
    Ok(ticks)
}

/// Returns the number of a pick at a place.
fn number_at(alloc: Global, x: u64, number: u32) -> Result<Label, NoMemory>
    ensures { IfOk result (λ l. text_of l ≡ record { kind = LabelKind.Number; x = x; y = NUMBER_Y; text = decimal number }) }
{
    let text = number_text(alloc, u64::from(number), b"")?;
    Ok(Label {
        kind: LabelKind::Number,
        x,
        y: NUMBER_Y,
        text,
    })
}

/// Adds the numbers of the picks that show events.
pub(crate) fn add_numbers(
    alloc: Global,
    grid: &Grid,
    marks: &[Mark],
    labels: &mut Vec<Label>,
) -> Result<(), NoMemory>
    requires { IsChain grid.now.knots.items }
    ensures { OnOk result (map text_of labels.new.items ≡
        map text_of labels.old.items ++ spec.numbers (places_of grid.now) marks.now) }
{
    for i in 0..marks.len() {
        let mark = &marks[i];
        let number = number_at(alloc, grid.x(behind(mark)), mark.at)?;
        labels.push(number)?;
    }
    Ok(())
}

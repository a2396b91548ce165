//! What a run shows over its picks.

ghost use Rattle.std.specs.Prelude.{◌≡◌, ◌≤◌, ◌*◌, All, IfOk, length, map};
ghost use Rattle.pb_base.specs.declared.limits.TheConstants.{MAX_ARMS, MAX_PROCESSES};
ghost use Rattle.pb_code.specs.View.{labels_view};
ghost use Rattle.pb_draw.specs.Arms.{AreDifferent};
ghost use Rattle.pb_draw.specs.Bars.{AreNested};
ghost use Rattle.pb_draw.specs.Drawings.{IsDrawing};
ghost use Rattle.pb_draw.specs.Marks.{AreInOrder, IsNamed};
ghost use Rattle.pb_history.specs.Entries.{picks_of};
ghost use Rattle.pb_history.specs.Positions.{AreEnabledBy};

use crate::accesses::{accesses_of, integers_drawn};
use crate::bars::bars_of;
use crate::cash::cash_curves;
use crate::lanes::lanes_of;
use crate::marks::marks_of;
use pb_base::limits::MAX_PICKS;
use pb_base::{Bundle, Event, Lending, NoMemory, Pick};
use pb_code::Labels;
use pb_history::Trace;
use pb_verifier::Verified;
use std::alloc::Global;

/// What a pick shows.
#[derive(Clone, Copy)]
pub enum Happening {
    /// An event.
    Did(Event),
    /// An integer of its process, by its number, is read, and is this.
    Read { integer: u8, value: i64 },
    /// An integer of its process, by its number, is assigned to, and is this then.
    Assigned { integer: u8, value: i64 },
}

/// What of the integers is drawn.
#[derive(Clone, Copy)]
pub struct Integers {
    /// The picks that assign to one.
    pub assignments: bool,
    /// The picks that read one.
    pub reads: bool,
}

/// What a pick shows, the number of that pick, counted from 0, and the source line of its arm before it, if the place
/// there has one.
#[derive(Clone, Copy)]
pub struct Mark {
    pub at: u32,
    pub pick: Pick,
    pub what: Happening,
    pub line: Option<u32>,
}

/// A hold of an arm, with the number of the pick that takes it and that of the pick that gives it back, if
/// one does, and the number of holds of the arm that are open when it is taken.
#[derive(Clone, Copy)]
pub struct Bar {
    pub pick: Pick,
    pub bundle: Bundle,
    pub taken: u32,
    pub returned: Option<u32>,
    pub depth: u32,
}

/// The state of an arm.
#[derive(Drop)]
pub enum Standing {
    /// It is not live.
    Away,
    /// It is live, and does not wait for a request.
    Going,
    /// It asks for more of a resource than there is cash of it.
    Short,
    /// The cash suffices for what it asks for, and the banker keeps it back: with that lent, these processes, by
    /// their numbers, could not finish.
    KeptBack(Vec<u8>),
}

/// The state of an arm from a position on.
#[derive(Drop)]
pub struct LaneStep {
    pub at: u32,
    pub standing: Standing,
}

/// The state of an arm at each position.
#[derive(Drop)]
pub struct Lane {
    pub pick: Pick,
    pub steps: Vec<LaneStep>,
}

/// The cash from a position on.
#[derive(Clone, Copy)]
pub struct CashStep {
    pub at: u32,
    pub cash: u32,
}

/// The cash of a resource at each position.
#[derive(Drop)]
pub struct CashCurve {
    pub steps: Vec<CashStep>,
}

/// What a run shows over its picks. Position i is after the first i picks.
#[derive(Drop)]
pub struct Drawing {
    /// How many picks there are, at most 10,000,000.
    pub picks: u32,
    /// How many picks assign to an integer.
    pub assignments: u32,
    /// How many picks read an integer.
    pub reads: u32,
    /// Which of these are few enough to be drawn.
    pub integers: Integers,
    /// Each event, and each assignment and each read if these are drawn, in the order of the picks.
    pub marks: Vec<Mark>,
    /// Each hold, in the order in which they begin.
    pub bars: Vec<Bar>,
    /// Each arm of each process, process by process.
    pub lanes: Vec<Lane>,
    /// Each resource, by its number.
    pub curves: Vec<CashCurve>,
}

/// Returns what the run with this trace shows over its picks, with the source lines that the labels of the code tell.
/// The trace is of a replay of the code under this lending.
pub fn draw(
    alloc: Global,
    verified: &Verified,
    labels: &Labels,
    lending: Lending,
    trace: &Trace,
) -> Result<Drawing, NoMemory>
    requires enabled { AreEnabledBy lending verified.now.code (picks_of trace.now.entries) }
    requires few { length trace.now.entries ≤ MAX_PICKS }
    ensures drawing { IfOk result (IsDrawing lending verified.now.code (labels_view labels.now) (picks_of trace.now.entries)) }
    ensures named { IfOk result (λ d. All (λ m. IsNamed verified.now.code.names m.what) d.marks.items) }
    ensures ordered { IfOk result (λ d. AreInOrder d.marks.items) }
    ensures nested { IfOk result (λ d. AreNested d.bars.items) }
    ensures different { IfOk result (λ d. AreDifferent (map (λ lane. lane.pick) d.lanes.items)) }
    ensures rows { IfOk result (λ d. length d.lanes.items ≤ MAX_PROCESSES * MAX_ARMS) }
    ensures curves { IfOk result (λ d. length d.curves.items ≡ length verified.now.code.capital) }
{
    // Called for its contract alone, which the proof needs.
    let _ = verified.code();
    let picks = trace.len();
    let counts = accesses_of(alloc, verified, lending, trace)?;
    let integers = integers_drawn(counts.assignments, counts.reads);
    let marks = marks_of(alloc, verified, labels, lending, integers, trace)?;
    let bars = bars_of(alloc, marks.as_slice())?;
    let lanes = lanes_of(alloc, verified, lending, trace)?;
    let curves = cash_curves(alloc, verified, lending, trace)?;
    Ok(Drawing {
        picks,
        assignments: counts.assignments,
        reads: counts.reads,
        integers,
        marks,
        bars,
        lanes,
        curves,
    })
}

//! Time, from left to right.

ghost use Rattle.std.specs.Prelude.{◌≡◌, ◌≤◌, ◌<◌, ◌+◌, ◌-◌, ◌*◌, ◌^◌, IfOk};
ghost use Rattle.pb_base.specs.Lines.{names_view};
ghost use Rattle.pb_code.specs.View.{labels_view};
ghost use Rattle.pb_draw_picture.specs.Axis as spec;

use crate::captions::{caption_of, number_text};
use crate::knot::{Knot, Start};
use crate::sizes::{CHARACTER, MAX_CHARACTERS, MAX_SILENT, SIDE, SILENT, START};
use pb_base::{Names, NoMemory};
use pb_code::Labels;
use pb_draw::Mark;
use std::alloc::Global;

/// Returns how wide the first of some silent picks are.
#[tactic(auto, using(crate::proofs::AxisLemmas::squeezed_few))]
fn squeezed(picks: u64, of: u64) -> u64
    requires { of ≤ 2 ^ 33 }
    ensures width { result ≡ spec.squeezed picks of }
    ensures few { result ≤ 90 }
{
    if of <= MAX_SILENT {
        picks.min(of) * SILENT
    } else {
        picks.min(of) * (MAX_SILENT * SILENT) / of
    }
}

impl Knot {
    /// Returns where the silent picks after the event begin.
    pub(crate) fn silent_x(&self) -> u64
        ensures { result ≡ self.now.x + self.now.width }
    {
        self.x + self.width
    }

    /// Returns where the next event begins, or where the picture ends.
    pub(crate) fn end(&self) -> u64
        ensures x { result ≡ self.now.x + self.now.width + spec.squeezed self.now.silent self.now.silent }
        ensures near { result ≤ self.now.x + self.now.width + 90 }
    {
        self.silent_x() + squeezed(self.silent, self.silent)
    }

    /// Returns where a position begins that is at the event, or among the silent picks after it.
    fn x_in(&self, position: u64) -> u64
        ensures x { result ≡ spec.x_in self.now position }
        ensures near { result ≤ 2 ^ 44 }
    {
        if position <= self.position {
            return self.x;
        }
        self.silent_x() + squeezed(position - self.position - 1, self.silent)
    }
}

/// Returns how wide the pick of an event is.
fn width_of(alloc: Global, names: &Names, labels: &Labels, mark: &Mark) -> Result<u64, NoMemory>
    ensures width { IfOk result (λ width. width ≡ spec.width_of (names_view names.now) (labels_view labels.now) mark.now) }
    ensures wide { IfOk result (λ width. SIDE ≤ width) }
    ensures narrow { IfOk result (λ width. width ≤ 900) }
{
    let said = caption_of(alloc, names, labels, mark.pick, mark.line, &mark.what)?;
    let number = number_text(alloc, u64::from(mark.at), b"")?;
    let characters = said.len().max(number.len()) as u64;
    Ok(SIDE + characters.min(MAX_CHARACTERS) * CHARACTER)
}

/// Returns the knot that begins here, if the next event is at a position, or the run ends before it.
fn knot_to(start: Start, next: u64) -> Knot
    requires behind { start.position < next }
    requires early { next ≤ 2 ^ 32 + 1 }
    ensures position { result.position ≡ start.position }
    ensures x { result.x ≡ start.x }
    ensures width { result.width ≡ start.width }
    ensures silent { result.silent ≡ next - start.position - 1 }
    ensures near { result.x + result.width + 90 ≤ 1000 + 1000 * next }
{
    Knot {
        position: start.position,
        x: start.x,
        width: start.width,
        silent: next - start.position - 1,
    }
}

/// Returns the start after a knot, at the position of the next event.
fn start_at(knot: &Knot, position: u64, width: u64) -> Start
    requires near { knot.now.x + knot.now.width + 90 ≤ 1000 + 1000 * position }
    requires early { position ≤ 2 ^ 32 }
    requires wide { SIDE ≤ width }
    requires narrow { width ≤ 900 }
    ensures position { result.position ≡ position }
    ensures x { result.x ≡ knot.now.x + knot.now.width + spec.squeezed knot.now.silent knot.now.silent }
    ensures width { result.width ≡ width }
{
    Start {
        position,
        x: knot.end(),
        width,
    }
}

/// Returns the start of a run, at the left of its time.
fn first_start(left: u64) -> Start
    requires { left ≤ 1000 }
    ensures position { result.position ≡ 0 }
    ensures x { result.x ≡ left }
    ensures width { result.width ≡ 48 }
{
    Start {
        position: 0,
        x: left,
        width: START,
    }
}

/// Returns the axis of these events, of a run of `picks` picks. `left` is where it begins.
#[tactic(auto, using(crate::proofs::AxisSteps::so_far_start, crate::proofs::AxisSteps::so_far_push, crate::proofs::AxisSteps::so_far_skip, crate::proofs::AxisSteps::so_far_chain, crate::proofs::AxisSteps::so_far_axis))]
pub(crate) fn axis_of(
    alloc: Global,
    names: &Names,
    labels: &Labels,
    marks: &[Mark],
    picks: u32,
    left: u64,
) -> Result<Vec<Knot>, NoMemory>
    requires { left ≤ 1000 }
    ensures knots { IfOk result (λ knots. spec.AreKnots (names_view names.now) (labels_view labels.now) picks left marks.now knots.items) }
    ensures chain { IfOk result (λ knots. spec.IsChain knots.items) }
    ensures axis { IfOk result (λ knots. spec.IsAxis marks.now (spec.x_at knots.items)) }
{
    let mut knots = Vec::new(alloc);
    let mut start = first_start(left);
    for mark in marks {
        let next = u64::from(mark.at) + 1;
        if start.position < next {
            let knot = knot_to(start, next);
            knots.push(knot)?;
            start = start_at(&knot, next, width_of(alloc, names, labels, mark)?);
        }
    }
    let end = u64::from(picks).max(start.position) + 1;
    knots.push(knot_to(start, end))?;
    Ok(knots)
}

/// Returns where a position begins. The knot of its event is found by halving.
#[tactic(auto, using(crate::proofs::AxisLemmas::axis_at, crate::proofs::AxisLemmas::axis_none))]
pub(crate) fn x_of(knots: &[Knot], position: u64) -> u64
    requires { spec.IsChain knots.now }
    ensures x { result ≡ spec.x_at knots.now position }
    ensures near { result ≤ 2 ^ 44 }
{
    let mut low = 0;
    let mut high = knots.len();
    while low < high {
        let mid = low + (high - low) / 2;
        if knots[mid].position <= position {
            low = mid + 1;
        } else {
            high = mid;
        }
    }
    if low == 0 {
        return 0;
    }
    knots[low - 1].x_in(position)
}

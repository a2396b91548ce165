//! The holds of a run.

ghost use Rattle.std.specs.Prelude.{◌≡◌, ◌≤◌, ◌+◌, [], ◌∷◌, ◌++◌, ℕ, cond, IfOk, IfSome, OnOk, if◌then◌else◌, length, option_to_list};
ghost use Rattle.pb_draw.specs.Bars as spec;
ghost use Rattle.pb_draw.specs.Marks.{AreInOrder};
ghost use Rattle.pb_history.specs.Entries.{are_same};

use crate::accesses::one_more;
use crate::drawing::{Bar, Happening, Mark};
use pb_base::limits::MAX_PICKS;
use pb_base::{Event, NoMemory, Pick};
use std::alloc::Global;

/// What an event is to the last hold of an arm.
#[derive(Clone, Copy)]
pub(crate) enum Turn {
    /// The arm has another hold inside it.
    Opens,
    /// The arm gives its last hold back.
    Closes,
    /// The process faults, and gives all its holds back.
    Breaks,
    Other,
}

/// Returns whether both are of one arm of one process.
fn is_arm(a: Pick, b: Pick) -> bool
    ensures { result ≡ are_same a b }
{
    a.process == b.process && a.arm == b.arm
}

/// Returns this, or `Other`.
fn turn_if(holds: bool, turn: Turn) -> Turn
    ensures { result ≡ (if holds then turn else Turn.Other) }
{
    if holds { turn } else { Turn::Other }
}

/// Returns what an event is to the last hold of an arm.
fn turn_of(pick: Pick, event: &Event) -> Turn
    ensures { result ≡ spec.hold_turn pick event.now }
{
    match event {
        Event::Granted { pick: by, .. } => turn_if(is_arm(pick, *by), Turn::Opens),
        Event::Returned { pick: by, .. } => turn_if(is_arm(pick, *by), Turn::Closes),
        Event::Printed { .. } => Turn::Other,
        Event::Faulted { pick: by, .. } => turn_if(pick.process == by.process, Turn::Breaks),
        Event::Finished { .. } => Turn::Other,
    }
}

/// Returns what a pick shows is to the last hold of an arm.
fn turn_in(pick: Pick, what: &Happening) -> Turn
    ensures { result ≡ spec.turn_in pick what.now }
{
    match what {
        Happening::Did(event) => turn_of(pick, event),
        Happening::Read { .. } => Turn::Other,
        Happening::Assigned { .. } => Turn::Other,
    }
}

/// Returns the number of the pick by which an arm gives back a hold that it has before these marks, if one
/// does.
fn given_back(pick: Pick, marks: &[Mark]) -> Option<u32>
    ensures { result ≡ spec.given_back pick 0 marks.now }
{
    let mut inner: usize = 0;
    for mark in marks {
        match turn_in(pick, &mark.what) {
            Turn::Opens => inner += 1,
            Turn::Closes => {
                if inner == 0 {
                    return Some(mark.at);
                }
                inner -= 1;
            }
            Turn::Breaks => return Some(mark.at),
            Turn::Other => {}
        }
    }
    None
}

/// Returns whether a pick is before the one that gives a hold back, if one does.
fn is_before(at: u32, returned: Option<u32>) -> bool
    ensures { result ≡ spec.is_before at returned }
{
    match returned {
        None => true,
        Some(returned) => at < returned,
    }
}

/// Returns whether a hold is of an arm and open at a pick.
fn is_open(pick: Pick, at: u32, bar: &Bar) -> bool
    ensures { result ≡ spec.is_open pick at bar.now }
{
    is_arm(bar.pick, pick) && is_before(at, bar.returned)
}

/// Returns how many of these holds are of an arm and open at a pick.
fn open_holds(pick: Pick, at: u32, bars: &[Bar]) -> u32
    requires { length bars.now ≤ MAX_PICKS }
    ensures { result ≡ spec.open_holds pick at bars.now }
{
    let mut holds: u32 = 0;
    for bar in bars {
        holds = one_more(holds, is_open(pick, at, bar));
    }
    holds
}

/// Returns the bar of an event of a pick, in these holds and before these further marks: a grant has one.
fn bar_of(held: &[Bar], at: u32, event: Event, later: &[Mark]) -> Option<Bar>
    requires { length held.now ≤ MAX_PICKS }
    ensures bar { option_to_list result ≡ spec.bar_of held.now at event later.now }
    ensures taken { IfSome result (λ b. b.taken ≡ at) }
{
    match event {
        Event::Granted { pick, bundle } => Some(Bar {
            pick,
            bundle,
            taken: at,
            returned: given_back(pick, later),
            depth: open_holds(pick, at, held),
        }),
        Event::Returned { .. } => None,
        Event::Printed { .. } => None,
        Event::Faulted { .. } => None,
        Event::Finished { .. } => None,
    }
}

/// Returns the bar of a mark, in these holds and before these further marks: a read and an assignment have none.
fn bar_for(held: &[Bar], mark: &Mark, later: &[Mark]) -> Option<Bar>
    requires { length held.now ≤ MAX_PICKS }
    ensures bar { option_to_list result ≡ spec.bar_for held.now mark.now.at mark.now.what later.now }
    ensures taken { IfSome result (λ b. b.taken ≡ mark.now.at) }
{
    match mark.what {
        Happening::Did(event) => bar_of(held, mark.at, event, later),
        Happening::Read { .. } => None,
        Happening::Assigned { .. } => None,
    }
}

/// Adds a bar if it is so.
fn add_if(bars: &mut Vec<Bar>, is_so: bool, bar: Bar) -> Result<(), NoMemory>
    ensures { OnOk result (bars.new.items ≡ bars.old.items ++ cond is_so (bar ∷ []) []) }
{
    if is_so {
        bars.push(bar)?;
    }
    Ok(())
}

/// Returns those of these holds that are not given back up to a pick.
fn still_open(alloc: Global, held: &[Bar], at: u32) -> Result<Vec<Bar>, NoMemory>
    ensures few { IfOk result (λ still. length still.items ≤ length held.now) }
    ensures same { IfOk result (λ still. (arm : Pick) (t : ℕ) → at ≤ t
        → spec.open_holds arm t still.items ≡ spec.open_holds arm t held.now) }
{
    let mut still = Vec::new(alloc);
    for bar in held {
        add_if(&mut still, is_before(at, bar.returned), *bar)?;
    }
    Ok(still)
}

/// Returns those of these holds that are open at the pick of a bar, and that bar.
fn held_with(alloc: Global, held: &[Bar], bar: &Bar) -> Result<Vec<Bar>, NoMemory>
    ensures few { IfOk result (λ now. length now.items ≤ length held.now + 1) }
    ensures counted { IfOk result (λ now. (arm : Pick) (t : ℕ) → bar.now.taken ≤ t
        → spec.open_holds arm t now.items ≡ spec.open_holds arm t held.now + spec.open_holds arm t (bar.now ∷ [])) }
{
    let mut still = still_open(alloc, held, bar.taken)?;
    still.push(*bar)?;
    Ok(still)
}

/// Returns the same if there is a bar, and else these holds.
fn held_behind(alloc: Global, held: Vec<Bar>, bar: &Option<Bar>) -> Result<Vec<Bar>, NoMemory>
    ensures few { IfOk result (λ now. length now.items ≤ length held.items + 1) }
    ensures counted { IfOk result (λ now. (arm : Pick) (t : ℕ) → IfSome bar.now (λ b. b.taken ≤ t)
        → spec.open_holds arm t now.items ≡ spec.open_holds arm t held.items + spec.open_holds arm t (option_to_list bar.now)) }
{
    match bar {
        Some(bar) => held_with(alloc, held.as_slice(), bar),
        None => Ok(held),
    }
}

/// Adds a bar, if there is one.
fn add_bar(bars: &mut Vec<Bar>, bar: Option<Bar>) -> Result<(), NoMemory>
    ensures { OnOk result (bars.new.items ≡ bars.old.items ++ option_to_list bar) }
{
    if let Some(bar) = bar {
        bars.push(bar)?;
    }
    Ok(())
}

/// Returns a bar for each grant, up to where it is given back, with how deep it is in other holds of its arm. The marks are in
/// the order of their picks.
pub(crate) fn bars_of(alloc: Global, marks: &[Mark]) -> Result<Vec<Bar>, NoMemory>
    requires ordered { AreInOrder marks.now }
    requires few { length marks.now ≤ MAX_PICKS }
    ensures { IfOk result (λ bars. bars.items ≡ spec.bars_of marks.now) }
{
    let mut bars = Vec::new(alloc);
    let mut held = Vec::new(alloc);
    for i in 0..marks.len() {
        let bar = bar_for(held.as_slice(), &marks[i], &marks[i + 1..]);
        held = held_behind(alloc, held, &bar)?;
        add_bar(&mut bars, bar)?;
    }
    Ok(bars)
}

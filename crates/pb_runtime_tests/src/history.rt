//! Traces, and picks that are made again.

ghost use Rattle.std.specs.Prelude.{◌≤◌, length};
ghost use Rattle.pb_history.specs.Replays.{spread};

use crate::codes::{DEVICES, INCREMENTS, PRINT, verified};
use pb_base::limits::MAX_PICKS;
use pb_base::{Bundle, Event, Lending, NoMemory, Pick};
use pb_history::replay::{repeat, replay, replay_by, replay_counted, replay_counted_by};
use pb_history::{CountedPick, ReplayFault, Span, Trace};
use pb_machine::Machine;
use pb_verifier::Verified;
use std::alloc::Global;

/// Adds a pick, if the trace is not full.
fn add(trace: &mut Trace, pick: Pick, event: Option<Event>) -> Result<(), NoMemory> {
    if trace.len() < MAX_PICKS {
        trace.push(pick, event)?;
    }
    Ok(())
}

/// Adds silent picks, if the trace has room for them.
fn add_many(trace: &mut Trace, pick: Pick, count: u32) -> Result<(), NoMemory> {
    let len = trace.len();
    if len <= MAX_PICKS && count <= MAX_PICKS - len {
        trace.push_many(pick, count)?;
    }
    Ok(())
}

/// Adds silent picks and a print, if the trace has room for them.
fn add_run(trace: &mut Trace, pick: Pick, silent: u32, value: i64) -> Result<(), NoMemory> {
    let len = trace.len();
    trace.reserve(1)?;
    if len < MAX_PICKS && silent < MAX_PICKS - len {
        trace.push_run(pick, silent, Some(Event::Printed { pick, value }));
    }
    Ok(())
}

fn pick_at(trace: &Trace, i: u32) -> Option<Pick> {
    if i < trace.len() {
        Some(trace.pick(i))
    } else {
        None
    }
}

fn span_at(trace: &Trace, i: usize) -> Option<Span> {
    if i < trace.spans_len() {
        Some(trace.span(i))
    } else {
        None
    }
}

/// Returns how many picks the span of this pick has from it on, and of which arm, if there is such a pick.
fn rest_at(trace: &Trace, i: u32) -> Option<CountedPick> {
    if i < trace.len() {
        Some(trace.rest_of_span(i))
    } else {
        None
    }
}

/// Returns the number that the event with this number prints.
fn printed(trace: &Trace, i: usize) -> Option<i64> {
    if i >= trace.events_len() {
        return None;
    }
    match trace.event(i) {
        Event::Printed { value, .. } => Some(value),
        _ => None,
    }
}

/// Returns the first amount that the event with this number grants.
fn granted(trace: &Trace, i: usize) -> Option<u32> {
    if i >= trace.events_len() {
        return None;
    }
    match trace.event(i) {
        Event::Granted { bundle, .. } => Some(bundle.get(0).amount),
        _ => None,
    }
}

const PARENT: Pick = Pick { process: 0, arm: 0 };

const OTHER: Pick = Pick { process: 1, arm: 0 };

const FIRST: Pick = Pick { process: 0, arm: 1 };

const SECOND: Pick = Pick { process: 0, arm: 2 };

const THIRD: Pick = Pick { process: 1, arm: 2 };

/// Adds more than 5,000,000 picks of three arms.
fn add_long(trace: &mut Trace) -> Result<(), NoMemory> {
    add_many(trace, FIRST, 5_000_000)?;
    add_many(trace, FIRST, 0)?;
    add(trace, FIRST, None)?;
    add_run(trace, FIRST, 2, 7)?;
    add(trace, FIRST, None)?;
    add(trace, SECOND, None)?;
    let bundle = Bundle::one(3, 40);
    add(
        trace,
        THIRD,
        Some(Event::Granted {
            pick: THIRD,
            bundle,
        }),
    )
}

/// Returns a trace of these picks.
fn long(alloc: Global) -> Result<Trace, NoMemory> {
    let mut trace = Trace::new(alloc);
    add_long(&mut trace)?;
    Ok(trace)
}

/// Returns whether silent picks of an arm, and its pick that shows, are one span, and others are apart.
fn spans_are_right(trace: &Trace) -> bool {
    let first = Span {
        pick: FIRST,
        count: 5_000_004,
        shows: true,
    };
    let second = Span {
        pick: FIRST,
        count: 1,
        shows: false,
    };
    let third = Span {
        pick: SECOND,
        count: 1,
        shows: false,
    };
    let fourth = Span {
        pick: THIRD,
        count: 1,
        shows: true,
    };
    trace.spans_len() == 4
        && span_at(trace, 0) == Some(first)
        && span_at(trace, 1) == Some(second)
        && span_at(trace, 2) == Some(third)
        && span_at(trace, 3) == Some(fourth)
}

/// Returns whether the picks and events are where they were added.
fn picks_are_right(trace: &Trace) -> bool {
    trace.len() == 5_000_007
        && pick_at(trace, 5_000_004) == Some(FIRST)
        && pick_at(trace, 5_000_005) == Some(SECOND)
        && pick_at(trace, 5_000_006) == Some(THIRD)
        && trace.events_len() == 2
        && printed(trace, 0) == Some(7)
        && granted(trace, 1) == Some(40)
}

/// Returns a pick of an arm, made this often.
const fn times(pick: Pick, count: u32) -> CountedPick {
    CountedPick { pick, count }
}

/// Returns whether the rest of a span is found at its first pick, within it, and at its last.
fn rests_are_right(trace: &Trace) -> bool {
    rest_at(trace, 0) == Some(times(FIRST, 5_000_004))
        && rest_at(trace, 5_000_001) == Some(times(FIRST, 3))
        && rest_at(trace, 5_000_003) == Some(times(FIRST, 1))
        && rest_at(trace, 5_000_004) == Some(times(FIRST, 1))
        && rest_at(trace, 5_000_006) == Some(times(THIRD, 1))
        && rest_at(trace, 5_000_007) == None
}

#[test]
fn spans_of_a_trace(rt: HostRuntime) {
    let Ok(trace) = long(rt.alloc()) else {
        panic!(rt; "no trace")
    };
    assert!(rt; spans_are_right(&trace));
    assert!(rt; picks_are_right(&trace));
    assert!(rt; rests_are_right(&trace));
}

/// Returns two silent picks of an arm and one that prints, for which room was asked for before.
fn in_room(alloc: Global) -> Result<Trace, NoMemory> {
    let mut trace = Trace::new(alloc);
    trace.reserve(2)?;
    trace.push_silent(SECOND, 2);
    trace.push_shown(
        SECOND,
        Event::Printed {
            pick: SECOND,
            value: 5,
        },
    );
    Ok(trace)
}

/// Returns whether these are the three picks of one span, the last of which prints 5.
fn is_in_room(trace: &Trace) -> bool {
    let span = Span {
        pick: SECOND,
        count: 3,
        shows: true,
    };
    trace.len() == 3 && span_at(trace, 0) == Some(span) && printed(trace, 0) == Some(5)
}

#[test]
fn picks_that_have_room(rt: HostRuntime) {
    let Ok(trace) = in_room(rt.alloc()) else {
        panic!(rt; "no trace")
    };
    assert!(rt; is_in_room(&trace));
}

/// Returns how many picks a trace has after the first arm was picked this often from the start.
fn repeated(alloc: Global, code: &Verified, count: u32) -> Result<u32, ReplayFault>
    requires { count ≤ 10000000 }
{
    let mut machine = Machine::new(alloc, code)?;
    let mut trace = Trace::new(alloc);
    let pick = PARENT;
    repeat(code, &mut machine, &mut trace, CountedPick { pick, count })?;
    Ok(trace.len())
}

#[test]
fn a_pick_that_is_repeated(rt: HostRuntime) {
    let Some(code) = verified(rt.alloc(), PRINT) else {
        panic!(rt; "no code")
    };
    assert!(rt; repeated(rt.alloc(), &code, 3).ok() == Some(3));
    assert!(rt; repeated(rt.alloc(), &code, 4).err() == Some(ReplayFault::NotEnabled(3)));
}

/// Returns what the first print of this code prints when it ends with these picks, of which there are
/// `count`.
fn printed_after(alloc: Global, code: &Verified, picks: &[CountedPick], count: u32) -> Option<i64>
    requires { length (spread picks.now) ≤ 10000000 }
{
    match replay_counted(alloc, code, picks) {
        Ok((machine, trace)) => {
            if machine.finished() && trace.len() == count {
                printed(&trace, 0)
            } else {
                None
            }
        }
        Err(_) => None,
    }
}

#[test]
fn a_lost_update(rt: HostRuntime) {
    let Some(code) = verified(rt.alloc(), INCREMENTS) else {
        panic!(rt; "no code")
    };
    // the first arm loads, the second adds its 1, and the first stores over it
    let lost = [
        CountedPick {
            pick: PARENT,
            count: 1,
        },
        CountedPick {
            pick: FIRST,
            count: 1,
        },
        CountedPick {
            pick: SECOND,
            count: 5,
        },
        CountedPick {
            pick: FIRST,
            count: 4,
        },
        CountedPick {
            pick: PARENT,
            count: 4,
        },
    ];
    assert!(rt; printed_after(rt.alloc(), &code, &lost, 15) == Some(1));
}

#[test]
fn a_kept_update(rt: HostRuntime) {
    let Some(code) = verified(rt.alloc(), INCREMENTS) else {
        panic!(rt; "no code")
    };
    let kept = [
        CountedPick {
            pick: PARENT,
            count: 1,
        },
        CountedPick {
            pick: FIRST,
            count: 5,
        },
        CountedPick {
            pick: SECOND,
            count: 5,
        },
        CountedPick {
            pick: PARENT,
            count: 4,
        },
    ];
    assert!(rt; printed_after(rt.alloc(), &code, &kept, 15) == Some(2));
}

#[test]
fn a_pick_that_is_not_enabled(rt: HostRuntime) {
    let Some(code) = verified(rt.alloc(), DEVICES) else {
        panic!(rt; "no code")
    };
    // the second process may not take the disk after the first took the tape
    let picks = [Pick { process: 0, arm: 0 }, Pick { process: 1, arm: 0 }];
    let refused = match replay(rt.alloc(), &code, &picks) {
        Ok(_) => None,
        Err(fault) => Some(fault),
    };
    assert!(rt; refused == Some(ReplayFault::NotEnabled(1)));
}

/// Returns how many of these picks are made under a lending, if all are, and the machine lends so.
fn made_by(
    alloc: Global,
    code: &Verified,
    lending: Lending,
    picks: &[Pick],
) -> Result<u32, ReplayFault>
    requires { length picks.now ≤ 10000000 }
{
    match replay_by(alloc, code, lending, picks) {
        Ok((machine, trace)) => Ok(if machine.lending() == lending {
            trace.len()
        } else {
            0
        }),
        Err(fault) => Err(fault),
    }
}

/// Returns the same of counted picks.
fn counted_by(
    alloc: Global,
    code: &Verified,
    lending: Lending,
    picks: &[CountedPick],
) -> Result<u32, ReplayFault>
    requires { length (spread picks.now) ≤ 10000000 }
{
    match replay_counted_by(alloc, code, lending, picks) {
        Ok((machine, trace)) => Ok(if machine.lending() == lending {
            trace.len()
        } else {
            0
        }),
        Err(fault) => Err(fault),
    }
}

#[test]
fn a_deadlock_under_a_till(rt: HostRuntime) {
    let Some(code) = verified(rt.alloc(), DEVICES) else {
        panic!(rt; "no code")
    };
    // each process takes a device, which the banker prevents, and then neither gets the device of the other
    let made = [PARENT, OTHER];
    assert!(rt; made_by(rt.alloc(), &code, Lending::ByCash, &made).ok() == Some(2));
    let prevented = made_by(rt.alloc(), &code, Lending::ByBanker, &made).err();
    assert!(rt; prevented == Some(ReplayFault::NotEnabled(1)));
    let first = made_by(rt.alloc(), &code, Lending::ByCash, &[PARENT, OTHER, PARENT]).err();
    assert!(rt; first == Some(ReplayFault::NotEnabled(2)));
    let second = made_by(rt.alloc(), &code, Lending::ByCash, &[PARENT, OTHER, OTHER]).err();
    assert!(rt; second == Some(ReplayFault::NotEnabled(2)));
}

#[test]
fn a_deadlock_under_a_till_by_counted_picks(rt: HostRuntime) {
    let Some(code) = verified(rt.alloc(), DEVICES) else {
        panic!(rt; "no code")
    };
    let both = [
        CountedPick {
            pick: PARENT,
            count: 1,
        },
        CountedPick {
            pick: OTHER,
            count: 1,
        },
    ];
    let made = counted_by(rt.alloc(), &code, Lending::ByCash, &both);
    assert!(rt; made.ok() == Some(2));
    let made = counted_by(rt.alloc(), &code, Lending::ByBanker, &both);
    assert!(rt; made.err() == Some(ReplayFault::NotEnabled(1)));
    let more = [
        CountedPick {
            pick: PARENT,
            count: 1,
        },
        CountedPick {
            pick: OTHER,
            count: 2,
        },
    ];
    let made = counted_by(rt.alloc(), &code, Lending::ByCash, &more);
    assert!(rt; made.err() == Some(ReplayFault::NotEnabled(2)));
}

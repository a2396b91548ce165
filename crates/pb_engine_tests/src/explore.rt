//! The search for every outcome and deadlock of small texts.

use pb_base::Lending;
use pb_codegen::compile;
use pb_search::explore::{explore, explore_by};
use pb_search::{
    Deadlock, Extent, Found, Outcomes, ProcessOutcome, StuckProcess, StuckState, Until,
};
use pb_search_stages::Mode;
use std::alloc::Global;

/// A text of one process, all its outcomes, each by the only integer of the process and whether it faulted,
/// and whether some run never ends.
struct Case {
    text: &'static [u8],
    outcomes: &'static [(i64, bool)],
    cycles: bool,
}

/// A lost update; a fault that one order of two arms has and another has not; a run that never ends; a loop
/// that ends; a loop that waits for another arm; an arm that never ends beside one that faults; a store of an
/// integer that no other arm has, beside an arm that faults.
const CASES: [Case; 7] = [
    Case {
        text: b"process p begin integer x; parbegin x := x + 1; x := x + 1 parend end",
        outcomes: &[(1, false), (2, false)],
        cycles: false,
    },
    Case {
        text: b"process p begin integer x; parbegin print 1 div x; x := 1 parend end",
        outcomes: &[(0, true), (1, true), (1, false)],
        cycles: false,
    },
    Case {
        text: b"process p begin integer x; while 1 do x := 0 od end",
        outcomes: &[],
        cycles: true,
    },
    Case {
        text: b"process p begin integer x; while x < 3 do x := x + 1 od end",
        outcomes: &[(3, false)],
        cycles: false,
    },
    Case {
        text: b"process p begin integer x; parbegin while x = 0 do skip od; x := 1 parend end",
        outcomes: &[(1, false)],
        cycles: true,
    },
    Case {
        text: b"process p begin integer x; parbegin while 1 do skip od; x := 1 div 0 parend end",
        outcomes: &[(0, true)],
        cycles: true,
    },
    Case {
        text: b"process p begin integer x; parbegin x := 1; print 1 div 0 parend end",
        outcomes: &[(0, true), (1, true)],
        cycles: false,
    },
];

/// Two processes that want the same two devices in opposite order.
const DEVICES: &[u8] = b"resource tape = 1; resource disk = 1;
process a begin integer x; hold 1 of tape do hold 1 of disk do x := 3 od od end
process b begin integer y; hold 1 of disk do hold 1 of tape do y := 4 od od end";

/// A process that makes three picks: it pushes a number, prints it, and ends.
const PRINT: &[u8] = b"process p begin print 1 end";

/// Returns what a search goes through under this lending, without prints.
fn quiet(lending: Lending) -> Mode {
    Mode {
        lending,
        prints: false,
    }
}

/// Returns whether a process with one integer ended so.
fn has_ended(process: &ProcessOutcome, integer: i64, faulted: bool) -> bool {
    process.faulted == faulted && process.integers.as_slice() == [integer].as_slice()
}

/// Returns whether one of the outcomes is that the only process ended so.
fn contains(found: &[Found], integer: i64, faulted: bool) -> bool {
    for one in found {
        if one.outcome.len() == 1 && has_ended(&one.outcome[0], integer, faulted) {
            return true;
        }
    }
    false
}

/// Returns whether these are the outcomes of a text under this lending.
fn are_outcomes(alloc: Global, case: &Case, lending: Lending) -> Option<bool> {
    let compiled = compile(alloc, alloc, case.text).ok()?;
    let told = explore_by(
        alloc,
        compiled.verified(),
        quiet(lending),
        Until::AllIsFound,
        100_000,
    )
    .ok()?;
    let all = Extent::All {
        cycles: case.cycles,
    };
    if told.found.len() != case.outcomes.len() || told.extent != all {
        return Some(false);
    }
    for (integer, faulted) in case.outcomes {
        if !contains(&told.found, *integer, *faulted) {
            return Some(false);
        }
    }
    Some(true)
}

#[test]
fn outcomes_of_one_process(rt: HostRuntime) {
    for case in &CASES {
        assert!(rt; are_outcomes(rt.alloc(), case, Lending::ByBanker) == Some(true));
        assert!(rt; are_outcomes(rt.alloc(), case, Lending::ByCash) == Some(true));
    }
}

/// Returns whether both processes that want the devices end, and in no other way.
fn both_end(alloc: Global, lending: Lending) -> Option<bool> {
    let compiled = compile(alloc, alloc, DEVICES).ok()?;
    let told = explore_by(
        alloc,
        compiled.verified(),
        quiet(lending),
        Until::AllIsFound,
        100_000,
    )
    .ok()?;
    let ends = told.extent == Extent::All { cycles: false };
    if !ends || told.found.len() != 1 || told.found[0].outcome.len() != 2 {
        return Some(false);
    }
    let outcome = &told.found[0].outcome;
    Some(has_ended(&outcome[0], 3, false) && has_ended(&outcome[1], 4, false))
}

#[test]
fn tape_and_disk(rt: HostRuntime) {
    assert!(rt; both_end(rt.alloc(), Lending::ByBanker) == Some(true));
    assert!(rt; both_end(rt.alloc(), Lending::ByCash) == Some(true));
}

/// Returns whether a process waits with this integer, holds one of a resource and none of the other, and its
/// only request is for one of the other, by its first arm.
fn is_waiting(process: &StuckProcess, integer: i64, holds: [u32; 2], wanted: u8) -> bool {
    process.state == StuckState::Waiting
        && process.integers.as_slice() == [integer].as_slice()
        && process.holds.as_slice() == holds.as_slice()
        && process.asks.len() == 1
        && process.asks[0].arm == 0
        && asks_for_one(process, wanted)
}

/// Returns whether the first request of a process is for one of this resource and nothing else.
fn asks_for_one(process: &StuckProcess, wanted: u8) -> bool {
    if process.asks.is_empty() || process.asks[0].bundle.len() != 1 {
        return false;
    }
    let pair = process.asks[0].bundle.get(0);
    pair.resource == wanted && pair.amount == 1
}

/// Returns whether each of the two processes holds a device and asks for that of the other.
fn is_crossed(deadlock: &Deadlock) -> bool {
    deadlock.processes.len() == 2
        && deadlock.picks.len() == 2
        && is_waiting(&deadlock.processes[0], 0, [1, 0], 1)
        && is_waiting(&deadlock.processes[1], 0, [0, 1], 0)
}

/// Returns how many deadlocks there are by the cash and under the banker, if the first one is of crossed
/// devices.
fn deadlocks_of_devices(alloc: Global) -> Option<(usize, usize)> {
    let compiled = compile(alloc, alloc, DEVICES).ok()?;
    let by_cash = explore_by(
        alloc,
        compiled.verified(),
        quiet(Lending::ByCash),
        Until::AllIsFound,
        100_000,
    )
    .ok()?;
    let by_banker = explore(alloc, compiled.verified(), 100_000).ok()?;
    if by_cash.deadlocks.is_empty() || !is_crossed(&by_cash.deadlocks[0]) {
        return None;
    }
    Some((by_cash.deadlocks.len(), by_banker.deadlocks.len()))
}

#[test]
fn deadlock_of_tape_and_disk(rt: HostRuntime) {
    assert!(rt; deadlocks_of_devices(rt.alloc()) == Some((1, 0)));
}

/// Three philosophers who take the fork on their left first, and eat once.
const PHILOSOPHERS: &[u8] = b"resource a = 1; resource b = 1; resource c = 1;
process p begin hold 1 of a do hold 1 of b do skip od od end
process q begin hold 1 of b do hold 1 of c do skip od od end
process r begin hold 1 of c do hold 1 of a do skip od od end";

/// Returns how many deadlocks three philosophers have by the cash, and whether each process of the first one
/// asks.
fn deadlocks_of_philosophers(alloc: Global) -> Option<(usize, bool)> {
    let compiled = compile(alloc, alloc, PHILOSOPHERS).ok()?;
    let told = explore_by(
        alloc,
        compiled.verified(),
        quiet(Lending::ByCash),
        Until::AllIsFound,
        100_000,
    )
    .ok()?;
    if told.deadlocks.len() != 1 || told.deadlocks[0].processes.len() != 3 {
        return None;
    }
    let waiting = &told.deadlocks[0].processes;
    let ask = asks_for_one(&waiting[0], 1)
        && asks_for_one(&waiting[1], 2)
        && asks_for_one(&waiting[2], 0);
    Some((told.deadlocks.len(), ask))
}

#[test]
fn deadlock_of_philosophers(rt: HostRuntime) {
    assert!(rt; deadlocks_of_philosophers(rt.alloc()) == Some((1, true)));
}

/// A process that never ends, beside one that does: no outcome, and picks of the first are made without any
/// other, but only so many at once.
const ENDLESS: &[u8] = b"process p begin while 1 do skip od end process q begin print 1 end";

/// Returns whether the search returns so.
fn never_ends(alloc: Global) -> Option<bool> {
    let compiled = compile(alloc, alloc, ENDLESS).ok()?;
    let told = explore(alloc, compiled.verified(), 100_000).ok()?;
    Some(told.extent == Extent::All { cycles: true } && told.found.is_empty())
}

#[test]
fn one_that_never_ends(rt: HostRuntime) {
    assert!(rt; never_ends(rt.alloc()) == Some(true));
}

/// Returns how many picks lead to each outcome of the process that prints, and how much was found.
fn picks_to(alloc: Global, states: u32) -> Option<(Vec<usize>, Extent)> {
    let compiled = compile(alloc, alloc, PRINT).ok()?;
    let told = explore(alloc, compiled.verified(), states).ok()?;
    let mut picks = Vec::new(alloc);
    for one in &told.found {
        picks.push(one.picks.len()).ok()?;
    }
    Some((picks, told.extent))
}

/// Returns whether so many configurations tell this.
fn tell(alloc: Global, states: u32, picks: &[usize], extent: Extent) -> bool {
    picks_to(alloc, states).is_some_and(|told| told.0.as_slice() == picks && told.1 == extent)
}

#[test]
fn two_configurations(rt: HostRuntime) {
    let alloc = rt.alloc();
    assert!(rt; tell(alloc, 2, &[3], Extent::All { cycles: false }));
    assert!(rt; tell(alloc, 1, &[], Extent::TooMany));
    assert!(rt; tell(alloc, 0, &[], Extent::TooMany));
}

/// Returns what is found of the two devices by the cash until the first deadlock, or until all is found, with
/// this many configurations.
fn devices(alloc: Global, until: Until, states: u32) -> Option<Outcomes> {
    let compiled = compile(alloc, alloc, DEVICES).ok()?;
    explore_by(
        alloc,
        compiled.verified(),
        quiet(Lending::ByCash),
        until,
        states,
    )
    .ok()
}

/// Returns how many outcomes and deadlocks are found so, and whether they are all.
fn found(alloc: Global, until: Until, states: u32) -> Option<(usize, usize, Extent)> {
    let told = devices(alloc, until, states)?;
    Some((told.found.len(), told.deadlocks.len(), told.extent))
}

#[test]
fn what_was_found_is_not_lost(rt: HostRuntime) {
    let alloc = rt.alloc();
    let mut found_in_part = false;
    for states in 1..20 {
        match found(alloc, Until::AllIsFound, states) {
            Some((_, deadlocks, Extent::TooMany)) => {
                found_in_part = found_in_part || deadlocks == 1;
            }
            all => assert!(rt; all == Some((1, 1, Extent::All { cycles: false }))),
        }
    }
    assert!(rt; found_in_part);
}

#[test]
fn the_first_deadlock(rt: HostRuntime) {
    let alloc = rt.alloc();
    let first = found(alloc, Until::FirstDeadlock, 1_000);
    assert!(rt; first.is_some_and(|told| told.1 == 1 && told.2 == Extent::AtDeadlock));
}

/// A print beside a store of what it prints, and one after both.
const RACE: &[u8] =
    b"process p begin integer x; parbegin x := 1; print x parend; print 7 end process q begin skip end";

/// Returns the values that each outcome of the race printed, under this lending.
fn prints_of_race(alloc: Global, lending: Lending) -> Option<Vec<Vec<i64>>> {
    let compiled = compile(alloc, alloc, RACE).ok()?;
    let mode = Mode {
        lending,
        prints: true,
    };
    let told = explore_by(alloc, compiled.verified(), mode, Until::AllIsFound, 100_000).ok()?;
    let mut all = Vec::new(alloc);
    for one in &told.found {
        all.push(values_of(alloc, one)?).ok()?;
    }
    Some(all)
}

/// Returns the values that an outcome printed, in their order.
fn values_of(alloc: Global, found: &Found) -> Option<Vec<i64>> {
    let mut values = Vec::new(alloc);
    for print in &found.prints {
        values.push(print.value).ok()?;
    }
    Some(values)
}

/// Returns whether these are the two orders of values that the race can print.
fn are_both(printed: &[Vec<i64>]) -> bool {
    if printed.len() != 2 {
        return false;
    }
    let first = printed[0].as_slice();
    let second = printed[1].as_slice();
    (first == [0, 7].as_slice() && second == [1, 7].as_slice())
        || (first == [1, 7].as_slice() && second == [0, 7].as_slice())
}

/// Returns whether the race prints these, and nothing else, under this lending.
fn race_prints_both(alloc: Global, lending: Lending) -> Option<bool> {
    let all = prints_of_race(alloc, lending)?;
    Some(are_both(all.as_slice()))
}

#[test]
fn prints_tell_outcomes_apart(rt: HostRuntime) {
    let alloc = rt.alloc();
    assert!(rt; race_prints_both(alloc, Lending::ByBanker) == Some(true));
    assert!(rt; race_prints_both(alloc, Lending::ByCash) == Some(true));
}

/// Two arms that print twice each, and compute what they print.
const VOICES: &[u8] =
    b"process p begin parbegin begin print 1 + 2; print 3 * 4 end; begin print 5 + 6; print 7 * 8 end parend end";

/// Returns how many outcomes the two arms have with their prints, and whether there may be others, if this number of
/// configurations may be kept.
fn voices_within(alloc: Global, states: u32) -> Option<(usize, Extent)> {
    let compiled = compile(alloc, alloc, VOICES).ok()?;
    let mode = Mode {
        lending: Lending::ByBanker,
        prints: true,
    };
    let told = explore_by(alloc, compiled.verified(), mode, Until::AllIsFound, states).ok()?;
    Some((told.found.len(), told.extent))
}

/// Single picks reach more than 100 configurations.
#[test]
fn only_orders_of_prints_are_gone_through(rt: HostRuntime) {
    let within = voices_within(rt.alloc(), 30);
    assert!(rt; within == Some((6, Extent::All { cycles: false })));
}

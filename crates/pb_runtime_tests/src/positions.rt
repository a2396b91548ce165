//! Positions in a replay, and the state there.

ghost use Rattle.std.specs.Prelude.{◌≤◌, length};
ghost use Rattle.pb_history.specs.Replays.{spread};

use pb_base::{Lending, Pick, Step};
use pb_codegen::compile;
use pb_debug::{DebugFault, Debugger};
use pb_debug_texts::Why;
use pb_history::{CountedPick, ReplayFault};
use std::alloc::Global;

/// Two processes that want the same two devices in opposite order.
const DEVICES: &[u8] = b"resource tape = 1; resource disk = 1;
process a begin hold 1 of tape do hold 1 of disk do skip od od end
process b begin hold 1 of disk do hold 1 of tape do skip od od end";

/// A loop without an end.
const LOOP: &[u8] = b"process p begin while 1 do skip od end";

/// Two arms, and integers.
const ARMS: &[u8] = b"process p begin
integer x, y;
x := -7;
parbegin print x; y := x div 0 parend
end";

const A: Pick = Pick { process: 0, arm: 0 };

const B: Pick = Pick { process: 1, arm: 0 };

const SECOND: Pick = Pick { process: 0, arm: 2 };

/// Returns what these moves cost: none, to the first position, back by one, and to the second.
fn costs_of_moves(debugger: &mut Debugger<'_>, first: u32, second: u32) -> Option<[u32; 4]> {
    let none = debugger.last_cost();
    debugger.to(first).ok()?;
    let far = debugger.last_cost();
    debugger.back(1).ok()?;
    let before = debugger.last_cost();
    debugger.to(second).ok()?;
    Some([none, far, before, debugger.last_cost()])
}

/// Returns what such moves over these picks of a loop cost.
fn costs(alloc: Global, picks: &[CountedPick], first: u32, second: u32) -> Option<[u32; 4]>
    requires { length (spread picks.now) ≤ 10000000 }
{
    let Ok(compiled) = compile(alloc, alloc, LOOP) else {
        return None;
    };
    let Ok(mut debugger) = Debugger::new_counted(alloc, &compiled, picks) else {
        return None;
    };
    costs_of_moves(&mut debugger, first, second)
}

#[test]
fn moves_cost_what_is_made_again(rt: HostRuntime) {
    let picks = [CountedPick {
        pick: A,
        count: 20_000,
    }];
    let found = costs(rt.alloc(), &picks, 20_000, 8_192);
    assert!(rt; found == Some([0, 3_616, 3_615, 0]));
    assert!(rt; costs(rt.alloc(), &picks, 20_001, 0) == None);
}

/// Returns whether picks that are appended to 4,095 of a loop are kept, past the next checkpoint too.
fn is_appended_to(debugger: &mut Debugger<'_>) -> Option<bool> {
    let early = matches!(debugger.append(A), Err(DebugFault::PastEnd));
    debugger.to(4_095).ok()?;
    let none = matches!(debugger.append(B), Ok(Step::NotEnabled)) && debugger.len() == 4_095;
    for _ in 0..3 {
        debugger.append(A).ok()?;
    }
    let last = debugger.position() == 4_098 && debugger.last_cost() == 2;
    debugger.back(2).ok()?;
    Some(early && none && last && debugger.last_cost() == 0 && debugger.len() == 4_098)
}

/// Returns whether that is so of a debugger with these picks, if it can be made.
fn appends_past_a_checkpoint(alloc: Global) -> Option<bool> {
    let picks = [CountedPick {
        pick: A,
        count: 4_095,
    }];
    let compiled = compile(alloc, alloc, LOOP).ok()?;
    let mut debugger = Debugger::new_counted(alloc, &compiled, &picks).ok()?;
    is_appended_to(&mut debugger)
}

#[test]
fn picks_behind_the_last(rt: HostRuntime) {
    assert!(rt; appends_past_a_checkpoint(rt.alloc()) == Some(true));
}

/// Returns the position after these moves, each of which may be refused: to `to`, on by `on`, back by `back`.
fn position_after(alloc: Global, picks: &[Pick], to: u32, on: u32, back: u32) -> Option<u32>
    requires { length picks.now ≤ 10000000 }
{
    let Ok(compiled) = compile(alloc, alloc, DEVICES) else {
        return None;
    };
    let Ok(mut debugger) = Debugger::new(alloc, &compiled, picks) else {
        return None;
    };
    let _ = debugger.to(to);
    let _ = debugger.step(on);
    let _ = debugger.back(back);
    Some(debugger.position())
}

#[test]
fn refused_moves_leave_the_position(rt: HostRuntime) {
    // to, step, back, and where that leads
    let cases = [(3, 0, 0, 3), (4, 1, 0, 1), (3, 1, 1, 2), (1, 2, 4, 3)];
    for (to, on, back, end) in cases {
        let found = position_after(rt.alloc(), &[A, A, A], to, on, back);
        assert!(rt; found == Some(end));
    }
}

/// Returns why these picks of the two processes make no debugger under a lending.
fn refused(alloc: Global, lending: Lending, picks: &[Pick]) -> Option<ReplayFault>
    requires { length picks.now ≤ 10000000 }
{
    let Ok(compiled) = compile(alloc, alloc, DEVICES) else {
        return None;
    };
    match Debugger::from_object(
        alloc,
        compiled.verified(),
        compiled.labels(),
        lending,
        picks,
    ) {
        Ok(_) => None,
        Err(fault) => Some(fault),
    }
}

#[test]
fn a_pick_that_is_not_enabled(rt: HostRuntime) {
    let by_banker = refused(rt.alloc(), Lending::ByBanker, &[A, B]);
    assert!(rt; by_banker == Some(ReplayFault::NotEnabled(1)));
    // the cash lends each of them its first device, and then has none for `a`
    assert!(rt; refused(rt.alloc(), Lending::ByCash, &[A, B]) == None);
    let by_cash = refused(rt.alloc(), Lending::ByCash, &[A, B, A]);
    assert!(rt; by_cash == Some(ReplayFault::NotEnabled(2)));
}

/// Returns whether the reason is that these processes could never finish.
fn is_rest(why: Result<Why, DebugFault>, processes: &[u8]) -> bool {
    match why {
        Ok(Why::Rest(rest)) => rest.as_slice() == processes,
        _ => false,
    }
}

/// Returns whether the processes may finish in this order.
fn is_order(why: Result<Why, DebugFault>, processes: &[u8]) -> bool {
    match why {
        Ok(Why::Order(order)) => order.as_slice() == processes,
        _ => false,
    }
}

/// Returns whether there is too little cash of this resource, and this amount of it.
fn is_cash(why: Result<Why, DebugFault>, wanted: u8, amount: u32) -> bool {
    match why {
        Ok(Why::Cash { resource, cash }) => resource == wanted && cash == amount,
        _ => false,
    }
}

/// Returns whether one process holds the tape, and each of both waits or may go on as the banker says.
fn tells_waits(debugger: &mut Debugger<'_>) -> Option<bool> {
    let free = is_order(debugger.why(1, 0), &[1, 0]);
    debugger.to(1).ok()?;
    let tape = debugger.loans().processes() == 2 && is_rest(debugger.why(1, 0), &[0, 1]);
    let line = debugger.line(1, 0) == Ok(Some(3)) && debugger.line(1, 1) == Err(DebugFault::NoArm);
    let next = is_order(debugger.why(0, 0), &[0, 1]);
    debugger.step(1).ok()?;
    let disk = is_cash(debugger.why(1, 0), 1, 0);
    Some(free && tape && line && next && disk)
}

/// Returns whether that is so if the first process takes both devices.
fn waits_are_right(alloc: Global) -> Option<bool> {
    let compiled = compile(alloc, alloc, DEVICES).ok()?;
    let mut debugger = Debugger::new(alloc, &compiled, &[A, A]).ok()?;
    tells_waits(&mut debugger)
}

#[test]
fn reasons_of_requests(rt: HostRuntime) {
    assert!(rt; waits_are_right(rt.alloc()) == Some(true));
}

/// Returns whether integers, lines and arms are those of the source, up to a fault.
fn tells_arms(debugger: &mut Debugger<'_>) -> Option<bool> {
    debugger.to(4).ok()?;
    let vars = debugger.vars(0).ok()? == [-7, 0].as_slice();
    let lines = debugger.line(0, 1) == Ok(Some(4)) && debugger.line(0, 2) == Ok(Some(4));
    let none = matches!(debugger.why(0, 1), Ok(Why::NotAsking))
        && debugger.vars(1) == Err(DebugFault::NoProcess);
    debugger.to(debugger.len()).ok()?;
    let faulted = debugger.threads(0).ok()?.faulted() && debugger.line(0, 2) == Ok(None);
    Some(vars && lines && none && faulted)
}

/// Returns whether that is so of a run of two arms, made from the object.
fn arms_are_right(alloc: Global) -> Option<bool> {
    let picks = [
        CountedPick { pick: A, count: 4 },
        CountedPick {
            pick: SECOND,
            count: 3,
        },
    ];
    let compiled = compile(alloc, alloc, ARMS).ok()?;
    let mut debugger = Debugger::from_object_counted(
        alloc,
        compiled.verified(),
        compiled.labels(),
        Lending::ByBanker,
        &picks,
    )
    .ok()?;
    tells_arms(&mut debugger)
}

#[test]
fn integers_and_lines(rt: HostRuntime) {
    assert!(rt; arms_are_right(rt.alloc()) == Some(true));
}

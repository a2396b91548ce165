//! Where a person stops along the picks.

use pb_base::Pick;
use pb_codegen::compile;
use pb_debug::Debugger;
use std::alloc::Global;

/// Two arms that add to the same integer, at lines 4 and 5, and its value, at line 7.
const LOST: &[u8] = b"process p begin
integer x;
parbegin
x := x + 1;
x := x + 1
parend;
print x
end";

const BODY: Pick = Pick { process: 0, arm: 0 };

const FIRST: Pick = Pick { process: 0, arm: 1 };

const SECOND: Pick = Pick { process: 0, arm: 2 };

/// The first arm assigns between the read and the assignment of the second.
const PICKS: [Pick; 15] = [
    BODY, SECOND, SECOND, FIRST, FIRST, FIRST, FIRST, FIRST, SECOND, SECOND, SECOND, BODY, BODY,
    BODY, BODY,
];

/// Returns whether the body comes to the print by pick 11, and the arms to their lines by pick 0.
fn stops_at_lines(debugger: &mut Debugger<'_>) -> Option<bool> {
    let none = debugger.last_pick().is_none();
    let print = debugger.next_stop(&[7]).ok()?;
    debugger.to(12).ok()?;
    let arms = debugger.last_stop(11, &[4, 5]).ok()?;
    let nothing = debugger.next_stop(&[4, 5]).ok()?;
    let last = debugger.last_pick() == Some(BODY);
    Some(none && print == Some(11) && arms == Some(0) && nothing.is_none() && last)
}

/// Returns whether the first arm leaves its line by pick 6, forward and backward.
fn leaves_its_line(debugger: &mut Debugger<'_>) -> Option<bool> {
    debugger.to(1).ok()?;
    let next = debugger.next_move(0, 1).ok()?;
    debugger.to(15).ok()?;
    let last = debugger.last_move(15, 0, 1).ok()?;
    Some(next == Some(6) && last == Some(6) && debugger.processes() == 1)
}

/// Returns whether both are so of a debugger with these picks, if it can be made.
fn stops(alloc: Global) -> Option<bool> {
    let compiled = compile(alloc, alloc, LOST).ok()?;
    let mut debugger = Debugger::new(alloc, &compiled, &PICKS).ok()?;
    let named = debugger.verified().names().processes.len() == 1;
    let labelled = debugger.labels().processes.len() == 1;
    let lines = stops_at_lines(&mut debugger)?;
    Some(named && labelled && lines && leaves_its_line(&mut debugger)?)
}

#[test]
fn a_person_stops_at_lines_and_where_an_arm_moves(rt: HostRuntime) {
    assert!(rt; stops(rt.alloc()) == Some(true));
}

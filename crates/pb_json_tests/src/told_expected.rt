//! What `outcomes --expect` says, told as lines and as objects.

use crate::told_outcomes::says_the_same;
use pb_base::NoMemory;
use pb_options::{Lend, OutcomesOptions};
use std::alloc::Global;

/// Texts with what is asked of them: what is as expected, other prints, a fault, a deadlock, runs that do not end, and
/// prints in any order.
const COMPARED: [&[u8]; 8] = [
    b"process p begin integer x; parbegin x := 1; x := 1 parend; print x + 1 end\n%%\np.0 print 2\n",
    b"process p begin skip end",
    b"process p begin print 1; print -9007199254740992 end\n%%\np.0 print 1",
    b"process p begin print 1; print 1 div 0 end\n%%\np.0 print 1\n",
    b"resource tape = 1; resource disk = 1;\nprocess a begin hold 1 of tape do hold 1 of disk do skip od od end\nprocess b begin hold 1 of disk do hold 1 of tape do skip od od end\n",
    b"process p begin integer x; parbegin while x = 0 do skip od; x := 1 parend; print x end\n%%\np.0 print 1\n",
    b"process p begin while 1 do skip od end",
    b"process p begin print 1 end process q begin print 2 end\n%%\nq.0 print 2\np.0 print 1\n",
];

/// Texts with what is asked of them: what is required and not there, lines that ask for nothing, and refused texts.
const REFUSED: [&[u8]; 9] = [
    b"process p begin skip end\n%%\nhas a parbegin\nhas a hold\n",
    b"process p begin skip end\n%%\nhas a hold\n",
    b"resource tape = 2; process p begin hold 2 of tape do skip od end\n%%\nclaims at least 2 tape\nclaims at least 3 tape\n",
    b"process p begin skip end\n%%\nclaims at least 1000000 other\n",
    b"process p begin print 1 end\n%%\np.0 print 1\np.1 print 1\n",
    b"resource tape = 1; process p begin hold 1 of tape do skip od end\n%%\nhas a hold\nhas a print\n",
    b"process p begin x := 1 end\n%%\nx\n",
    b"resource tape = 1; process p begin hold 2 of tape do skip od end\n%%\n",
    b"",
];

/// How runs are compared, by a search that is cut off early or that goes through all of them.
fn options_of(lend: Lend, cut_off: bool, any_order: bool, fair: bool) -> OutcomesOptions {
    OutcomesOptions {
        states: if cut_off { 3 } else { 1_000 },
        lend,
        first_deadlock: false,
        prints: false,
        fair,
        expect: true,
        any_order,
        endless: false,
        graph: false,
        run: None,
        deadlock: None,
    }
}

/// Returns whether each of these inputs is told alike.
fn all_are_alike(
    alloc: Global,
    options: OutcomesOptions,
    inputs: &[&[u8]],
) -> Result<bool, NoMemory> {
    for input in inputs {
        if !says_the_same(alloc, options, input)? {
            return Ok(false);
        }
    }
    Ok(true)
}

#[test]
fn compared_runs_are_told_alike(rt: HostRuntime) {
    let alloc = rt.alloc();
    let plain = options_of(Lend::Banker, false, false, false);
    let by_cash = options_of(Lend::Cash, false, true, true);
    assert!(rt; matches!(all_are_alike(alloc, plain, &COMPARED), Ok(true)));
    assert!(rt; matches!(all_are_alike(alloc, by_cash, &COMPARED), Ok(true)));
}

#[test]
fn a_search_that_is_cut_off_is_told_alike(rt: HostRuntime) {
    let alloc = rt.alloc();
    let few = options_of(Lend::Banker, true, false, true);
    assert!(rt; matches!(all_are_alike(alloc, few, &COMPARED), Ok(true)));
}

#[test]
fn refusals_of_what_is_asked_are_told_alike(rt: HostRuntime) {
    let alloc = rt.alloc();
    let plain = options_of(Lend::Banker, false, false, false);
    assert!(rt; matches!(all_are_alike(alloc, plain, &REFUSED), Ok(true)));
}

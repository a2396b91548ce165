//! The fair runs of small texts.

use pb_base::Lending;
use pb_codegen::compile;
use pb_search_fair::{FairRuns, fair_runs};
use std::alloc::Global;

/// A text, and what is told of its fair runs.
struct Case {
    text: &'static [u8],
    told: FairRuns,
}

/// A loop that never ends, alone and beside a process that does; a loop that waits for another arm, and one that waits
/// for a fault of it; two arms that let one another go first, with `first` and without.
const CASES: [Case; 6] = [
    Case {
        text: b"process p begin while 1 do skip od end",
        told: FairRuns::SomeDoNotEnd,
    },
    Case {
        text: b"process p begin while 1 do skip od end process q begin skip end",
        told: FairRuns::SomeDoNotEnd,
    },
    Case {
        text: b"process p begin integer x; parbegin while x = 0 do skip od; x := 1 parend end",
        told: FairRuns::AllEnd,
    },
    Case {
        text: b"process p begin integer x; parbegin while 1 do skip od; x := 1 div 0 parend end",
        told: FairRuns::AllEnd,
    },
    Case {
        text: b"process p begin integer a, b, first; parbegin
begin a := 1; first := 2; while b and first = 2 do skip od; a := 0 end;
begin b := 1; first := 1; while a and first = 1 do skip od; b := 0 end
parend end",
        told: FairRuns::AllEnd,
    },
    Case {
        text: b"process p begin integer a, b; parbegin
begin a := 1; while b do skip od; a := 0 end;
begin b := 1; while a do skip od; b := 0 end
parend end",
        told: FairRuns::SomeDoNotEnd,
    },
];

/// Returns what is told of the fair runs of a text.
fn told(alloc: Global, text: &[u8], lending: Lending, states: u32) -> Option<FairRuns> {
    let compiled = compile(alloc, alloc, text).ok()?;
    fair_runs(alloc, compiled.verified(), lending, states).ok()
}

#[test]
fn fair_runs_of_texts(rt: HostRuntime) {
    for case in &CASES {
        assert!(rt; told(rt.alloc(), case.text, Lending::ByBanker, 100_000) == Some(case.told));
        assert!(rt; told(rt.alloc(), case.text, Lending::ByCash, 100_000) == Some(case.told));
    }
}

#[test]
fn too_many_for_fair_runs(rt: HostRuntime) {
    let text = CASES[0].text;
    assert!(rt; told(rt.alloc(), text, Lending::ByBanker, 2) == Some(FairRuns::TooMany));
}

//! Whole inputs, and what is said of them.

use pb_base::{Lending, MemoryInput, MemoryOutput};
use pb_command_io::Status;
use pb_debug_engine::{debug_engine, debug_live_engine};
use pb_example_texts::deadlock::CIRCLE_RUN;
use std::alloc::Global;

/// An input, what is said of it, and the status.
struct Case {
    input: &'static [u8],
    said: &'static [u8],
    status: Status,
}

const CASES: [Case; 11] = [
    Case {
        input: b"resource tape = 1; resource disk = 1;\nprocess a begin hold 1 of tape do hold 1 of disk do skip od od end\nprocess b begin hold 1 of disk do hold 1 of tape do skip od od end\n%%\na.0 1\n%%\nto 1\nwhy b.0\nwhy a.0\nline b.0\nback 2\nloans\n",
        said: b"at 1\nrest a b\norder a b\nline 3\nrefused G1\na holds 1 tape claim 1\na holds 0 disk claim 1\nb holds 0 tape claim 1\nb holds 0 disk claim 1\ncash 0 tape\ncash 1 disk\n",
        status: Status::Done,
    },
    Case {
        input: b"PBO 2\nresources 0\nprocesses 1\nprocess p\nvars 1 x\narms 1\nclaims\narm 0\ncode 7\n1 push 2\n1 push 3\n1 add\n1 store 0\n1 load 0\n1 print\n0 end\n%%\np.0 4\n%%\nto 4\nvars p\nline p.0",
        said: b"at 4\nx 5\nline 1\n",
        status: Status::Done,
    },
    Case {
        input: b"PBO 1\nresources 0\nprocesses 1\nprocess p\nvars 1\narms 1\nclaims\narm 0\ncode 7\npush 2\npush 3\nadd\nstore 0\nload 0\nprint\nend\n%%\np.0 4\n%%\nto 4\nvars p\nline p.0\n%%\n",
        said: b"at 4\nv0 5\nline none\nrefused G4\n",
        status: Status::Done,
    },
    Case {
        input: b"process p begin print 1;\nprint 2 end\n%%\np.0 5\n%%\ntext p.0\nto 2\ntext p.0\nto 5\ntext p.0\n",
        said: b"1| process p begin print 1;\nat 2\n2| print 2 end\nat 5\nline none\n",
        status: Status::Done,
    },
    Case {
        input: b"PBO 2\nresources 0\nprocesses 1\nprocess p\nvars 1 x\narms 1\nclaims\narm 0\ncode 7\n1 push 2\n1 push 3\n1 add\n1 store 0\n1 load 0\n1 print\n0 end\n%%\np.0 4\n%%\nline p.0\ntext p.0\ntext p.1\ntext q.0\n",
        said: b"line 1\nno text\nrefused G3\nrefused G2\n",
        status: Status::Done,
    },
    Case {
        input: b"process p begin print 1 end",
        said: b"",
        status: Status::Done,
    },
    Case {
        input: b"process p begin print 1 end process\n%%\nq.0 1\n%%\nto 1\n",
        said: b"refused P1 at 35\n",
        status: Status::Refused,
    },
    Case {
        input: b"PBO 2\nresources 0\n%%\nq.0 1\n%%\nto 1\n",
        said: b"refused O1 at 18\n",
        status: Status::Refused,
    },
    Case {
        input: b"process p begin print 1 end\n%%\np.0 9\nq.0 1\n%%\nto 1\n",
        said: b"refused K1 at 6\n",
        status: Status::Refused,
    },
    Case {
        input: b"process p begin print 1 end\n%%\np.0 9\np.0 10000000\n%%\nto 1\n",
        said: b"refused K2\n",
        status: Status::Refused,
    },
    Case {
        input: b"process p begin print 1 end\n%%\np.0 9\n%%\nto 1\n",
        said: b"refused H1 at 3\n",
        status: Status::Refused,
    },
];

/// Returns whether this is said of an input that is read whole.
fn says(alloc: Global, case: &Case) -> Option<bool> {
    let mut input = MemoryInput::new(case.input);
    let mut output = MemoryOutput::new(alloc, 4_096).ok()?;
    let status = debug_engine(alloc, Lending::ByBanker, &mut input, &mut output);
    Some(status == case.status && output.as_slice() == case.said)
}

/// Returns whether the same is said of an input whose commands are read as they come.
fn says_live(alloc: Global, case: &Case) -> Option<bool> {
    let mut input = MemoryInput::new(case.input);
    let mut output = MemoryOutput::new(alloc, 4_096).ok()?;
    let status = debug_live_engine(alloc, Lending::ByBanker, &mut input, &mut output);
    Some(status == case.status && output.as_slice() == case.said)
}

/// Goes to the deadlock of the example, asks there, tries a pick past the cash, and goes back and on.
const WALK: &[u8] =
    b"%%\nto 2\nwho tape\nwho disk\nwhy a.0\nwhy b.0\nthreads a\npick a.0\npick b.0\nback 1\nwhy b.0\nnext\n";

/// What is said then by cash alone.
const WALKED: &[u8] =
    b"at 2\na holds 1 tape claim 1\nb.0 asks 1 tape\ncash 0 tape\nb holds 1 disk claim 1\na.0 asks 1 disk\ncash 0 disk\ncash 0 disk\ncash 0 tape\n0 at 1\ncash 0 disk\ncash 0 tape\nat 1\ngranted\nat 2 b.0 grant 1 disk\n";

/// Returns whether this is said of a walk through the deadlock of the example, under a lending, by each engine.
fn says_of_deadlock(
    alloc: Global,
    lending: Lending,
    said: &[u8],
    status: Status,
) -> Option<(bool, bool)> {
    let mut bytes = Vec::from_slice(alloc, CIRCLE_RUN).ok()?;
    bytes.extend_from_slice(WALK).ok()?;
    let mut whole = MemoryOutput::new(alloc, 4_096).ok()?;
    let told = debug_engine(alloc, lending, &mut MemoryInput::new(&bytes), &mut whole);
    let mut live = MemoryOutput::new(alloc, 4_096).ok()?;
    let told_live = debug_live_engine(alloc, lending, &mut MemoryInput::new(&bytes), &mut live);
    Some((
        told == status && whole.as_slice() == said,
        told_live == status && live.as_slice() == said,
    ))
}

#[test]
fn deadlock_by_cash(rt: HostRuntime) {
    let by_cash = says_of_deadlock(rt.alloc(), Lending::ByCash, WALKED, Status::Done);
    assert!(rt; by_cash == Some((true, true)));
    // the banker refuses the second pick, so that there is no session
    let refused = b"refused H1 at 1\n";
    let by_banker = says_of_deadlock(rt.alloc(), Lending::ByBanker, refused, Status::Refused);
    assert!(rt; by_banker == Some((true, true)));
}

#[test]
fn inputs_are_debugged(rt: HostRuntime) {
    for case in &CASES {
        assert!(rt; says(rt.alloc(), case) == Some(true));
    }
}

#[test]
fn live_inputs_are_debugged(rt: HostRuntime) {
    for case in &CASES {
        assert!(rt; says_live(rt.alloc(), case) == Some(true));
    }
}

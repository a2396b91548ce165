//! Whole inputs, and what is said of them.

use pb_base::{FaultyInput, MemoryInput, MemoryOutput};
use pb_command_io::Status;
use pb_engines::{ReplayOptions, write_replay};
use pb_options::{Lend, OutcomesOptions};
use pb_search_engine::outcomes_engine;
use pb_voice::Form;
use std::alloc::Global;

/// A text, how many configurations may be kept, what is said of it, and the status.
struct Case {
    text: &'static [u8],
    options: OutcomesOptions,
    said: &'static [u8],
    status: Status,
}

const MANY: OutcomesOptions = OutcomesOptions {
    states: 1_000_000,
    lend: Lend::Banker,
    first_deadlock: false,
    prints: false,
    fair: false,
    expect: false,
    any_order: false,
    endless: false,
    graph: false,
    run: None,
    deadlock: None,
};

/// The same, and what is told of fair runs.
const FAIR: OutcomesOptions = OutcomesOptions {
    states: 1_000_000,
    lend: Lend::Banker,
    first_deadlock: false,
    prints: false,
    fair: true,
    expect: false,
    any_order: false,
    endless: false,
    graph: false,
    run: None,
    deadlock: None,
};

const CASH: OutcomesOptions = OutcomesOptions {
    states: 1_000_000,
    lend: Lend::Cash,
    first_deadlock: false,
    prints: false,
    fair: false,
    expect: false,
    any_order: false,
    endless: false,
    graph: false,
    run: None,
    deadlock: None,
};

const PRINTS: OutcomesOptions = OutcomesOptions {
    states: 1_000_000,
    lend: Lend::Banker,
    first_deadlock: false,
    prints: true,
    fair: false,
    expect: false,
    any_order: false,
    endless: false,
    graph: false,
    run: None,
    deadlock: None,
};

/// Two additions, of which one may be lost: 7 configurations are kept.
const LOST: &[u8] =
    b"process p begin integer x; parbegin x := x + 1; x := x + 1 parend; print x end\n";

/// Two jobs that want the same two devices, in opposite order.
const DEVICES: &[u8] =
    b"resource tape = 1; resource disk = 1;\nprocess a begin hold 1 of tape do hold 1 of disk do print 1 od od end\nprocess b begin hold 1 of disk do hold 1 of tape do print 2 od od end\n";

const CASES: [Case; 19] = [
    Case {
        text: LOST,
        options: MANY,
        said: b"outcome 1\np ended\np.x 2\nreached by\np.0 1\np.1 5\np.2 5\np.0 4\noutcome 2\np ended\np.x 1\nreached by\np.0 1\np.1 3\np.2 3\np.1 2\np.2 2\np.0 4\n2 outcomes\n",
        status: Status::Done,
    },
    Case {
        text: DEVICES,
        options: MANY,
        said: b"outcome 1\na ended\nb ended\nreached by\na.0 7\nb.0 7\n1 outcome\n",
        status: Status::Done,
    },
    Case {
        text: b"process p begin integer x; parbegin print 1 div x; x := 1 parend end\n",
        options: MANY,
        said: b"outcome 1\np ended\np.x 1\nreached by\np.0 1\np.1 1\np.2 3\np.1 4\np.0 2\noutcome 2\np faulted\np.x 0\nreached by\np.0 1\np.1 1\np.2 1\np.1 2\noutcome 3\np faulted\np.x 1\nreached by\np.0 1\np.1 1\np.2 1\np.1 1\np.2 2\np.1 1\n3 outcomes\n",
        status: Status::Done,
    },
    Case {
        text: DEVICES,
        options: CASH,
        said: b"outcome 1\na ended\nb ended\nreached by\na.0 7\nb.0 7\ndeadlock 1\na waits\na holds 1 tape\na.0 asks 1 disk\nb waits\nb holds 1 disk\nb.0 asks 1 tape\nreached by\na.0 1\nb.0 1\n1 outcome, 1 deadlock\n",
        status: Status::Deadlock,
    },
    Case {
        text: LOST,
        options: CASH,
        said: b"outcome 1\np ended\np.x 2\nreached by\np.0 1\np.1 5\np.2 5\np.0 4\noutcome 2\np ended\np.x 1\nreached by\np.0 1\np.1 3\np.2 3\np.1 2\np.2 2\np.0 4\n2 outcomes\n",
        status: Status::Done,
    },
    Case {
        text: b"process p begin integer x, y; x := 2; y := -3 end process q begin print 1 end",
        options: MANY,
        said: b"outcome 1\np ended\np.x 2\np.y -3\nq ended\nreached by\np.0 6\nq.0 3\n1 outcome\n",
        status: Status::Done,
    },
    Case {
        text: b"process p begin integer x; while 1 do x := 0 od end",
        options: MANY,
        said: b"0 outcomes, some runs do not end\n",
        status: Status::Done,
    },
    Case {
        text: b"process p begin integer x; parbegin while 1 do skip od; x := 1 div 0 parend end",
        options: MANY,
        said: b"outcome 1\np faulted\np.x 0\nreached by\np.0 1\np.1 1000\np.2 3\n1 outcome, some runs do not end\n",
        status: Status::Done,
    },
    Case {
        text: b"process p begin integer x; while 1 do x := 0 od end",
        options: FAIR,
        said: b"0 outcomes, some runs do not end\nsome fair runs do not end\n",
        status: Status::Done,
    },
    Case {
        text: b"process p begin integer x; parbegin while x = 0 do skip od; x := 1 parend end",
        options: FAIR,
        said: b"outcome 1\np ended\np.x 1\nreached by\np.0 1\np.2 3\np.1 5\np.0 2\n1 outcome, some runs do not end\nevery fair run ends\n",
        status: Status::Done,
    },
    Case {
        text: LOST,
        options: FAIR,
        said: b"outcome 1\np ended\np.x 2\nreached by\np.0 1\np.1 5\np.2 5\np.0 4\noutcome 2\np ended\np.x 1\nreached by\np.0 1\np.1 3\np.2 3\np.1 2\np.2 2\np.0 4\n2 outcomes\nevery fair run ends\n",
        status: Status::Done,
    },
    Case {
        text: b"process p begin integer x, y; parbegin x := 1; y := 1 div 0 parend end",
        options: MANY,
        said: b"outcome 1\np faulted\np.x 1\np.y 0\nreached by\np.0 1\np.1 1\np.2 2\np.1 2\np.2 1\noutcome 2\np faulted\np.x 0\np.y 0\nreached by\np.0 1\np.1 1\np.2 3\n2 outcomes\n",
        status: Status::Done,
    },
    Case {
        text: LOST,
        options: OutcomesOptions {
            states: 7,
            lend: Lend::Banker,
            first_deadlock: false,
            prints: false,
            fair: false,
            expect: false,
            any_order: false,
            endless: false,
            graph: false,
            run: None,
            deadlock: None,
        },
        said: b"outcome 1\np ended\np.x 2\nreached by\np.0 1\np.1 5\np.2 5\np.0 4\noutcome 2\np ended\np.x 1\nreached by\np.0 1\np.1 3\np.2 3\np.1 2\np.2 2\np.0 4\n2 outcomes\n",
        status: Status::Done,
    },
    Case {
        text: LOST,
        options: OutcomesOptions {
            states: 6,
            lend: Lend::Banker,
            first_deadlock: false,
            prints: false,
            fair: false,
            expect: false,
            any_order: false,
            endless: false,
            graph: false,
            run: None,
            deadlock: None,
        },
        said: b"outcome 1\np ended\np.x 2\nreached by\np.0 1\np.1 5\np.2 5\np.0 4\nmore than 6 configurations, there may be others\n",
        status: Status::Limit,
    },
    Case {
        text: b"process p begin integer x; parbegin x := 1; print x parend end\n",
        options: PRINTS,
        said: b"outcome 1\np ended\np.x 1\nprinted\np.2 print 1\nreached by\np.0 1\np.1 3\np.2 3\np.0 2\noutcome 2\np ended\np.x 1\nprinted\np.2 print 0\nreached by\np.0 1\np.1 1\np.2 3\np.1 2\np.0 2\n2 outcomes\n",
        status: Status::Done,
    },
    Case {
        text: b"process p begin print 1 end process q begin print 2 end",
        options: PRINTS,
        said: b"outcome 1\np ended\nq ended\nprinted\np.0 print 1\nq.0 print 2\nreached by\np.0 1\nq.0 1\np.0 2\nq.0 2\noutcome 2\np ended\nq ended\nprinted\nq.0 print 2\np.0 print 1\nreached by\np.0 1\nq.0 3\np.0 2\n2 outcomes\n",
        status: Status::Done,
    },
    Case {
        text: b"process p begin skip end",
        options: PRINTS,
        said: b"outcome 1\np ended\nreached by\np.0 1\n1 outcome\n",
        status: Status::Done,
    },
    Case {
        text: b"process p begin print 1 end process",
        options: MANY,
        said: b"refused P1 at 35\n",
        status: Status::Refused,
    },
    Case {
        text: b"resource tape = 1; process p begin hold 2 of tape do skip od end",
        options: MANY,
        said: b"refused C1 p tape claim 2 capital 1\n",
        status: Status::Refused,
    },
];

/// The document of all schedules of a text, in place of all else.
const DOCUMENT: Case = Case {
    text: b"process p begin print 1 end\n",
    options: OutcomesOptions {
        states: 4,
        lend: Lend::Banker,
        first_deadlock: true,
        prints: true,
        fair: true,
        expect: true,
        any_order: true,
        endless: false,
        graph: true,
        run: Some(1),
        deadlock: None,
    },
    said: b"{\"parbegin\":1,\"kind\":\"schedules\",\"text\":\"process p begin print 1 end\\n\",\"object\":\"PBO 2\\nresources 0\\nprocesses 1\\nprocess p\\nvars 0\\narms 1\\nclaims\\narm 0\\ncode 3\\n1 push 1\\n1 print\\n0 end\\n\",\"lend\":\"banker\",\"start\":[0,[],0,[0],\"takes the number 1\"],\"nodes\":[[[0,0,1,0,1,1,[1],4,\"prints 1\"]],[[0,0,2,0,2,1,[],4,\"ends the process\",\"p.0 print 1\"]],[[0,0,3,0,-2,4,\"\",\"p end\"]],[]],\"outcomes\":[3],\"deadlocks\":[],\"endless\":false}\n",
    status: Status::Done,
};

/// Returns whether this is said of a text.
fn says(alloc: Global, case: &Case) -> Option<bool> {
    let mut input = MemoryInput::new(case.text);
    let mut output = MemoryOutput::new(alloc, 4_096).ok()?;
    let status = outcomes_engine(alloc, Form::Lines, case.options, &mut input, &mut output);
    Some(status == case.status && output.as_slice() == case.said)
}

#[test]
fn outcomes_are_told(rt: HostRuntime) {
    for case in &CASES {
        assert!(rt; says(rt.alloc(), case) == Some(true));
    }
}

#[test]
fn the_document_of_all_schedules_is_told(rt: HostRuntime) {
    assert!(rt; says(rt.alloc(), &DOCUMENT) == Some(true));
}

/// Returns whether nothing is said of a text of which a read fails.
fn says_nothing(alloc: Global) -> Option<bool> {
    let mut input = FaultyInput::new(LOST, 2, 8);
    let mut output = MemoryOutput::new(alloc, 64).ok()?;
    let status = outcomes_engine(alloc, Form::Lines, MANY, &mut input, &mut output);
    Some(status == Status::Device && output.as_slice().is_empty())
}

#[test]
fn a_failed_read_is_told(rt: HostRuntime) {
    assert!(rt; says_nothing(rt.alloc()) == Some(true));
}

/// The text of the lost update with the picks of its two outcomes, what `replay` says, and its status.
const REPLAYS: [(&[u8], &[u8]); 2] = [
    (
        b"process p begin integer x; parbegin x := x + 1; x := x + 1 parend; print x end\n%%\np.0 1\np.1 5\np.2 5\np.0 4\n",
        b"p.0 print 2\np end\ndone\n",
    ),
    (
        b"process p begin integer x; parbegin x := x + 1; x := x + 1 parend; print x end\n%%\np.0 1\np.1 3\np.2 3\np.1 2\np.2 2\np.0 4\n",
        b"p.0 print 1\np end\ndone\n",
    ),
];

/// Returns whether `replay` under a lending says this of an input, with this status.
fn replays(alloc: Global, lend: Lend, input: &[u8], said: &[u8], wanted: Status) -> Option<bool> {
    let mut input = MemoryInput::new(input);
    let mut output = MemoryOutput::new(alloc, 4_096).ok()?;
    let status = write_replay(
        alloc,
        Form::Lines,
        ReplayOptions { lend },
        &mut input,
        &mut output,
    );
    Some(status == wanted && output.as_slice() == said)
}

#[test]
fn pick_lines_are_replayed(rt: HostRuntime) {
    for (input, said) in &REPLAYS {
        assert!(rt; replays(rt.alloc(), Lend::Banker, input, said, Status::Done) == Some(true));
    }
}

/// Two jobs that each hold one of two devices and want the other, and the picks that lead there by cash alone.
const CIRCLE: &[u8] =
    b"resource r = 1; resource s = 1; process p begin hold 1 of r do hold 1 of s do skip od od end process q begin hold 1 of s do hold 1 of r do skip od od end\n%%\np.0 1\nq.0 1\n";

#[test]
fn a_deadlock_is_replayed(rt: HostRuntime) {
    let alloc = rt.alloc();
    let said = b"p.0 grant 1 r\nq.0 grant 1 s\ndeadlock\n";
    assert!(rt; replays(alloc, Lend::Cash, CIRCLE, said, Status::Deadlock) == Some(true));
    let said = b"refused H1 at 1\n";
    assert!(rt; replays(alloc, Lend::Banker, CIRCLE, said, Status::Refused) == Some(true));
}

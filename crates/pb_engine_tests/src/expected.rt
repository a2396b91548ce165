//! Whether all runs of a program are as expected, and what is said if not.

use pb_base::{FaultyInput, MemoryInput, MemoryOutput};
use pb_command_io::Status;
use pb_options::{Lend, OutcomesOptions};
use pb_search_engine::outcomes_engine;
use pb_voice::Form;
use std::alloc::Global;

/// An input, how its runs are compared, what is said, and the status.
struct Case {
    input: &'static [u8],
    lend: Lend,
    any_order: bool,
    fair: bool,
    states: u32,
    said: &'static [u8],
    status: Status,
}

const CASES: [Case; 16] = [
    // the same print under every schedule
    Case {
        input: b"process p begin integer x; parbegin x := 1; x := 1 parend; print x + 1 end\n%%\np.0 print 2\n",
        lend: Lend::Banker,
        any_order: false,
        fair: false,
        states: 1_000,
        said: b"as expected\n",
        status: Status::Done,
    },
    // nothing is printed, and nothing is expected
    Case {
        input: b"process p begin skip end",
        lend: Lend::Cash,
        any_order: false,
        fair: false,
        states: 1_000,
        said: b"as expected\n",
        status: Status::Done,
    },
    // a line is missing
    Case {
        input: b"process p begin print 1; print -2 end\n%%\np.0 print 1",
        lend: Lend::Banker,
        any_order: false,
        fair: false,
        states: 1_000,
        said: b"outcome 1\np ended\nprinted\np.0 print 1\np.0 print -2\nreached by\np.0 6\nnot as expected: other prints\n",
        status: Status::Unexpected,
    },
    // a line is too many
    Case {
        input: b"process p begin print 1 end\n%%\np.0 print 1\np.0 print -2\n",
        lend: Lend::Banker,
        any_order: false,
        fair: false,
        states: 1_000,
        said: b"outcome 1\np ended\nprinted\np.0 print 1\nreached by\np.0 3\nnot as expected: other prints\n",
        status: Status::Unexpected,
    },
    // a fault, after the prints that are expected
    Case {
        input: b"process p begin print 1; print 1 div 0 end\n%%\np.0 print 1\n",
        lend: Lend::Banker,
        any_order: false,
        fair: false,
        states: 1_000,
        said: b"outcome 1\np faulted\nprinted\np.0 print 1\nreached by\np.0 5\nnot as expected: a fault\n",
        status: Status::Unexpected,
    },
    // a deadlock
    Case {
        input: b"resource tape = 1; resource disk = 1;\nprocess a begin hold 1 of tape do hold 1 of disk do skip od od end\nprocess b begin hold 1 of disk do hold 1 of tape do skip od od end\n",
        lend: Lend::Cash,
        any_order: false,
        fair: false,
        states: 1_000,
        said: b"deadlock 1\na waits\na holds 1 tape\na.0 asks 1 disk\nb waits\nb holds 1 disk\nb.0 asks 1 tape\nreached by\na.0 1\nb.0 1\nnot as expected: a deadlock\n",
        status: Status::Unexpected,
    },
    // the banker avoids it
    Case {
        input: b"resource tape = 1; resource disk = 1;\nprocess a begin hold 1 of tape do hold 1 of disk do skip od od end\nprocess b begin hold 1 of disk do hold 1 of tape do skip od od end\n",
        lend: Lend::Banker,
        any_order: false,
        fair: false,
        states: 1_000,
        said: b"as expected\n",
        status: Status::Done,
    },
    // a run that does not end
    Case {
        input: b"process p begin integer x; parbegin while x = 0 do skip od; x := 1 parend; print x end\n%%\np.0 print 1\n",
        lend: Lend::Banker,
        any_order: false,
        fair: false,
        states: 1_000,
        said: b"not as expected: some run does not end\n",
        status: Status::Unexpected,
    },
    // only an unfair schedule keeps it from ending
    Case {
        input: b"process p begin integer x; parbegin while x = 0 do skip od; x := 1 parend; print x end\n%%\np.0 print 1\n",
        lend: Lend::Banker,
        any_order: false,
        fair: true,
        states: 1_000,
        said: b"as expected\n",
        status: Status::Done,
    },
    // no schedule lets it end
    Case {
        input: b"process p begin while 1 do skip od end",
        lend: Lend::Cash,
        any_order: false,
        fair: true,
        states: 1_000,
        said: b"not as expected: some fair run does not end\n",
        status: Status::Unexpected,
    },
    // two orders
    Case {
        input: b"process p begin print 1 end process q begin print 2 end\n%%\nq.0 print 2\np.0 print 1\n",
        lend: Lend::Banker,
        any_order: false,
        fair: false,
        states: 1_000,
        said: b"outcome 1\np ended\nq ended\nprinted\np.0 print 1\nq.0 print 2\nreached by\np.0 1\nq.0 1\np.0 2\nq.0 2\nnot as expected: other prints\n",
        status: Status::Unexpected,
    },
    // of which both will do
    Case {
        input: b"process p begin print 1 end process q begin print 2 end\n%%\nq.0 print 2\np.0 print 1\n",
        lend: Lend::Banker,
        any_order: true,
        fair: false,
        states: 1_000,
        said: b"as expected\n",
        status: Status::Done,
    },
    // each as often
    Case {
        input: b"process p begin print 1; print 1; print 2 end\n%%\np.0 print 2\np.0 print 1\np.0 print 2\n",
        lend: Lend::Banker,
        any_order: true,
        fair: false,
        states: 1_000,
        said: b"outcome 1\np ended\nprinted\np.0 print 1\np.0 print 1\np.0 print 2\nreached by\np.0 7\nnot as expected: other prints\n",
        status: Status::Unexpected,
    },
    // more configurations than allowed, and all that was found is as expected
    Case {
        input: b"process p begin integer x; while x = x do print x od end\n",
        lend: Lend::Banker,
        any_order: false,
        fair: false,
        states: 3,
        said: b"more than 3 configurations\n",
        status: Status::Limit,
    },
    // a line of an arm that is not there
    Case {
        input: b"process p begin print 1 end\n%%\np.0 print -9223372036854775808\np.1 print 1\n",
        lend: Lend::Banker,
        any_order: false,
        fair: false,
        states: 1_000,
        said: b"refused K1 at 31\n",
        status: Status::Refused,
    },
    // a text that is refused
    Case {
        input: b"process p begin print 1 end process\n%%\np.0 print 1\n",
        lend: Lend::Banker,
        any_order: false,
        fair: false,
        states: 1_000,
        said: b"refused P1 at 35\n",
        status: Status::Refused,
    },
];

/// Returns the options of a case.
fn options(case: &Case) -> Option<OutcomesOptions> {
    if case.states < 1 || 4_000_000 < case.states {
        return None;
    }
    Some(OutcomesOptions {
        states: case.states,
        lend: case.lend,
        first_deadlock: false,
        prints: false,
        fair: case.fair,
        expect: true,
        any_order: case.any_order,
        endless: false,
        graph: false,
        run: None,
        deadlock: None,
    })
}

/// Returns whether this is said of an input.
fn says(alloc: Global, case: &Case) -> Option<bool> {
    let mut input = MemoryInput::new(case.input);
    let mut output = MemoryOutput::new(alloc, 4_096).ok()?;
    let status = outcomes_engine(alloc, Form::Lines, options(case)?, &mut input, &mut output);
    Some(status == case.status && output.as_slice() == case.said)
}

#[test]
fn runs_are_compared(rt: HostRuntime) {
    for case in &CASES {
        assert!(rt; says(rt.alloc(), case) == Some(true));
    }
}

/// An update may be lost; and there are more configurations than any limit, and what is found is not as expected.
const OTHERS: [Case; 2] = [
    Case {
        input: b"process p begin integer x; parbegin x := x + 1; x := x + 1 parend; print x end\n%%\np.0 print 2\n",
        lend: Lend::Banker,
        any_order: false,
        fair: false,
        states: 1_000,
        said: b"\nnot as expected: other prints\n",
        status: Status::Unexpected,
    },
    Case {
        input: b"process p begin integer x; parbegin x := 1; while x = 0 do print x od parend; print x end\n%%\np.0 print 2\n",
        lend: Lend::Banker,
        any_order: true,
        fair: false,
        states: 1_000,
        said: b"\nnot as expected: other prints\n",
        status: Status::Unexpected,
    },
];

/// Returns whether what is said of an input ends so.
fn ends_so(alloc: Global, case: &Case) -> Option<bool> {
    let mut input = MemoryInput::new(case.input);
    let mut output = MemoryOutput::new(alloc, 4_096).ok()?;
    let status = outcomes_engine(alloc, Form::Lines, options(case)?, &mut input, &mut output);
    Some(status == case.status && output.as_slice().ends_with(case.said))
}

#[test]
fn what_was_found_is_compared(rt: HostRuntime) {
    for case in &OTHERS {
        assert!(rt; ends_so(rt.alloc(), case) == Some(true));
    }
}

/// Lines that are no print lines of a process `p` with one arm.
const BAD_LINES: [&[u8]; 10] = [
    b"p.0 1\n",
    b"p.0 print\n",
    b"p.0 print \n",
    b"p.0 print +1\n",
    b"p.0 print 01\n",
    b"p.0 print -0\n",
    b"p.0 print 1 \n",
    b"p.00 print 1\n",
    b"q.0 print 1\n",
    b"p.0 print 9223372036854775808\n",
];

/// Returns whether these lines are refused after a text.
fn refuses(alloc: Global, lines: &[u8]) -> Option<bool> {
    let mut bytes = Vec::from_slice(alloc, b"process p begin skip end\n%%\n").ok()?;
    bytes.extend_from_slice(lines).ok()?;
    let mut input = MemoryInput::new(&bytes);
    let mut output = MemoryOutput::new(alloc, 4_096).ok()?;
    let status = outcomes_engine(
        alloc,
        Form::Lines,
        options(&CASES[0])?,
        &mut input,
        &mut output,
    );
    Some(status == Status::Refused && output.as_slice() == b"refused K1 at 0\n".as_slice())
}

#[test]
fn bad_lines_are_refused(rt: HostRuntime) {
    for lines in &BAD_LINES {
        assert!(rt; refuses(rt.alloc(), lines) == Some(true));
    }
}

/// Returns whether nothing is said of an input of which a read fails.
fn says_nothing(alloc: Global) -> Option<bool> {
    let mut input = FaultyInput::new(CASES[0].input, 2, 8);
    let mut output = MemoryOutput::new(alloc, 64).ok()?;
    let status = outcomes_engine(
        alloc,
        Form::Lines,
        options(&CASES[0])?,
        &mut input,
        &mut output,
    );
    Some(status == Status::Device && output.as_slice().is_empty())
}

#[test]
fn a_failed_read_is_told_too(rt: HostRuntime) {
    assert!(rt; says_nothing(rt.alloc()) == Some(true));
}

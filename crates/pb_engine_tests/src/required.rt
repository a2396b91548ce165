//! What a text has to have beside its prints, and what is said if it has not.

use pb_base::{MemoryInput, MemoryOutput};
use pb_command_io::Status;
use pb_options::{Lend, OutcomesOptions};
use pb_search_engine::outcomes_engine;
use pb_voice::Form;
use std::alloc::Global;

/// The lines after a text, how the answer begins, and the status.
#[derive(Clone, Copy)]
struct Case {
    lines: &'static [u8],
    said: &'static [u8],
    status: Status,
}

/// A hold and a parbegin in the second process, which claims 2 tape; nobody claims the disk.
const TEXT: &[u8] =
    b"resource tape = 3; resource disk = 1;\nprocess p begin skip end\nprocess q begin hold 2 of tape do parbegin print 1; skip parend od end\n%%\n";

/// One process, which prints 1 and has neither a hold nor a parbegin.
const PLAIN: &[u8] = b"resource tape = 1; process p begin print 1 end\n%%\n";

const MET: [Case; 9] = [
    Case {
        lines: b"claims at least 2 tape\nhas a parbegin\nhas a hold\nclaims at least 1 tape\nq.1 print 1\n",
        said: b"as expected\n",
        status: Status::Done,
    },
    // nothing is required, and the last line has no line feed
    Case {
        lines: b"q.1 print 1",
        said: b"as expected\n",
        status: Status::Done,
    },
    // nothing is expected to be printed
    Case {
        lines: b"has a hold",
        said: b"outcome 1\np ended\nq ended\nprinted\nq.1 print 1\nreached by\n",
        status: Status::Unexpected,
    },
    // the second is not met
    Case {
        lines: b"has a hold\nclaims at least 3 tape\nq.1 print 1\n",
        said: b"not as expected: claims at least 3 tape\n",
        status: Status::Unexpected,
    },
    // neither is met
    Case {
        lines: b"claims at least 1000000 tape\nclaims at least 1 disk\nq.1 print 1\n",
        said: b"not as expected: claims at least 1000000 tape\n",
        status: Status::Unexpected,
    },
    // no process claims it
    Case {
        lines: b"claims at least 1 disk\n",
        said: b"not as expected: claims at least 1 disk\n",
        status: Status::Unexpected,
    },
    // no resource has this name
    Case {
        lines: b"has a hold\nclaims at least 1 printer\nq.1 print 1\n",
        said: b"not as expected: claims at least 1 printer\n",
        status: Status::Unexpected,
    },
    // what is required stands after a print line
    Case {
        lines: b"q.1 print 1\nhas a hold\n",
        said: b"refused K1 at 12\n",
        status: Status::Refused,
    },
    // the second line says nothing, and the first is not met
    Case {
        lines: b"claims at least 1 disk\nq.1 print one\n",
        said: b"refused K1 at 23\n",
        status: Status::Refused,
    },
];

const UNMET: [Case; 4] = [
    Case {
        lines: b"has a parbegin\np.0 print 1\n",
        said: b"not as expected: has a parbegin\n",
        status: Status::Unexpected,
    },
    Case {
        lines: b"has a hold\nhas a parbegin\np.0 print 2\n",
        said: b"not as expected: has a hold\n",
        status: Status::Unexpected,
    },
    Case {
        lines: b"claims at least 1 tape\n",
        said: b"not as expected: claims at least 1 tape\n",
        status: Status::Unexpected,
    },
    // the text has the resource `tape` alone
    Case {
        lines: b"claims at least 1 disk\np.0 print 1\n",
        said: b"not as expected: claims at least 1 disk\n",
        status: Status::Unexpected,
    },
];

/// Lines that require nothing.
const BAD_LINES: [&[u8]; 14] = [
    b"claims at least 0 tape\n",
    b"claims at least 01 tape\n",
    b"claims at least +1 tape\n",
    b"claims at least -1 tape\n",
    b"claims at least 1000001 tape\n",
    b"claims at least 18446744073709551617 tape\n",
    b"claims at least 1 ta-pe\n",
    b"claims at least 1 hold\n",
    b"claims at least 1 \n",
    b"claims at least 1  tape\n",
    b"claims at least 1 tape \n",
    b"claims at least tape\n",
    b"has a fork\n",
    b"has a hold \n",
];

/// Returns the options of the calls.
fn options() -> OutcomesOptions {
    OutcomesOptions {
        states: 1_000,
        lend: Lend::Banker,
        first_deadlock: false,
        prints: false,
        fair: false,
        expect: true,
        any_order: false,
        endless: false,
        graph: false,
        run: None,
        deadlock: None,
    }
}

/// Returns whether the answer to a text with the lines of a case begins as the case says.
fn says(alloc: Global, text: &[u8], case: &Case) -> Option<bool> {
    let mut bytes = Vec::from_slice(alloc, text).ok()?;
    bytes.extend_from_slice(case.lines).ok()?;
    let mut input = MemoryInput::new(&bytes);
    let mut output = MemoryOutput::new(alloc, 4_096).ok()?;
    let status = outcomes_engine(alloc, Form::Lines, options(), &mut input, &mut output);
    Some(status == case.status && output.as_slice().starts_with(case.said))
}

#[test]
fn what_is_required_is_there_or_told(rt: HostRuntime) {
    for case in &MET {
        assert!(rt; says(rt.alloc(), TEXT, case) == Some(true));
    }
    for case in &UNMET {
        assert!(rt; says(rt.alloc(), PLAIN, case) == Some(true));
    }
}

#[test]
fn bad_lines_are_refused(rt: HostRuntime) {
    for lines in BAD_LINES {
        let case = Case {
            lines,
            said: b"refused K1 at 0\n",
            status: Status::Refused,
        };
        assert!(rt; says(rt.alloc(), PLAIN, &case) == Some(true));
    }
}

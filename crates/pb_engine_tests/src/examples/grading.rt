//! Grading, by the calls of `examples/expected/calls.txt`. Written by checks/example_tests.py.

use crate::examples::calls::{Call, Command, first_wrong};
use pb_command_io::Status;
use pb_example_texts::grading::{DOOR, HALVES, HURRY, KEYS, OWN_PRINT, PROOF, TYPED, WAIT};
use std::test::Fail;

#[rattlefmt::skip]
const CALLS_1: [Call; 8] = [
    Call {
        name: "grading_door",
        command: Command::Run { quantum: 64, steps: 1_000_000 },
        input: DOOR,
        status: Status::Refused,
        output: b"refused C1 p door claim 2 capital 1
",
    },
    Call {
        name: "grading_halves",
        command: Command::Run { quantum: 64, steps: 1_000_000 },
        input: HALVES,
        status: Status::Done,
        output: b"p.0 print 2
p end
done
",
    },
    Call {
        name: "grading_hurry",
        command: Command::Run { quantum: 64, steps: 1_000_000 },
        input: HURRY,
        status: Status::Done,
        output: b"p.0 print 2
p end
done
",
    },
    Call {
        name: "grading_keys",
        command: Command::Run { quantum: 64, steps: 1_000_000 },
        input: KEYS,
        status: Status::Done,
        output: b"p.0 grant 1 red
p.0 grant 1 blue
p.0 return 1 blue
p.0 return 1 red
q.0 grant 1 blue
p.0 print 2
q.0 grant 1 red
p end
q.0 return 1 red
q.0 return 1 blue
q end
done
",
    },
    Call {
        name: "grading_own_print",
        command: Command::Run { quantum: 64, steps: 1_000_000 },
        input: OWN_PRINT,
        status: Status::Done,
        output: b"p.2 print 2
p end
done
",
    },
    Call {
        name: "grading_proof",
        command: Command::Run { quantum: 64, steps: 1_000_000 },
        input: PROOF,
        status: Status::Fault,
        output: b"p.0 fault divide
done
",
    },
    Call {
        name: "grading_typed",
        command: Command::Run { quantum: 64, steps: 1_000_000 },
        input: TYPED,
        status: Status::Refused,
        output: b"refused P1 at 101
",
    },
    Call {
        name: "grading_wait",
        command: Command::Run { quantum: 64, steps: 1_000_000 },
        input: WAIT,
        status: Status::Done,
        output: b"p.0 print 2
p end
done
",
    },
];

#[test]
fn are_as_expected_1(rt: HostRuntime) -> Result<(), Fail> {
    assert_eq!(rt; first_wrong(&rt, CALLS_1.as_slice()), None);
    Ok(())
}

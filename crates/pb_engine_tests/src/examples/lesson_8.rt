//! Lesson 8, by the calls of `examples/expected/calls.txt`. Written by checks/example_tests.py.

use crate::examples::calls::{Call, Command, first_wrong};
use pb_command_io::Status;
use pb_example_texts::bank::{QUEUE_COMMANDS, TABLE_COMMANDS};
use std::test::Fail;

#[rattlefmt::skip]
const CALLS_1: [Call; 2] = [
    Call {
        name: "bank_queue",
        command: Command::Bank,
        input: QUEUE_COMMANDS,
        status: Status::Done,
        output: b"ready
ready
ready
ready
granted a 1 tape
ready
queued
ready
granted b 1 tape
ready
ready
ready
granted c 1 tape
ready
ready
resource tape capital 2 cash 1
job large tape claim 2 holds 0 needs 2
job c tape claim 1 holds 1 needs 0
wish large 2 tape
ready
granted large 2 tape
ready
",
    },
    Call {
        name: "bank_table",
        command: Command::Bank,
        input: TABLE_COMMANDS,
        status: Status::Done,
        output: b"ready
ready
ready
ready
ready
ready
ready
ready
held P0 1 B
ready
held P1 2 A
ready
held P2 3 A, 2 C
ready
held P3 2 A, 1 B, 1 C
ready
held P4 2 C
ready
granted P1 1 A, 2 C
ready
wait cash A 2
ready
wait rest P0 P1 P2 P3 P4
ready
allowed
ready
ready
granted P0 2 B
ready
",
    },
];

#[test]
fn are_as_expected_1(rt: HostRuntime) -> Result<(), Fail> {
    assert_eq!(rt; first_wrong(&rt, CALLS_1.as_slice()), None);
    Ok(())
}

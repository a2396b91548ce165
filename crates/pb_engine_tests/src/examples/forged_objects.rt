//! Forged objects, by the calls of `examples/expected/calls.txt`. Written by checks/example_tests.py.

use crate::examples::calls::{Call, Command, first_wrong};
use pb_command_io::Status;
use pb_example_texts::solutions::{
    FORGED_CAPITAL_OBJECT, FORGED_GIVE_OBJECT, FORGED_INTEGER_OBJECT, FORGED_JUMP_OBJECT,
    FORGED_KEPT_OBJECT, FORGED_STACK_OBJECT, FORGED_WORD_OBJECT,
};
use std::test::Fail;

#[rattlefmt::skip]
const CALLS_1: [Call; 7] = [
    Call {
        name: "solution_forged_capital",
        command: Command::Exec { quantum: 64, steps: 1_000_000 },
        input: FORGED_CAPITAL_OBJECT,
        status: Status::Refused,
        output: b"refused V8
",
    },
    Call {
        name: "solution_forged_give",
        command: Command::Exec { quantum: 64, steps: 1_000_000 },
        input: FORGED_GIVE_OBJECT,
        status: Status::Refused,
        output: b"refused V4
",
    },
    Call {
        name: "solution_forged_integer",
        command: Command::Exec { quantum: 64, steps: 1_000_000 },
        input: FORGED_INTEGER_OBJECT,
        status: Status::Refused,
        output: b"refused V3
",
    },
    Call {
        name: "solution_forged_jump",
        command: Command::Exec { quantum: 64, steps: 1_000_000 },
        input: FORGED_JUMP_OBJECT,
        status: Status::Refused,
        output: b"refused V1
",
    },
    Call {
        name: "solution_forged_kept",
        command: Command::Exec { quantum: 64, steps: 1_000_000 },
        input: FORGED_KEPT_OBJECT,
        status: Status::Refused,
        output: b"refused V5
",
    },
    Call {
        name: "solution_forged_stack",
        command: Command::Exec { quantum: 64, steps: 1_000_000 },
        input: FORGED_STACK_OBJECT,
        status: Status::Refused,
        output: b"refused V2
",
    },
    Call {
        name: "solution_forged_word",
        command: Command::Exec { quantum: 64, steps: 1_000_000 },
        input: FORGED_WORD_OBJECT,
        status: Status::Refused,
        output: b"refused O1 at 94
",
    },
];

#[test]
fn are_as_expected_1(rt: HostRuntime) -> Result<(), Fail> {
    assert_eq!(rt; first_wrong(&rt, CALLS_1.as_slice()), None);
    Ok(())
}

//! Lesson 7, by the calls of `examples/expected/calls.txt`. Written by checks/example_tests.py.

use crate::examples::calls::{Call, Command, first_wrong};
use pb_command_io::Status;
use pb_example_texts::outcomes::SHARE;
use std::test::Fail;

#[rattlefmt::skip]
const CALLS_1: [Call; 1] = [
    Call {
        name: "share",
        command: Command::Run { quantum: 64, steps: 1_000_000 },
        input: SHARE,
        status: Status::Done,
        output: b"host end
done
",
    },
];

#[test]
fn are_as_expected_1(rt: HostRuntime) -> Result<(), Fail> {
    assert_eq!(rt; first_wrong(&rt, CALLS_1.as_slice()), None);
    Ok(())
}

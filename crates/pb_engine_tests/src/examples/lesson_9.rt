//! Lesson 9, by the calls of `examples/expected/calls.txt`. Written by checks/example_tests.py.

use crate::examples::calls::{Call, Command, first_wrong};
use pb_command_io::Status;
use pb_example_texts::claims::{ARMS_ADD, BRANCHES, TOO_MUCH};
use pb_example_texts::first::DEVICES;
use pb_example_texts::plan::{COPIES, LISTS, ROOMY, WEEK};
use std::test::Fail;

#[rattlefmt::skip]
const CALLS_1: [Call; 11] = [
    Call {
        name: "devices_plan",
        command: Command::Plan,
        input: DEVICES,
        status: Status::Done,
        output: b"a claim 1 tape lines 7
a claim 1 disk lines 7
b claim 1 tape lines 11
b claim 1 disk lines 11
tape capital 1 least 1 free 2
disk capital 1 least 1 free 2
bottleneck tape
no order
a holds tape line 7 around disk line 7
b holds disk line 11 around tape line 11
",
    },
    Call {
        name: "week_plan",
        command: Command::Plan,
        input: WEEK,
        status: Status::Done,
        output: b"backup claim 2 tape lines 6
backup claim 1 disk lines 7
sort claim 3 tape lines 14 15
sort claim 1 disk lines 16
tape capital 4 least 3 free 5
disk capital 2 least 1 free 2
bottleneck tape
order tape disk
",
    },
    Call {
        name: "roomy_plan",
        command: Command::Plan,
        input: ROOMY,
        status: Status::Done,
        output: b"backup claim 2 tape lines 6
backup claim 1 disk lines 7
sort claim 3 tape lines 14 15
sort claim 1 disk lines 16
tape capital 5 least 3 free 5
disk capital 2 least 1 free 2
no request waits
order tape disk
",
    },
    Call {
        name: "copies_plan",
        command: Command::Plan,
        input: COPIES,
        status: Status::Done,
        output: b"copy claim 2 tape lines 7
copy claim 1 disk lines 6
tape capital 2 least 2 free 2
disk capital 1 least 1 free 1
no request waits
order disk tape
",
    },
    Call {
        name: "lists_plan",
        command: Command::Plan,
        input: LISTS,
        status: Status::Done,
        output: b"list claim 1 tape lines 6
list claim 1 disk lines 7
tape capital 2 least 1 free 1
disk capital 1 least 1 free 1
no request waits
order tape disk
",
    },
    Call {
        name: "branches_plan",
        command: Command::Plan,
        input: BRANCHES,
        status: Status::Done,
        output: b"p claim 4 tape lines 7
tape capital 5 least 4 free 4
no request waits
order tape
",
    },
    Call {
        name: "arms_add_plan",
        command: Command::Plan,
        input: ARMS_ADD,
        status: Status::Done,
        output: b"p claim 6 tape lines 5 7 8
tape capital 6 least 6 free 6
no request waits
order
",
    },
    Call {
        name: "too_much_plan",
        command: Command::Plan,
        input: TOO_MUCH,
        status: Status::Refused,
        output: b"copy claim 2 tape lines 4
sort claim 5 tape lines 5 5
tape capital 4 least 5 free 7
bottleneck tape
no order
sort holds tape line 5 around tape line 5
",
    },
    Call {
        name: "devices_plan_by_cash",
        command: Command::PlanByCash,
        input: DEVICES,
        status: Status::Deadlock,
        output: b"a claim 1 tape lines 7
a claim 1 disk lines 7
b claim 1 tape lines 11
b claim 1 disk lines 11
tape capital 1 least 1 free 2
disk capital 1 least 1 free 2
bottleneck tape
no order
a holds tape line 7 around disk line 7
b holds disk line 11 around tape line 11
",
    },
    Call {
        name: "week_plan_by_cash",
        command: Command::PlanByCash,
        input: WEEK,
        status: Status::Done,
        output: b"backup claim 2 tape lines 6
backup claim 1 disk lines 7
sort claim 3 tape lines 14 15
sort claim 1 disk lines 16
tape capital 4 least 3 free 5
disk capital 2 least 1 free 2
bottleneck tape
order tape disk
",
    },
    Call {
        name: "too_much_plan_by_cash",
        command: Command::PlanByCash,
        input: TOO_MUCH,
        status: Status::Refused,
        output: b"copy claim 2 tape lines 4
sort claim 5 tape lines 5 5
tape capital 4 least 5 free 7
bottleneck tape
no order
sort holds tape line 5 around tape line 5
",
    },
];

#[test]
fn are_as_expected_1(rt: HostRuntime) -> Result<(), Fail> {
    assert_eq!(rt; first_wrong(&rt, CALLS_1.as_slice()), None);
    Ok(())
}

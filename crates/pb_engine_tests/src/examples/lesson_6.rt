//! Lesson 6, by the calls of `examples/expected/calls.txt`. Written by checks/example_tests.py.

use crate::examples::calls::{Call, Command, first_wrong};
use pb_command_io::Status;
use pb_example_texts::objects::{
    CAREFUL, CAREFUL_OBJECT, FORGED_CLAIM_OBJECT, NO_TEXT_OBJECT, SUM, SUM_OBJECT,
};
use std::test::Fail;

#[rattlefmt::skip]
const CALLS_1: [Call; 9] = [
    Call {
        name: "careful",
        command: Command::Run { quantum: 64, steps: 1_000_000 },
        input: CAREFUL,
        status: Status::Done,
        output: b"p.0 grant 1 tape
p.0 grant 1 tape
p.0 print 1
p.0 return 1 tape
p.0 return 1 tape
p end
done
",
    },
    Call {
        name: "careful_object",
        command: Command::Emit,
        input: CAREFUL,
        status: Status::Done,
        output: b"PBO 2
resources 1
resource tape 3
processes 1
process p
vars 0
arms 1
claims 2
arm 0
code 7
3 take 0 1
3 take 0 1
3 push 1
3 print
3 give 0 1
3 give 0 1
0 end
",
    },
    Call {
        name: "careful_exec",
        command: Command::Exec { quantum: 64, steps: 1_000_000 },
        input: CAREFUL_OBJECT,
        status: Status::Done,
        output: b"p.0 grant 1 tape
p.0 grant 1 tape
p.0 print 1
p.0 return 1 tape
p.0 return 1 tape
p end
done
",
    },
    Call {
        name: "sum",
        command: Command::Run { quantum: 64, steps: 1_000_000 },
        input: SUM,
        status: Status::Done,
        output: b"p.0 print 5
p end
done
",
    },
    Call {
        name: "sum_object",
        command: Command::Emit,
        input: SUM,
        status: Status::Done,
        output: b"PBO 2
resources 0
processes 1
process p
vars 1 x
arms 1
claims
arm 0
code 7
2 push 2
2 push 3
2 add
2 store 0
2 load 0
2 print
0 end
",
    },
    Call {
        name: "sum_exec",
        command: Command::Exec { quantum: 64, steps: 1_000_000 },
        input: SUM_OBJECT,
        status: Status::Done,
        output: b"p.0 print 5
p end
done
",
    },
    Call {
        name: "no_text_exec",
        command: Command::Exec { quantum: 64, steps: 1_000_000 },
        input: NO_TEXT_OBJECT,
        status: Status::Done,
        output: b"p.0 print 2
p.0 print 1
p end
done
",
    },
    Call {
        name: "forged_claim",
        command: Command::Exec { quantum: 64, steps: 1_000_000 },
        input: FORGED_CLAIM_OBJECT,
        status: Status::Refused,
        output: b"refused V7
",
    },
    Call {
        name: "sum_migrate",
        command: Command::Migrate,
        input: SUM_OBJECT,
        status: Status::Done,
        output: b"PBO 2
resources 0
processes 1
process p
vars 1 x
arms 1
claims
arm 0
code 7
2 push 2
2 push 3
2 add
2 store 0
2 load 0
2 print
0 end
",
    },
];

#[test]
fn are_as_expected_1(rt: HostRuntime) -> Result<(), Fail> {
    assert_eq!(rt; first_wrong(&rt, CALLS_1.as_slice()), None);
    Ok(())
}

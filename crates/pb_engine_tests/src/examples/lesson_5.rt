//! Lesson 5, by the calls of `examples/expected/calls.txt`. Written by checks/example_tests.py.

use crate::examples::calls::{Call, Command, first_wrong};
use pb_command_io::Status;
use pb_example_texts::deadlock::{CAUTIOUS, CIRCLE_RUN, IN_TURN, ORDERED, STEPS, TWO_PHASE};
use std::test::Fail;

#[rattlefmt::skip]
const CALLS_1: [Call; 9] = [
    Call {
        name: "cautious",
        command: Command::Run { quantum: 64, steps: 1_000_000 },
        input: CAUTIOUS,
        status: Status::Done,
        output: b"a.0 grant 1 tape
a.0 print 1
a.0 print 3
a.0 return 1 tape
b.0 grant 1 disk
a end
b.0 grant 1 tape
b.0 print 4
b.0 return 1 tape
b.0 return 1 disk
b end
done
",
    },
    Call {
        name: "in_turn",
        command: Command::Run { quantum: 64, steps: 1_000_000 },
        input: IN_TURN,
        status: Status::Done,
        output: b"deposit.0 grant 1 giro
deposit.0 print 1
deposit.0 return 1 giro
withdraw.0 grant 1 savings
withdraw.0 print 3
withdraw.0 return 1 savings
deposit.0 grant 1 savings
deposit.0 print 2
deposit.0 return 1 savings
withdraw.0 grant 1 giro
deposit end
withdraw.0 print 4
withdraw.0 return 1 giro
withdraw end
done
",
    },
    Call {
        name: "ordered",
        command: Command::Run { quantum: 64, steps: 1_000_000 },
        input: ORDERED,
        status: Status::Done,
        output: b"deposit.0 grant 1 giro
deposit.0 print 1
deposit.0 grant 1 savings
deposit.0 print 2
deposit.0 return 1 savings
deposit.0 return 1 giro
withdraw.0 grant 1 giro
deposit end
withdraw.0 print 3
withdraw.0 grant 1 savings
withdraw.0 print 4
withdraw.0 return 1 savings
withdraw.0 return 1 giro
withdraw end
done
",
    },
    Call {
        name: "two_phase",
        command: Command::Run { quantum: 64, steps: 1_000_000 },
        input: TWO_PHASE,
        status: Status::Done,
        output: b"deposit.0 grant 1 giro
deposit.0 print 1
deposit.0 grant 1 savings
deposit.0 print 2
deposit.0 return 1 savings
deposit.0 return 1 giro
withdraw.0 grant 1 savings
deposit end
withdraw.0 print 3
withdraw.0 grant 1 giro
withdraw.0 print 4
withdraw.0 return 1 giro
withdraw.0 return 1 savings
withdraw end
done
",
    },
    Call {
        name: "cautious_claims",
        command: Command::Claims,
        input: CAUTIOUS,
        status: Status::Done,
        output: b"a claim 1 tape
a claim 1 disk
b claim 1 tape
b claim 1 disk
",
    },
    Call {
        name: "in_turn_claims",
        command: Command::Claims,
        input: IN_TURN,
        status: Status::Done,
        output: b"deposit claim 1 savings
deposit claim 1 giro
withdraw claim 1 savings
withdraw claim 1 giro
",
    },
    Call {
        name: "steps",
        command: Command::Run { quantum: 64, steps: 40 },
        input: STEPS,
        status: Status::Limit,
        output: b"p.0 print 1
p.0 print 2
p.0 print 3
p.0 print 4
limit 40
",
    },
    Call {
        name: "circle",
        command: Command::ReplayByCash,
        input: CIRCLE_RUN,
        status: Status::Deadlock,
        output: b"a.0 grant 1 tape
b.0 grant 1 disk
deadlock
",
    },
    Call {
        name: "circle_refused",
        command: Command::Replay,
        input: CIRCLE_RUN,
        status: Status::Refused,
        output: b"refused H1 at 1
",
    },
];

#[test]
fn are_as_expected_1(rt: HostRuntime) -> Result<(), Fail> {
    assert_eq!(rt; first_wrong(&rt, CALLS_1.as_slice()), None);
    Ok(())
}

//! Replayed solutions, by the calls of `examples/expected/calls.txt`. Written by checks/example_tests.py.

use crate::examples::calls::{Call, Command, first_wrong};
use pb_command_io::Status;
use pb_example_texts::solutions::{
    CAUTIOUS_RUN, CUSTOMERS_B_RUN, CUSTOMERS_C_RUN, FIFTH_RUN, LOST_BY_HAND_RUN, NO_TURN_RUN,
    ORDERS_RUN, READERS_FOR_EVER_RUN,
};
use std::test::Fail;

#[rattlefmt::skip]
const CALLS_1: [Call; 8] = [
    Call {
        name: "solution_cautious_replay",
        command: Command::Replay,
        input: CAUTIOUS_RUN,
        status: Status::Refused,
        output: b"refused H1 at 1
",
    },
    Call {
        name: "solution_customers_b_replay",
        command: Command::Replay,
        input: CUSTOMERS_B_RUN,
        status: Status::Refused,
        output: b"refused H1 at 3
",
    },
    Call {
        name: "solution_customers_c_replay",
        command: Command::Replay,
        input: CUSTOMERS_C_RUN,
        status: Status::Done,
        output: b"a.0 grant 4 florin
b.0 grant 2 florin
c.0 grant 1 florin
c.0 grant 3 florin
c.0 return 3 florin
c.0 return 1 florin
c end
open
",
    },
    Call {
        name: "solution_fifth_replay",
        command: Command::Replay,
        input: FIFTH_RUN,
        status: Status::Refused,
        output: b"refused H1 at 4
",
    },
    Call {
        name: "solution_lost_by_hand_replay",
        command: Command::Replay,
        input: LOST_BY_HAND_RUN,
        status: Status::Done,
        output: b"p.0 print 1
p end
done
",
    },
    Call {
        name: "solution_no_turn_replay",
        command: Command::Replay,
        input: NO_TURN_RUN,
        status: Status::Done,
        output: b"open
",
    },
    Call {
        name: "solution_orders_replay",
        command: Command::Replay,
        input: ORDERS_RUN,
        status: Status::Done,
        output: b"p.2 print 10
p.2 print 20
p.1 print 1
p.1 print 2
p.0 print 100
p end
done
",
    },
    Call {
        name: "solution_readers_replay",
        command: Command::Replay,
        input: READERS_FOR_EVER_RUN,
        status: Status::Done,
        output: b"reader1.0 grant 1 permit
reader2.0 grant 1 permit
reader1.0 print 1
reader1.0 return 1 permit
reader1.0 grant 1 permit
reader2.0 print 2
reader2.0 return 1 permit
reader2.0 grant 1 permit
reader1.0 print 1
reader1.0 return 1 permit
reader1.0 grant 1 permit
reader2.0 print 2
reader2.0 return 1 permit
reader2.0 grant 1 permit
reader1.0 print 1
reader1.0 return 1 permit
reader1.0 grant 1 permit
reader2.0 print 2
reader2.0 return 1 permit
reader2.0 grant 1 permit
open
",
    },
];

#[test]
fn are_as_expected_1(rt: HostRuntime) -> Result<(), Fail> {
    assert_eq!(rt; first_wrong(&rt, CALLS_1.as_slice()), None);
    Ok(())
}

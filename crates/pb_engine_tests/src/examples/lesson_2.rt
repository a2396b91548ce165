//! Lesson 2, by the calls of `examples/expected/calls.txt`. Written by checks/example_tests.py.

use crate::examples::calls::{Call, Command, first_wrong};
use pb_command_io::Status;
use pb_example_texts::updates::{COUNTERS, COUNTERS_TWO_RUN, PETERSON, PRODUCER_CONSUMER};
use std::test::Fail;

#[rattlefmt::skip]
const CALLS_1: [Call; 6] = [
    Call {
        name: "counters",
        command: Command::Run { quantum: 64, steps: 1_000_000 },
        input: COUNTERS,
        status: Status::Done,
        output: b"counters.0 print 6
counters end
done
",
    },
    Call {
        name: "peterson",
        command: Command::Run { quantum: 64, steps: 1_000_000 },
        input: PETERSON,
        status: Status::Done,
        output: b"peterson.0 print 6
peterson end
done
",
    },
    Call {
        name: "producer_consumer",
        command: Command::Run { quantum: 64, steps: 1_000_000 },
        input: PRODUCER_CONSUMER,
        status: Status::Done,
        output: b"copy.1 grant 1 reader
copy.2 grant 1 printer
copy.2 print 1
copy.2 print 4
copy.2 print 9
copy.1 return 1 reader
copy.2 print 16
copy.2 return 1 printer
copy end
done
",
    },
    Call {
        name: "counters_quantum_1",
        command: Command::Run { quantum: 1, steps: 1_000_000 },
        input: COUNTERS,
        status: Status::Done,
        output: b"counters.0 print 3
counters end
done
",
    },
    Call {
        name: "counters_two",
        command: Command::Replay,
        input: COUNTERS_TWO_RUN,
        status: Status::Done,
        output: b"counters.0 print 2
counters end
done
",
    },
    Call {
        name: "peterson_quantum_1",
        command: Command::Run { quantum: 1, steps: 1_000_000 },
        input: PETERSON,
        status: Status::Done,
        output: b"peterson.0 print 6
peterson end
done
",
    },
];

#[test]
fn are_as_expected_1(rt: HostRuntime) -> Result<(), Fail> {
    assert_eq!(rt; first_wrong(&rt, CALLS_1.as_slice()), None);
    Ok(())
}

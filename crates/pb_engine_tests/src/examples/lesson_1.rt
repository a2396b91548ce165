//! Lesson 1, by the calls of `examples/expected/calls.txt`. Written by checks/example_tests.py.

use crate::examples::calls::{Call, Command, first_wrong};
use pb_command_io::Status;
use pb_example_texts::arms::{FAULT, NESTED, ORDERS, SUMS};
use std::test::Fail;

#[rattlefmt::skip]
const CALLS_1: [Call; 5] = [
    Call {
        name: "fault",
        command: Command::Run { quantum: 64, steps: 1_000_000 },
        input: FAULT,
        status: Status::Fault,
        output: b"sound.0 print 6
broken.1 grant 1 tape
broken.2 fault divide
sound.0 grant 2 tape
sound.0 print 7
sound.0 return 2 tape
sound end
done
",
    },
    Call {
        name: "nested",
        command: Command::Run { quantum: 64, steps: 1_000_000 },
        input: NESTED,
        status: Status::Done,
        output: b"p.2 print 4
p.3 print 1
p.4 print 2
p.1 print 3
p.0 print 5
p end
done
",
    },
    Call {
        name: "orders",
        command: Command::Run { quantum: 64, steps: 1_000_000 },
        input: ORDERS,
        status: Status::Done,
        output: b"p.1 print 1
p.2 print 10
p.1 print 2
p.2 print 20
p.0 print 100
p end
done
",
    },
    Call {
        name: "sums",
        command: Command::Run { quantum: 64, steps: 1_000_000 },
        input: SUMS,
        status: Status::Done,
        output: b"sums.0 print 5050
sums end
done
",
    },
    Call {
        name: "orders_seed_3",
        command: Command::Record { seed: 3 },
        input: ORDERS,
        status: Status::Done,
        output: b"// Two arms print twice each. Within an arm the order is fixed, between the arms it is not: six orders are possible,
// and each seed of `record --seed` draws one of them.
process p
begin
  parbegin
    begin print 1; print 2 end;
    begin print 10; print 20 end
  parend;
  print 100
end
%%
p.0 1
p.1 2
p.2 1
p.1 3
p.2 4
p.0 4
",
    },
];

#[test]
fn are_as_expected_1(rt: HostRuntime) -> Result<(), Fail> {
    assert_eq!(rt; first_wrong(&rt, CALLS_1.as_slice()), None);
    Ok(())
}

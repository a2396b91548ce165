//! The first examples, by the calls of `examples/expected/calls.txt`. Written by checks/example_tests.py.

use crate::examples::calls::{Call, Command, first_wrong};
use pb_command_io::Status;
use pb_example_texts::first::{
    CLOCK, CUSTOMERS, DEVICES, EDGES, HELLO, LOST, LOST_RUN, PHILOSOPHERS, ROUNDS, TOGETHER,
};
use std::test::Fail;

#[rattlefmt::skip]
const CALLS_1: [Call; 14] = [
    Call {
        name: "clock",
        command: Command::Run { quantum: 64, steps: 1_000_000 },
        input: CLOCK,
        status: Status::Done,
        output: b"clock.0 print 27
clock.0 print 26
clock.0 print 5
clock end
done
",
    },
    Call {
        name: "customers",
        command: Command::Run { quantum: 64, steps: 1_000_000 },
        input: CUSTOMERS,
        status: Status::Done,
        output: b"a.0 grant 4 florin
b.0 grant 2 florin
c.0 grant 1 florin
c.0 grant 3 florin
c.0 return 3 florin
c.0 return 1 florin
a.0 grant 4 florin
c end
a.0 return 4 florin
b.0 grant 1 florin
a.0 return 4 florin
b.0 grant 3 florin
a end
b.0 return 3 florin
b.0 return 1 florin
b.0 return 2 florin
b end
done
",
    },
    Call {
        name: "devices",
        command: Command::Run { quantum: 64, steps: 1_000_000 },
        input: DEVICES,
        status: Status::Done,
        output: b"a.0 grant 1 tape
a.0 grant 1 disk
a.0 print 1
a.0 return 1 disk
a.0 return 1 tape
b.0 grant 1 disk
a end
b.0 grant 1 tape
b.0 print 2
b.0 return 1 tape
b.0 return 1 disk
b end
done
",
    },
    Call {
        name: "devices_by_cash",
        command: Command::RecordByCash { seed: 3 },
        input: DEVICES,
        status: Status::Deadlock,
        output: b"// Two jobs want the same tape and the same disk, in opposite order. Taken one by one, each could end up with one
// device in its hands, waiting for the other: the banker never lets it come to that.
resource tape = 1;
resource disk = 1;
process a
begin
  hold 1 of tape do hold 1 of disk do print 1 od od
end
process b
begin
  hold 1 of disk do hold 1 of tape do print 2 od od
end
%%
b.0 1
a.0 1
",
    },
    Call {
        name: "edges",
        command: Command::Run { quantum: 64, steps: 1_000_000 },
        input: EDGES,
        status: Status::Fault,
        output: b"edges.0 print -9223372036854775808
edges.0 print 0
edges.0 print -3
edges.0 print -1
edges.0 print 1
edges.0 fault overflow
done
",
    },
    Call {
        name: "hello",
        command: Command::Run { quantum: 64, steps: 1_000_000 },
        input: HELLO,
        status: Status::Done,
        output: b"p.0 print 1
p end
done
",
    },
    Call {
        name: "lost",
        command: Command::Run { quantum: 64, steps: 1_000_000 },
        input: LOST,
        status: Status::Done,
        output: b"p.0 print 2
p end
done
",
    },
    Call {
        name: "philosophers",
        command: Command::Run { quantum: 64, steps: 1_000_000 },
        input: PHILOSOPHERS,
        status: Status::Done,
        output: b"hypatia.0 grant 1 north
plato.0 grant 1 east
plato.0 grant 1 west
plato.0 print 1
plato.0 return 1 west
plato.0 return 1 east
spinoza.0 grant 1 west
hypatia.0 grant 1 east
hypatia.0 print 1
hypatia.0 return 1 east
hypatia.0 return 1 north
plato.0 grant 1 east
spinoza.0 grant 1 north
spinoza.0 print 1
spinoza.0 return 1 north
spinoza.0 return 1 west
hypatia.0 grant 1 north
plato.0 grant 1 west
plato.0 print 2
plato.0 return 1 west
plato.0 return 1 east
spinoza.0 grant 1 west
hypatia.0 grant 1 east
plato end
hypatia.0 print 2
hypatia.0 return 1 east
hypatia.0 return 1 north
spinoza.0 grant 1 north
hypatia end
spinoza.0 print 2
spinoza.0 return 1 north
spinoza.0 return 1 west
spinoza end
done
",
    },
    Call {
        name: "rounds",
        command: Command::Run { quantum: 64, steps: 1_000_000 },
        input: ROUNDS,
        status: Status::Done,
        output: b"p.1 print 0
p.2 print 10
p.1 print 1
p.2 print 11
p.1 print 2
p.2 print 12
p end
done
",
    },
    Call {
        name: "together",
        command: Command::Run { quantum: 64, steps: 1_000_000 },
        input: TOGETHER,
        status: Status::Done,
        output: b"a.0 grant 1 tape 1 disk
a.0 print 1
a.0 return 1 tape 1 disk
b.0 grant 1 disk 1 tape
a end
b.0 print 2
b.0 return 1 disk 1 tape
b end
done
",
    },
    Call {
        name: "customers_claims",
        command: Command::Claims,
        input: CUSTOMERS,
        status: Status::Done,
        output: b"a claim 8 florin
b claim 6 florin
c claim 4 florin
",
    },
    Call {
        name: "lost_recorded",
        command: Command::Replay,
        input: LOST_RUN,
        status: Status::Done,
        output: b"p.0 print 1
p end
done
",
    },
    Call {
        name: "lost_seed_5",
        command: Command::Record { seed: 5 },
        input: LOST,
        status: Status::Done,
        output: b"// Two arms add one to the same integer. To read it and to assign to it are two steps, so if both arms read it before
// either assigns, one of the two additions is lost. `run` goes arm by arm and loses none; the run of lost.run loses one.
process p
begin
  integer x;
  parbegin
    x := x + 1;
    x := x + 1
  parend;
  print x
end
%%
p.0 1
p.2 2
p.1 5
p.2 3
p.0 4
",
    },
    Call {
        name: "lost_quantum_1",
        command: Command::Run { quantum: 1, steps: 1_000_000 },
        input: LOST,
        status: Status::Done,
        output: b"p.0 print 1
p end
done
",
    },
];

#[test]
fn are_as_expected_1(rt: HostRuntime) -> Result<(), Fail> {
    assert_eq!(rt; first_wrong(&rt, CALLS_1.as_slice()), None);
    Ok(())
}

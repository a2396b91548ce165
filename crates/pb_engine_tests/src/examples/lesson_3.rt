//! Lesson 3, by the calls of `examples/expected/calls.txt`. Written by checks/example_tests.py.

use crate::examples::calls::{Call, Command, first_wrong};
use pb_command_io::Status;
use pb_example_texts::banker::{
    BARBER, BOUNDED_BUFFER, FIVE_PHILOSOPHERS, READERS_WRITERS, WAITS, WAITS_REFUSED_RUN,
};
use std::test::Fail;

#[rattlefmt::skip]
const CALLS_1: [Call; 6] = [
    Call {
        name: "barber",
        command: Command::Run { quantum: 64, steps: 1_000_000 },
        input: BARBER,
        status: Status::Done,
        output: b"ann.0 grant 1 place
ben.0 grant 1 place
cleo.0 grant 1 place
ann.0 grant 1 barber
ann.0 print 1
ann.0 return 1 barber
ben.0 grant 1 barber
ann.0 return 1 place
ben.0 print 2
dan.0 grant 1 place
ann end
ben.0 return 1 barber
cleo.0 grant 1 barber
ben.0 return 1 place
cleo.0 print 3
ben end
cleo.0 return 1 barber
dan.0 grant 1 barber
cleo.0 return 1 place
dan.0 print 4
cleo end
dan.0 return 1 barber
dan.0 return 1 place
dan end
done
",
    },
    Call {
        name: "bounded_buffer",
        command: Command::Run { quantum: 64, steps: 1_000_000 },
        input: BOUNDED_BUFFER,
        status: Status::Done,
        output: b"first.0 grant 1 slot
second.0 grant 1 slot
first.0 grant 1 maker
first.0 print 1
first.0 return 1 maker
second.0 grant 1 maker
second.0 print 2
second.0 return 1 maker
first.0 grant 1 user
first.0 print 10
first.0 return 1 user
second.0 grant 1 user
first.0 return 1 slot
second.0 print 20
third.0 grant 1 slot
first end
second.0 return 1 user
third.0 grant 1 maker
second.0 return 1 slot
third.0 print 3
second end
third.0 return 1 maker
third.0 grant 1 user
third.0 print 30
third.0 return 1 user
third.0 return 1 slot
third end
done
",
    },
    Call {
        name: "five_philosophers",
        command: Command::Run { quantum: 64, steps: 1_000_000 },
        input: FIVE_PHILOSOPHERS,
        status: Status::Done,
        output: b"one.0 grant 1 fork1
two.0 grant 1 fork2
three.0 grant 1 fork3
four.0 grant 1 fork4
four.0 grant 1 fork5
four.0 print 4
four.0 return 1 fork5
four.0 return 1 fork4
five.0 grant 1 fork5
three.0 grant 1 fork4
four end
three.0 print 3
three.0 return 1 fork4
three.0 return 1 fork3
two.0 grant 1 fork3
three end
two.0 print 2
two.0 return 1 fork3
two.0 return 1 fork2
one.0 grant 1 fork2
two end
one.0 print 1
one.0 return 1 fork2
one.0 return 1 fork1
five.0 grant 1 fork1
one end
five.0 print 5
five.0 return 1 fork1
five.0 return 1 fork5
five end
done
",
    },
    Call {
        name: "readers_writers",
        command: Command::Run { quantum: 64, steps: 1_000_000 },
        input: READERS_WRITERS,
        status: Status::Done,
        output: b"reader1.0 grant 1 permit
reader2.0 grant 1 permit
reader3.0 grant 1 permit
reader1.0 print 1
reader2.0 print 2
reader3.0 print 3
reader1.0 return 1 permit
reader2.0 return 1 permit
reader3.0 return 1 permit
reader1 end
writer.0 grant 3 permit
reader2 end
reader3 end
writer.0 print 9
writer.0 return 3 permit
writer end
done
",
    },
    Call {
        name: "waits",
        command: Command::Run { quantum: 64, steps: 1_000_000 },
        input: WAITS,
        status: Status::Done,
        output: b"a.0 grant 1 florin
a.0 print 1
a.0 grant 2 florin
a.0 print 2
a.0 return 2 florin
a.0 return 1 florin
b.0 grant 1 florin
a end
b.0 print 3
b.0 grant 2 florin
b.0 print 4
b.0 return 2 florin
b.0 return 1 florin
b end
done
",
    },
    Call {
        name: "waits_refused",
        command: Command::Replay,
        input: WAITS_REFUSED_RUN,
        status: Status::Refused,
        output: b"refused H1 at 1
",
    },
];

#[test]
fn are_as_expected_1(rt: HostRuntime) -> Result<(), Fail> {
    assert_eq!(rt; first_wrong(&rt, CALLS_1.as_slice()), None);
    Ok(())
}

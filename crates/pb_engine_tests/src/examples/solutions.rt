//! Solutions, by the calls of `examples/expected/calls.txt`. Written by checks/example_tests.py.

use crate::examples::calls::{Call, Command, first_wrong};
use pb_command_io::Status;
use pb_example_texts::solutions::{
    BY_HAND, CAUTIOUS_ORDERED, DOOR, IN_TURN_SPLIT, MENDED, NO_TURN, PHILOSOPHERS_ORDERED,
    READERS_FOR_EVER, ROUNDS_ALONE, SHARE_AFTER, SORT_FITS, THREE_ORDERS, THREE_OUTCOMES,
    TWO_READERS, WAITS_FOUR,
};
use std::test::Fail;

#[rattlefmt::skip]
const CALLS_1: [Call; 14] = [
    Call {
        name: "solution_by_hand",
        command: Command::Run { quantum: 64, steps: 1_000_000 },
        input: BY_HAND,
        status: Status::Done,
        output: b"p.0 grant 1 tape
p.1 grant 1 tape
p.2 grant 2 tape 1 disk
p.1 print 2
p.2 print 3
p.1 return 1 tape
p.2 return 2 tape 1 disk
p.0 return 1 tape
p.0 grant 3 tape
p.0 print 4
p.0 return 3 tape
p end
done
",
    },
    Call {
        name: "solution_cautious_ordered",
        command: Command::Run { quantum: 64, steps: 1_000_000 },
        input: CAUTIOUS_ORDERED,
        status: Status::Done,
        output: b"a.0 grant 1 tape
a.0 print 1
a.0 print 3
a.0 return 1 tape
b.0 grant 1 tape
a end
b.0 grant 1 disk
b.0 print 4
b.0 return 1 disk
b.0 return 1 tape
b end
done
",
    },
    Call {
        name: "solution_door",
        command: Command::Run { quantum: 64, steps: 1_000_000 },
        input: DOOR,
        status: Status::Refused,
        output: b"refused C1 p door claim 2 capital 1
",
    },
    Call {
        name: "solution_in_turn_split",
        command: Command::Run { quantum: 64, steps: 1_000_000 },
        input: IN_TURN_SPLIT,
        status: Status::Done,
        output: b"deposit1.0 grant 1 giro
deposit2.0 grant 1 savings
deposit1.0 print 1
deposit2.0 print 2
deposit1.0 return 1 giro
deposit2.0 return 1 savings
withdraw1.0 grant 1 savings
withdraw2.0 grant 1 giro
deposit1 end
deposit2 end
withdraw1.0 print 3
withdraw2.0 print 4
withdraw1.0 return 1 savings
withdraw2.0 return 1 giro
withdraw1 end
withdraw2 end
done
",
    },
    Call {
        name: "solution_mended",
        command: Command::Run { quantum: 64, steps: 1_000_000 },
        input: MENDED,
        status: Status::Done,
        output: b"p.0 print 2
p end
done
",
    },
    Call {
        name: "solution_no_turn",
        command: Command::Run { quantum: 1, steps: 5_000 },
        input: NO_TURN,
        status: Status::Limit,
        output: b"limit 5000
",
    },
    Call {
        name: "solution_philosophers_ordered",
        command: Command::Run { quantum: 64, steps: 1_000_000 },
        input: PHILOSOPHERS_ORDERED,
        status: Status::Done,
        output: b"one.0 grant 1 fork1
two.0 grant 1 fork2
three.0 grant 1 fork3
four.0 grant 1 fork4
four.0 grant 1 fork5
four.0 print 4
four.0 return 1 fork5
four.0 return 1 fork4
three.0 grant 1 fork4
four end
three.0 print 3
three.0 return 1 fork4
three.0 return 1 fork3
two.0 grant 1 fork3
three end
two.0 print 2
two.0 return 1 fork3
two.0 return 1 fork2
one.0 grant 1 fork2
two end
one.0 print 1
one.0 return 1 fork2
one.0 return 1 fork1
five.0 grant 1 fork1
one end
five.0 grant 1 fork5
five.0 print 5
five.0 return 1 fork5
five.0 return 1 fork1
five end
done
",
    },
    Call {
        name: "solution_readers_for_ever",
        command: Command::Run { quantum: 64, steps: 60 },
        input: READERS_FOR_EVER,
        status: Status::Limit,
        output: b"reader1.0 grant 1 permit
reader2.0 grant 1 permit
reader1.0 print 1
reader2.0 print 2
reader1.0 return 1 permit
reader2.0 return 1 permit
writer.0 grant 2 permit
writer.0 print 9
writer.0 return 2 permit
reader1.0 grant 1 permit
reader2.0 grant 1 permit
writer end
reader1.0 print 1
reader2.0 print 2
reader1.0 return 1 permit
reader2.0 return 1 permit
reader1.0 grant 1 permit
reader2.0 grant 1 permit
reader1.0 print 1
reader2.0 print 2
reader1.0 return 1 permit
reader2.0 return 1 permit
reader1.0 grant 1 permit
reader2.0 grant 1 permit
reader1.0 print 1
reader2.0 print 2
reader1.0 return 1 permit
reader2.0 return 1 permit
limit 60
",
    },
    Call {
        name: "solution_rounds_alone",
        command: Command::Run { quantum: 64, steps: 1_000_000 },
        input: ROUNDS_ALONE,
        status: Status::Done,
        output: b"p.1 print 0
p.2 print 10
p.1 print 1
p.2 print 11
p.1 print 2
p.2 print 12
p end
done
",
    },
    Call {
        name: "solution_share_after",
        command: Command::Run { quantum: 64, steps: 1_000_000 },
        input: SHARE_AFTER,
        status: Status::Done,
        output: b"host end
done
",
    },
    Call {
        name: "solution_sort_fits",
        command: Command::Run { quantum: 64, steps: 1_000_000 },
        input: SORT_FITS,
        status: Status::Done,
        output: b"copy.0 grant 2 tape
sort.0 grant 2 tape
copy.0 print 1
sort.0 print 2
copy.0 return 2 tape
sort.0 return 2 tape
copy end
sort.0 grant 3 tape
sort.0 print 3
sort.0 return 3 tape
sort end
done
",
    },
    Call {
        name: "solution_three_outcomes",
        command: Command::Run { quantum: 64, steps: 1_000_000 },
        input: THREE_OUTCOMES,
        status: Status::Done,
        output: b"p end
done
",
    },
    Call {
        name: "solution_three_orders",
        command: Command::Run { quantum: 64, steps: 1_000_000 },
        input: THREE_ORDERS,
        status: Status::Done,
        output: b"p.1 print 1
p.2 print 3
p.1 print 2
p end
done
",
    },
    Call {
        name: "solution_two_readers",
        command: Command::Run { quantum: 64, steps: 1_000_000 },
        input: TWO_READERS,
        status: Status::Done,
        output: b"reader1.0 grant 1 permit
reader2.0 grant 1 permit
reader1.0 print 1
reader2.0 print 2
reader1.0 return 1 permit
reader2.0 return 1 permit
reader3.0 grant 1 permit
reader1 end
reader2 end
reader3.0 print 3
reader3.0 return 1 permit
writer.0 grant 2 permit
reader3 end
writer.0 print 9
writer.0 return 2 permit
writer end
done
",
    },
];

#[test]
fn are_as_expected_1(rt: HostRuntime) -> Result<(), Fail> {
    assert_eq!(rt; first_wrong(&rt, CALLS_1.as_slice()), None);
    Ok(())
}

#[rattlefmt::skip]
const CALLS_2: [Call; 3] = [
    Call {
        name: "solution_waits_four",
        command: Command::Run { quantum: 64, steps: 1_000_000 },
        input: WAITS_FOUR,
        status: Status::Done,
        output: b"a.0 grant 1 florin
b.0 grant 1 florin
a.0 print 1
b.0 print 3
a.0 grant 2 florin
a.0 print 2
a.0 return 2 florin
b.0 grant 2 florin
a.0 return 1 florin
b.0 print 4
a end
b.0 return 2 florin
b.0 return 1 florin
b end
done
",
    },
    Call {
        name: "solution_by_hand_claims",
        command: Command::Claims,
        input: BY_HAND,
        status: Status::Done,
        output: b"p claim 4 tape
p claim 2 disk
",
    },
    Call {
        name: "solution_sort_fits_claims",
        command: Command::Claims,
        input: SORT_FITS,
        status: Status::Done,
        output: b"copy claim 2 tape
sort claim 3 tape
",
    },
];

#[test]
fn are_as_expected_2(rt: HostRuntime) -> Result<(), Fail> {
    assert_eq!(rt; first_wrong(&rt, CALLS_2.as_slice()), None);
    Ok(())
}

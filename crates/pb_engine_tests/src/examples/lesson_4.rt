//! Lesson 4, by the calls of `examples/expected/calls.txt`. Written by checks/example_tests.py.

use crate::examples::calls::{Call, Command, first_wrong};
use pb_command_io::Status;
use pb_example_texts::claims::{ARMS_ADD, BRANCHES, NIGHT, TOO_MUCH};
use std::test::Fail;

#[rattlefmt::skip]
const CALLS_1: [Call; 8] = [
    Call {
        name: "arms_add",
        command: Command::Run { quantum: 64, steps: 1_000_000 },
        input: ARMS_ADD,
        status: Status::Done,
        output: b"p.0 grant 1 tape
p.1 grant 2 tape
p.2 grant 3 tape
p.1 print 2
p.2 print 3
p.1 return 2 tape
p.2 return 3 tape
p.0 return 1 tape
p end
done
",
    },
    Call {
        name: "arms_add_claims",
        command: Command::Claims,
        input: ARMS_ADD,
        status: Status::Done,
        output: b"p claim 6 tape
",
    },
    Call {
        name: "branches",
        command: Command::Run { quantum: 64, steps: 1_000_000 },
        input: BRANCHES,
        status: Status::Done,
        output: b"p.0 grant 2 tape
p.0 print 2
p.0 return 2 tape
p.0 grant 3 tape
p.0 print 3
p.0 return 3 tape
p end
done
",
    },
    Call {
        name: "branches_claims",
        command: Command::Claims,
        input: BRANCHES,
        status: Status::Done,
        output: b"p claim 4 tape
",
    },
    Call {
        name: "night",
        command: Command::Run { quantum: 64, steps: 1_000_000 },
        input: NIGHT,
        status: Status::Done,
        output: b"backup.0 grant 2 tape 1 disk
payroll.0 grant 1 tape
sort.0 grant 1 disk
ledger.0 grant 1 disk 1 printer
letters.0 grant 1 printer
backup.0 print 1
payroll.0 print 2
ledger.0 print 6
stock.1 grant 1 tape
letters.0 print 101
backup.0 return 2 tape 1 disk
merge.0 grant 2 tape
ledger.0 return 1 disk 1 printer
stock.2 grant 1 disk
letters.0 return 1 printer
backup end
payroll.0 grant 1 printer
merge.0 grant 1 disk
ledger end
stock.1 print 9
letters.0 grant 1 printer
payroll.0 print 3
merge.0 print 5
stock.2 print 10
letters.0 print 102
payroll.0 return 1 printer
merge.0 return 1 disk
stock.1 return 1 tape
letters.0 return 1 printer
payroll.0 return 1 tape
merge.0 return 2 tape
labels.0 grant 2 printer
stock.2 return 1 disk
payroll end
sort.0 grant 3 tape
merge end
labels.0 print 7
archive.0 grant 2 disk
sort.0 print 4
labels.0 return 2 printer
letters.0 grant 1 printer
sort.0 return 3 tape
labels end
archive.0 grant 2 tape
stock.0 grant 1 printer
letters.0 print 103
sort.0 return 1 disk
archive.0 print 8
stock.0 print 11
letters.0 return 1 printer
sort end
archive.0 return 2 tape
stock.0 return 1 printer
letters end
archive.0 return 2 disk
stock end
audit.0 grant 3 disk
archive end
audit.0 grant 1 printer
audit.0 print 12
audit.0 return 1 printer
audit.0 return 3 disk
audit end
done
",
    },
    Call {
        name: "night_claims",
        command: Command::Claims,
        input: NIGHT,
        status: Status::Done,
        output: b"backup claim 2 tape
backup claim 1 disk
backup claim 0 printer
payroll claim 1 tape
payroll claim 0 disk
payroll claim 1 printer
sort claim 3 tape
sort claim 1 disk
sort claim 0 printer
merge claim 2 tape
merge claim 1 disk
merge claim 0 printer
ledger claim 0 tape
ledger claim 1 disk
ledger claim 1 printer
labels claim 0 tape
labels claim 0 disk
labels claim 2 printer
archive claim 2 tape
archive claim 2 disk
archive claim 0 printer
stock claim 1 tape
stock claim 1 disk
stock claim 1 printer
letters claim 0 tape
letters claim 0 disk
letters claim 1 printer
audit claim 0 tape
audit claim 3 disk
audit claim 1 printer
",
    },
    Call {
        name: "too_much",
        command: Command::Run { quantum: 64, steps: 1_000_000 },
        input: TOO_MUCH,
        status: Status::Refused,
        output: b"refused C1 sort tape claim 5 capital 4
",
    },
    Call {
        name: "too_much_claims",
        command: Command::Claims,
        input: TOO_MUCH,
        status: Status::Done,
        output: b"copy claim 2 tape
sort claim 5 tape
",
    },
];

#[test]
fn are_as_expected_1(rt: HostRuntime) -> Result<(), Fail> {
    assert_eq!(rt; first_wrong(&rt, CALLS_1.as_slice()), None);
    Ok(())
}

//! Objects, run.

use crate::calls::{Call, Case, Given, first_wrong};
use crate::objects::FIRST;
use pb_command_io::Status;
use pb_engines::RunOptions;

/// At most seven picks, by one worker.
const SEVEN: Call = Call::Exec(RunOptions {
    workers: 1,
    quantum: 64,
    steps: 7,
});

/// Prints 1 again and again.
const ENDLESS: &[u8] = b"PBO 1
resources 0
processes 1
process p
vars 0
arms 1
claims
arm 0
code 3
push 1
print
jump 0
";

/// Takes more than it claims.
const OVER: &[u8] = b"PBO 1
resources 1
resource t 9
processes 1
process p
vars 0
arms 1
claims 1
arm 0
code 3
take 0 2
give 0 2
end
";

const CASES: [Case; 3] = [
    (
        SEVEN,
        Given::Text(FIRST),
        Status::Done,
        b"p.0 print 5\np end\ndone\n",
    ),
    (
        SEVEN,
        Given::Text(ENDLESS),
        Status::Limit,
        b"p.0 print 1\np.0 print 1\nlimit 7\n",
    ),
    (SEVEN, Given::Text(OVER), Status::Refused, b"refused V7\n"),
];

#[test]
fn runs_objects(rt: HostRuntime) {
    assert!(rt; first_wrong(&rt, &CASES) == None);
}

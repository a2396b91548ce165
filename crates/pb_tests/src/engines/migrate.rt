//! Objects, written in the second format.

use crate::calls::{Call, Case, Given, first_wrong};
use crate::objects::{FIRST, MOVED, SECOND};
use pb_command_io::Status;

const MIGRATED: [Case; 3] = [
    (Call::Migrate, Given::Text(FIRST), Status::Done, MOVED),
    (Call::Migrate, Given::Text(MOVED), Status::Done, MOVED),
    (Call::Migrate, Given::Text(SECOND), Status::Done, SECOND),
];

#[test]
fn writes_the_second_format(rt: HostRuntime) {
    assert!(rt; first_wrong(&rt, &MIGRATED) == None);
}

/// Jumps out of its code.
const JUMPS_OUT: &[u8] = b"PBO 1
resources 0
processes 1
process p
vars 0
arms 1
claims
arm 0
code 2
jump 2
end
";

/// Has 65 integers.
const TOO_MANY: &[u8] = b"PBO 1
resources 0
processes 1
process p
vars 65
arms 1
claims
arm 0
code 1
end
";

/// `FIRST` without its last line feed.
const NOT_ENDED: &[u8] = b"PBO 1
resources 0
processes 1
process p
vars 1
arms 1
claims
arm 0
code 7
push 2
push 3
add
store 0
load 0
print
end";

const REFUSED: [Case; 4] = [
    (
        Call::Migrate,
        Given::Text(JUMPS_OUT),
        Status::Refused,
        b"refused V1\n",
    ),
    (
        Call::Migrate,
        Given::Text(TOO_MANY),
        Status::Refused,
        b"refused O2 at 40\n",
    ),
    (
        Call::Migrate,
        Given::Text(NOT_ENDED),
        Status::Refused,
        b"refused O1 at 113\n",
    ),
    (
        Call::Migrate,
        Given::Text(b""),
        Status::Refused,
        b"refused O1 at 0\n",
    ),
];

#[test]
fn refuses_objects(rt: HostRuntime) {
    assert!(rt; first_wrong(&rt, &REFUSED) == None);
}

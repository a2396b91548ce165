//! Inputs of several texts, checked.

use crate::calls::{CHECK, Call, Case, Given, first_wrong};
use pb_command_io::Status;
use pb_engines::CheckOptions;
use pb_example_texts::first::HELLO;

/// Two texts, of which the second is empty.
const AN_EMPTY_PART: &[u8] = b"process p begin skip end\n%%\n";

/// Three texts, two of them with marks in their lines.
const MARKS_IN_LINES: &[u8] = b"%%
process p begin skip end
%%\r
%%
process p begin while 1 do skip od end%%";

/// Trees in a heap of 1,024 bytes.
const SMALL: Call = Call::Check(CheckOptions {
    heap: Some(1_024),
    warn: false,
});

/// Trees in a heap of 1,048,576 bytes.
const LARGE: Call = Call::Check(CheckOptions {
    heap: Some(1_048_576),
    warn: false,
});

/// A thousand prints.
const PRINTS: Given = Given::Pieces(&[
    (b"process p begin print 1", 1),
    (b"; print 1", 999),
    (b" end", 1),
]);

const PARTS: [Case; 3] = [
    (CHECK, Given::Text(HELLO), Status::Done, b"ok\n"),
    (
        CHECK,
        Given::Text(AN_EMPTY_PART),
        Status::Refused,
        b"ok\nrefused P1 at 0\n",
    ),
    (
        SMALL,
        Given::Text(MARKS_IN_LINES),
        Status::Refused,
        b"refused P1 at 0\nrefused L2 at 25\nrefused L2 at 38\n",
    ),
];

#[test]
fn answers_each_part(rt: HostRuntime) {
    assert!(rt; first_wrong(&rt, &PARTS) == None);
}

/// With warnings.
const WARNED: Call = Call::Check(CheckOptions {
    heap: None,
    warn: true,
});

/// A text with each warning, one with none, and one that is refused.
const WARNINGS: &[u8] = b"resource tape = 5;
process p
begin
  integer count, total;
  hold 2 of tape do
    parbegin
      begin count := 1; total := count end
    parend
  od
end
%%
resource tape = 2;
process p begin integer x; parbegin hold 1 of tape do print x od; hold 1 of tape do x := 1 od parend end
%%
process p begin x := 1 end";

const SAID_WITH_WARNINGS: &[u8] = b"ok
warning W3 line 1 tape claims 2 capital 5
warning W2 line 4 p total
warning W1 line 6
ok
refused N3 at 16
";

const WITH_WARNINGS: [Case; 2] = [
    (
        WARNED,
        Given::Text(WARNINGS),
        Status::Refused,
        SAID_WITH_WARNINGS,
    ),
    (
        CHECK,
        Given::Text(WARNINGS),
        Status::Refused,
        b"ok\nok\nrefused N3 at 16\n",
    ),
];

#[test]
fn warnings_follow_an_accepted_text(rt: HostRuntime) {
    assert!(rt; first_wrong(&rt, &WITH_WARNINGS) == None);
}

const HEAPS: [Case; 2] = [
    (SMALL, PRINTS, Status::Memory, b"memory\n"),
    (LARGE, PRINTS, Status::Done, b"ok\n"),
];

#[test]
fn a_heap_may_be_too_small(rt: HostRuntime) {
    assert!(rt; first_wrong(&rt, &HEAPS) == None);
}

//! Picks after texts, made again.

use crate::calls::{Call, Case, Given, first_wrong};
use pb_command_io::Status;
use pb_example_texts::first::{DEVICES, LOST_RUN};

/// Two arms add 1 to the same integer, which is printed then.
const INCREMENTS: &[u8] =
    b"process p begin integer x; parbegin x := x + 1; x := x + 1 parend; print x end\n%%\n";

const UPDATES: [Case; 5] = [
    (
        Call::Replay,
        Given::Pieces(&[(INCREMENTS, 1), (b"p.0 1\np.1 1\np.2 5\np.1 4\np.0 4\n", 1)]),
        Status::Done,
        b"p.0 print 1\np end\ndone\n",
    ),
    (
        Call::Replay,
        Given::Pieces(&[(INCREMENTS, 1), (b"p.0 1\np.1 5\np.2 5\np.0 4", 1)]),
        Status::Done,
        b"p.0 print 2\np end\ndone\n",
    ),
    (
        Call::Replay,
        Given::Pieces(&[(INCREMENTS, 1), (b"p.0 1\n", 1)]),
        Status::Done,
        b"open\n",
    ),
    (
        Call::Replay,
        Given::Text(INCREMENTS),
        Status::Done,
        b"open\n",
    ),
    // The recorded example.
    (
        Call::Replay,
        Given::Text(LOST_RUN),
        Status::Done,
        b"p.0 print 1\np end\ndone\n",
    ),
];

#[test]
fn updates_are_lost_or_kept(rt: HostRuntime) {
    assert!(rt; first_wrong(&rt, &UPDATES) == None);
}

const REFUSED: [Case; 7] = [
    (
        Call::Replay,
        Given::Pieces(&[(INCREMENTS, 1), (b"p.0 1\np.3 1\n", 1)]),
        Status::Refused,
        b"refused K1 at 6\n",
    ),
    (
        Call::Replay,
        Given::Pieces(&[(INCREMENTS, 1), (b"p.0 1\n\n", 1)]),
        Status::Refused,
        b"refused K1 at 6\n",
    ),
    (
        Call::Replay,
        Given::Pieces(&[(INCREMENTS, 1), (b"%%\n", 1)]),
        Status::Refused,
        b"refused K1 at 0\n",
    ),
    (
        Call::Replay,
        Given::Pieces(&[(INCREMENTS, 1), (b"p.0 10000000\np.0 1\n", 1)]),
        Status::Refused,
        b"refused K2\n",
    ),
    (
        Call::Replay,
        Given::Pieces(&[(INCREMENTS, 1), (b"p.0 2\n", 1)]),
        Status::Refused,
        b"refused H1 at 1\n",
    ),
    // The banker refuses the second pick.
    (
        Call::Replay,
        Given::Pieces(&[(DEVICES, 1), (b"%%\na.0 1\nb.0 1\n", 1)]),
        Status::Refused,
        b"refused H1 at 1\n",
    ),
    // The fault of the text comes before that of the lines.
    (
        Call::Replay,
        Given::Text(b"process p begin x := 1 end\n%%\nq 1\n"),
        Status::Refused,
        b"refused N3 at 16\n",
    ),
];

#[test]
fn refuses_lines_and_picks(rt: HostRuntime) {
    assert!(rt; first_wrong(&rt, &REFUSED) == None);
}

const FAULTS_AND_NO_PICKS: [Case; 3] = [
    (
        Call::Replay,
        Given::Text(b"process p begin print 1 div 0 end process q begin print 1 end\n%%\np.0 3\n"),
        Status::Fault,
        b"p.0 fault divide\nopen\n",
    ),
    (
        Call::Replay,
        Given::Text(
            b"process p begin print 1 div 0 end process q begin print 1 end\n%%\np.0 3\nq.0 3\n",
        ),
        Status::Fault,
        b"p.0 fault divide\nq.0 print 1\nq end\ndone\n",
    ),
    // No mark is after the text.
    (Call::Replay, Given::Text(DEVICES), Status::Done, b"open\n"),
];

#[test]
fn tells_faults_and_open_runs(rt: HostRuntime) {
    assert!(rt; first_wrong(&rt, &FAULTS_AND_NO_PICKS) == None);
}

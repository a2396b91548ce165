//! Texts whose runs are recorded, and replayed.

use crate::calls::{Call, Case, Given, THOUSAND, first_wrong, make, writes};
use crate::texts::{FAULT, INCREMENTS, NESTED};
use pb_base::{MemoryInput, MemoryOutput};
use pb_command_io::Status;
use pb_engines::RunOptions;
use pb_example_texts::first::{DEVICES, HELLO, LOST, LOST_RUN};
use std::sync::Wait;
use std::thread::Threads;

const NINE: RunOptions = RunOptions {
    workers: 1,
    quantum: 64,
    steps: 9,
};

const THREE: RunOptions = RunOptions {
    workers: 1,
    quantum: 64,
    steps: 3,
};

const TWO: RunOptions = RunOptions {
    workers: 1,
    quantum: 64,
    steps: 2,
};

const NONE: RunOptions = RunOptions {
    workers: 1,
    quantum: 64,
    steps: 0,
};

const ONE_BY_ONE: RunOptions = RunOptions {
    workers: 1,
    quantum: 1,
    steps: 1000,
};

const OF_HELLO: [Case; 3] = [
    (
        Call::Record(NINE, None),
        Given::Text(HELLO),
        Status::Done,
        b"process p begin print 1 end\n%%\np.0 3\n",
    ),
    (
        Call::Record(TWO, None),
        Given::Text(HELLO),
        Status::Done,
        b"process p begin print 1 end\n%%\np.0 2\n",
    ),
    (
        Call::Record(NONE, None),
        Given::Text(HELLO),
        Status::Done,
        b"process p begin print 1 end\n%%\n",
    ),
];

#[test]
fn writes_the_text_and_its_picks(rt: HostRuntime) {
    assert!(rt; first_wrong(&rt, &OF_HELLO) == None);
}

/// The increments, and the picks of a run.
#[rattlefmt::skip]
const WHOLE: &[u8] = b"process p begin integer x; parbegin x := x + 1; x := x + 1 parend; print x end
%%\np.0 1\np.1 5\np.2 5\np.0 4\n";

/// The increments, and three picks.
#[rattlefmt::skip]
const THREE_PICKS: &[u8] = b"process p begin integer x; parbegin x := x + 1; x := x + 1 parend; print x end
%%\np.0 1\np.1 2\n";

/// The increments, and picks that lose one.
#[rattlefmt::skip]
const LOSES: &[u8] = b"process p begin integer x; parbegin x := x + 1; x := x + 1 parend; print x end
%%\np.0 1\np.1 2\np.2 1\np.1 3\np.2 4\np.0 4\n";

/// The increments, and the picks of a run of which each stretch makes one, and what it prints.
#[rattlefmt::skip]
const ALTERNATES: &[u8] = b"process p begin integer x; parbegin x := x + 1; x := x + 1 parend; print x end
%%\np.0 1\np.1 1\np.2 1\np.1 1\np.2 1\np.1 1\np.2 1\np.1 1\np.2 1\np.1 1\np.2 1\np.0 4\n";

const OF_QUANTUMS: [Case; 3] = [
    (
        Call::Record(ONE_BY_ONE, None),
        Given::Text(INCREMENTS),
        Status::Done,
        ALTERNATES,
    ),
    (
        Call::Run(ONE_BY_ONE),
        Given::Text(INCREMENTS),
        Status::Done,
        b"p.0 print 1\np end\ndone\n",
    ),
    (
        Call::Run(THOUSAND),
        Given::Text(INCREMENTS),
        Status::Done,
        b"p.0 print 2\np end\ndone\n",
    ),
];

#[test]
fn keeps_to_the_quantum(rt: HostRuntime) {
    assert!(rt; first_wrong(&rt, &OF_QUANTUMS) == None);
}

/// The increments, and picks that keep both.
#[rattlefmt::skip]
const KEEPS: &[u8] = b"process p begin integer x; parbegin x := x + 1; x := x + 1 parend; print x end
%%\np.0 1\np.2 4\np.1 1\np.2 1\np.1 4\np.0 4\n";

const OF_INCREMENTS: [Case; 6] = [
    (
        Call::Record(THOUSAND, None),
        Given::Text(INCREMENTS),
        Status::Done,
        WHOLE,
    ),
    (
        Call::Record(THREE, None),
        Given::Text(INCREMENTS),
        Status::Done,
        THREE_PICKS,
    ),
    (
        Call::Record(THOUSAND, Some(3)),
        Given::Text(INCREMENTS),
        Status::Done,
        LOSES,
    ),
    (
        Call::Record(THOUSAND, Some(8)),
        Given::Text(INCREMENTS),
        Status::Done,
        KEEPS,
    ),
    (
        Call::Record(THOUSAND, Some(3)),
        Given::Text(INCREMENTS),
        Status::Done,
        LOSES,
    ),
    // The recorded example.
    (
        Call::Record(THOUSAND, Some(5)),
        Given::Text(LOST),
        Status::Done,
        LOST_RUN,
    ),
];

#[test]
fn adds_a_line_feed_and_draws_picks(rt: HostRuntime) {
    assert!(rt; first_wrong(&rt, &OF_INCREMENTS) == None);
}

const REPLAYED: [Case; 2] = [
    (
        Call::Replay,
        Given::Text(LOSES),
        Status::Done,
        b"p.0 print 1\np end\ndone\n",
    ),
    (
        Call::Replay,
        Given::Text(KEEPS),
        Status::Done,
        b"p.0 print 2\np end\ndone\n",
    ),
];

#[test]
fn seeds_lose_or_keep_an_update(rt: HostRuntime) {
    assert!(rt; first_wrong(&rt, &REPLAYED) == None);
}

const ONE: RunOptions = RunOptions {
    workers: 1,
    quantum: 64,
    steps: 1,
};

const TAPE_AND_DISK: &[u8] = b"resource tape = 1; resource disk = 1;
process a begin hold 1 of tape do hold 1 of disk do print 1 od od end
process b begin hold 1 of disk do hold 1 of tape do print 2 od od end
";

/// The two devices, and the picks that seed 3 draws by cash.
#[rattlefmt::skip]
const IN_A_DEADLOCK: &[u8] = b"resource tape = 1; resource disk = 1;
process a begin hold 1 of tape do hold 1 of disk do print 1 od od end
process b begin hold 1 of disk do hold 1 of tape do print 2 od od end
%%\nb.0 1\na.0 1\n";

/// The first of these picks.
#[rattlefmt::skip]
const BEFORE_IT: &[u8] = b"resource tape = 1; resource disk = 1;
process a begin hold 1 of tape do hold 1 of disk do print 1 od od end
process b begin hold 1 of disk do hold 1 of tape do print 2 od od end
%%\nb.0 1\n";

/// The two devices, and the picks that seed 4 draws by cash.
#[rattlefmt::skip]
const TO_THE_END: &[u8] = b"resource tape = 1; resource disk = 1;
process a begin hold 1 of tape do hold 1 of disk do print 1 od od end
process b begin hold 1 of disk do hold 1 of tape do print 2 od od end
%%\nb.0 5\na.0 1\nb.0 2\na.0 6\n";

/// The two devices, and the picks that seed 3 draws under the banker.
#[rattlefmt::skip]
const UNDER_THE_BANKER: &[u8] = b"resource tape = 1; resource disk = 1;
process a begin hold 1 of tape do hold 1 of disk do print 1 od od end
process b begin hold 1 of disk do hold 1 of tape do print 2 od od end
%%\nb.0 6\na.0 1\nb.0 1\na.0 6\n";

const BY_CASH: [Case; 7] = [
    (
        Call::RecordByCash(THOUSAND, 3),
        Given::Text(TAPE_AND_DISK),
        Status::Deadlock,
        IN_A_DEADLOCK,
    ),
    // The second of two steps comes to the deadlock, the first not yet.
    (
        Call::RecordByCash(TWO, 3),
        Given::Text(TAPE_AND_DISK),
        Status::Deadlock,
        IN_A_DEADLOCK,
    ),
    (
        Call::RecordByCash(ONE, 3),
        Given::Text(TAPE_AND_DISK),
        Status::Done,
        BEFORE_IT,
    ),
    (
        Call::RecordByCash(THOUSAND, 4),
        Given::Text(TAPE_AND_DISK),
        Status::Done,
        TO_THE_END,
    ),
    (
        Call::Record(THOUSAND, Some(3)),
        Given::Text(TAPE_AND_DISK),
        Status::Done,
        UNDER_THE_BANKER,
    ),
    (
        Call::ReplayByCash,
        Given::Text(IN_A_DEADLOCK),
        Status::Deadlock,
        b"b.0 grant 1 disk\na.0 grant 1 tape\ndeadlock\n",
    ),
    (
        Call::ReplayByCash,
        Given::Text(BEFORE_IT),
        Status::Done,
        b"b.0 grant 1 disk\nopen\n",
    ),
];

#[test]
fn draws_a_deadlock_by_cash(rt: HostRuntime) {
    assert!(rt; first_wrong(&rt, &BY_CASH) == None);
}

/// Makes a call with a text, and returns its status. What it writes is added to an output.
fn made(
    rt: &(impl AllocGlobal + Threads + Wait + Sync),
    call: Call,
    text: &[u8],
    output: &mut MemoryOutput,
) -> Status {
    let mut input = MemoryInput::new(text);
    make(rt, call, &mut input, output)
}

/// Returns whether a replay of the record of a text without a seed says what its run says.
fn replays_its_run(rt: &(impl AllocGlobal + Threads + Wait + Sync), text: &[u8]) -> Option<bool> {
    let mut record = MemoryOutput::new(rt.alloc(), 1_024).ok()?;
    made(rt, Call::Record(THOUSAND, None), text, &mut record);
    let mut said = MemoryOutput::new(rt.alloc(), 1_024).ok()?;
    let status = made(rt, Call::Run(THOUSAND), text, &mut said);
    Some(writes(rt, Call::Replay, record.as_slice(), status, said.as_slice()))
}

#[test]
fn a_replay_says_what_the_run_says(rt: HostRuntime) {
    for text in &[HELLO, DEVICES, INCREMENTS, FAULT, NESTED] {
        assert!(rt; replays_its_run(&rt, *text) == Some(true));
    }
}

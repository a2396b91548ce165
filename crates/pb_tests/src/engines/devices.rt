//! Engines whose input or output fails.

use crate::calls::{CHECK, Call, make};
use crate::objects::FIRST;
use pb_base::{FaultyInput, MemoryInput, MemoryOutput};
use pb_code::Format;
use pb_command_io::Status;
use pb_engines::RunOptions;
use pb_example_texts::first::HELLO;
use std::sync::Wait;
use std::thread::Threads;

/// At most seven picks, by one worker.
const SEVEN: RunOptions = RunOptions {
    workers: 1,
    quantum: 64,
    steps: 7,
};

/// Returns whether an engine tells the one read of a text that fails, and writes nothing.
fn tells_a_failed_read(
    rt: &(impl AllocGlobal + Threads + Wait + Sync),
    call: Call,
    text: &[u8],
) -> bool {
    let mut input = FaultyInput::new(text, 2, 8);
    match MemoryOutput::new(rt.alloc(), 64) {
        Ok(output) => {
            let mut output = output;
            make(rt, call, &mut input, &mut output) == Status::Device
                && input.failures() == 1
                && output.failures() == 0
                && output.as_slice() == b"".as_slice()
        }
        Err(_) => false,
    }
}

/// The engines of texts, and those of objects.
const ENGINES: [(Call, &[u8], &str); 8] = [
    (CHECK, HELLO, "check"),
    (Call::Claims, HELLO, "claims"),
    (Call::Emit(Format::Two), HELLO, "emit"),
    (Call::Exec(SEVEN), FIRST, "exec"),
    (Call::Migrate, FIRST, "migrate"),
    (Call::Record(SEVEN, None), HELLO, "record"),
    (Call::Replay, HELLO, "replay"),
    (Call::Run(SEVEN), HELLO, "run"),
];

#[test]
fn each_engine_tells_a_failed_read(rt: HostRuntime) {
    for (call, text, name) in &ENGINES {
        assert!(rt; tells_a_failed_read(&rt, *call, *text), "{name}");
    }
}

/// Returns whether a run stops at an output that is full, and tells so.
fn run_stops_at_its_end(rt: &(impl AllocGlobal + Threads + Wait + Sync)) -> bool {
    let mut input = MemoryInput::new(HELLO);
    match MemoryOutput::new(rt.alloc(), 3) {
        Ok(output) => {
            let mut output = output;
            let status = make(rt, Call::Run(SEVEN), &mut input, &mut output);
            status == Status::Device
                && output.as_slice() == b"p.0".as_slice()
                && output.failures() == 1
        }
        Err(_) => false,
    }
}

#[test]
fn run_stops_at_a_full_output(rt: HostRuntime) {
    assert!(rt; run_stops_at_its_end(&rt));
}

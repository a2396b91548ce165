//! Sessions of the command `bank` of which a read or a write fails.

use pb_bank_engine::bank_engine;
use pb_base::{FaultyInput, FaultyOutput, MemoryOutput};
use pb_command_io::Status;
use pb_voice::Form;
use std::alloc::Global;

/// Two commands, of 13 and 5 bytes, and what is answered to the first, and to both.
const COMMANDS: &[u8] = b"resource r 2\nlend\n";

const FIRST: &[u8] = b"ready\n";

const BOTH: &[u8] = b"ready\nrefused B1 not a command\nready\n";

/// Returns whether just this is written if the read with this number fails, of reads that give one byte each.
fn answers_before(alloc: Global, passing: u64, said: &[u8]) -> Option<bool> {
    let mut input = FaultyInput::new(COMMANDS, passing, 1);
    let mut output = MemoryOutput::new(alloc, 100).ok()?;
    let status = bank_engine(alloc, Form::Lines, &mut input, &mut output);
    Some(status == Status::Device && output.as_slice() == said)
}

#[test]
fn lines_are_answered_before_more_is_read(rt: HostRuntime) {
    assert!(rt; answers_before(rt.alloc(), 0, b"") == Some(true));
    assert!(rt; answers_before(rt.alloc(), 12, b"") == Some(true));
    assert!(rt; answers_before(rt.alloc(), 13, FIRST) == Some(true));
    assert!(rt; answers_before(rt.alloc(), 17, FIRST) == Some(true));
    assert!(rt; answers_before(rt.alloc(), 18, BOTH) == Some(true));
}

/// Returns whether a write that fails ends a session after its first answer.
fn ends_at_a_failed_write(alloc: Global) -> Option<bool> {
    let mut input = FaultyInput::new(COMMANDS, 1_000, 1);
    let mut output = FaultyOutput::new(alloc, 100, 1, 100).ok()?;
    let status = bank_engine(alloc, Form::Lines, &mut input, &mut output);
    Some(status == Status::Device && output.as_slice() == FIRST)
}

#[test]
fn a_failed_write_ends_a_session(rt: HostRuntime) {
    assert!(rt; ends_at_a_failed_write(rt.alloc()) == Some(true));
}

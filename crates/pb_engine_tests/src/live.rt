//! Live sessions of which a read or a write fails, and inputs that are too long.

use pb_base::{FaultyInput, FaultyOutput, Lending, MemoryInput, MemoryOutput};
use pb_command_io::Status;
use pb_debug_engine::{debug_engine, debug_live_engine};
use std::alloc::Global;

/// A text and a pick, 40 bytes with their lines `%%`, and commands of five bytes each.
const SESSION: &[u8] = b"process p begin print 1 end\n%%\np.0 1\n%%\nto 1\nto 0\nto 1\n";

/// Returns what is written if the read with this number fails, of reads that give at most five bytes.
fn answers_before(alloc: Global, passing: u64, said: &[u8]) -> Option<bool> {
    let mut input = FaultyInput::new(SESSION, passing, 5);
    let mut output = MemoryOutput::new(alloc, 100).ok()?;
    let status = debug_live_engine(alloc, Lending::ByBanker, &mut input, &mut output);
    Some(status == Status::Device && output.as_slice() == said)
}

#[test]
fn commands_are_answered_before_more_is_read(rt: HostRuntime) {
    // the parts before the commands are read byte by byte
    assert!(rt; answers_before(rt.alloc(), 0, b"") == Some(true));
    assert!(rt; answers_before(rt.alloc(), 39, b"") == Some(true));
    assert!(rt; answers_before(rt.alloc(), 40, b"") == Some(true));
    assert!(rt; answers_before(rt.alloc(), 41, b"at 1\n") == Some(true));
    assert!(rt; answers_before(rt.alloc(), 42, b"at 1\nat 0\n") == Some(true));
}

/// Returns whether a write that fails ends a live session after its first answer.
fn ends_at_a_failed_write(alloc: Global) -> Option<bool> {
    let mut input = MemoryInput::new(SESSION);
    let mut output = FaultyOutput::new(alloc, 100, 1, 100).ok()?;
    let status = debug_live_engine(alloc, Lending::ByBanker, &mut input, &mut output);
    Some(status == Status::Device && output.as_slice() == b"at 1\n".as_slice())
}

/// Returns whether nothing is said of an input of which a read fails, if it is read whole.
fn says_nothing(alloc: Global) -> Option<bool> {
    let mut input = FaultyInput::new(SESSION, 9, 5);
    let mut output = MemoryOutput::new(alloc, 100).ok()?;
    let status = debug_engine(alloc, Lending::ByBanker, &mut input, &mut output);
    Some(status == Status::Device && output.as_slice().is_empty())
}

#[test]
fn failing_devices(rt: HostRuntime) {
    assert!(rt; ends_at_a_failed_write(rt.alloc()) == Some(true));
    assert!(rt; says_nothing(rt.alloc()) == Some(true));
}

/// Returns whether this is said of an input with a text of this length, with line feeds after it, and the
/// second of the same input if its commands are read as they come.
fn says_of_length(alloc: Global, length: usize, said: &[u8], said_live: &[u8]) -> Option<bool> {
    let mut bytes = Vec::from_slice(alloc, b"process p begin print 1 end\n").ok()?;
    bytes.resize(length, b'\n').ok()?;
    bytes.extend_from_slice(b"%%\np.0 1\n%%\nto 1\n").ok()?;
    let mut output = MemoryOutput::new(alloc, 100).ok()?;
    debug_engine(
        alloc,
        Lending::ByBanker,
        &mut MemoryInput::new(&bytes),
        &mut output,
    );
    let mut live = MemoryOutput::new(alloc, 100).ok()?;
    debug_live_engine(
        alloc,
        Lending::ByBanker,
        &mut MemoryInput::new(&bytes),
        &mut live,
    );
    Some(output.as_slice() == said && live.as_slice() == said_live)
}

#[test]
fn long_inputs(rt: HostRuntime) {
    // a first part of 4,194,304 bytes with its line, which is too long for a text, and one of one more
    assert!(rt;
        says_of_length(rt.alloc(), 4_194_301, b"refused input\n", b"refused L1\n") == Some(true)
    );
    assert!(rt;
        says_of_length(
            rt.alloc(),
            4_194_302,
            b"refused input\n",
            b"refused input\n"
        ) == Some(true)
    );
}

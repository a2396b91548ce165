//! Lines that are told as they come.

use pb_base::{MemoryOutput, NoMemory, write_all};
use pb_command_io::Status;
use pb_json_lines::{Dialect, LiveOutput};
use std::alloc::Global;

const PASSED: &[u8] = b"at 3\n";

const FIRST: &[u8] = b"{\"kind\":\"at\",\"at\":3}\n";

const BOTH: &[u8] = b"{\"kind\":\"at\",\"at\":3}\n{\"kind\":\"no event\"}\n";

/// Returns whether a line is told as soon as it has ended, the rest at the end, and then what is given is passed on.
fn tells(alloc: Global) -> Result<bool, NoMemory> {
    let mut output = LiveOutput::new(alloc, MemoryOutput::new(alloc, 1_000)?);
    output.tell_lines(Dialect::Debug);
    let first = write_all(&mut output, b"at 3\nno").is_ok() && output.behind().as_slice() == FIRST;
    let middle = write_all(&mut output, b" event").is_ok() && output.behind().as_slice() == FIRST;
    let status = output.end_lines(Status::Refused);
    let last = status == Status::Refused && output.behind().as_slice() == BOTH;
    let passed = write_all(&mut output, b"at 4\n").is_ok();
    Ok(
        first
            && middle
            && last
            && passed
            && output.behind().as_slice().ends_with(b"event\"}\nat 4\n"),
    )
}

#[test]
fn a_line_is_told_as_soon_as_it_has_ended(rt: HostRuntime) {
    assert!(rt; matches!(tells(rt.alloc()), Ok(true)));
}

/// Returns whether an output with no room for a line refuses the next write, and the status is that of a device.
fn is_device(alloc: Global) -> Result<bool, NoMemory> {
    let mut output = LiveOutput::new(alloc, MemoryOutput::new(alloc, 10)?);
    output.tell_lines(Dialect::Bank);
    let heard = write_all(&mut output, b"granted\n").is_ok();
    let refused = write_all(&mut output, b"granted\n").is_err();
    Ok(heard && refused && output.end_lines(Status::Done) == Status::Device)
}

#[test]
fn a_failed_write_is_told(rt: HostRuntime) {
    assert!(rt; matches!(is_device(rt.alloc()), Ok(true)));
}

/// Returns whether an output that tells no lines passes on what it is given, and keeps the status.
fn passes(alloc: Global) -> Result<bool, NoMemory> {
    let mut output = LiveOutput::new(alloc, MemoryOutput::new(alloc, 10)?);
    let passed = write_all(&mut output, b"at 3\n").is_ok();
    let status = output.end_lines(Status::Limit);
    Ok(passed && status == Status::Limit && output.behind().as_slice() == PASSED)
}

#[test]
fn other_lines_are_passed_on(rt: HostRuntime) {
    assert!(rt; matches!(passes(rt.alloc()), Ok(true)));
}

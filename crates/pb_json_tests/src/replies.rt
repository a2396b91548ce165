//! Commands that wrote to memory, and what is told of them.

use pb_base::{MemoryOutput, NoMemory, write_all};
use pb_command_io::Status;
use pb_json_lines::{Dialect, Gathered, tell_json};
use std::alloc::Global;

/// What a command wrote, its status, and what is told.
struct Case {
    text: &'static [u8],
    given: Status,
    told: &'static [u8],
}

const CASES: [Case; 3] = [
    Case {
        text: b"p end\ndone\n",
        given: Status::Done,
        told: b"{\"kind\":\"end\",\"process\":\"p\"}\n{\"kind\":\"done\"}\n",
    },
    Case {
        text: b"refused P1 at 7\n",
        given: Status::Refused,
        told: b"{\"kind\":\"refused\",\"code\":\"P1\",\"at\":7}\n",
    },
    // A read failed: nothing is told.
    Case {
        text: b"granted\n",
        given: Status::Device,
        told: b"",
    },
];

/// Returns whether a case is told so, with its status.
fn tells(alloc: Global, case: &Case) -> Result<bool, NoMemory> {
    let mut gathered = Gathered::new(alloc);
    let Ok(()) = write_all(&mut gathered, case.text) else {
        return Ok(false);
    };
    let mut output = MemoryOutput::new(alloc, 1_000)?;
    let status = tell_json(alloc, &gathered, case.given, Dialect::Program, &mut output);
    Ok(status == case.given && output.as_slice() == case.told)
}

#[test]
fn what_a_command_wrote_is_told(rt: HostRuntime) {
    for case in &CASES {
        assert!(rt; matches!(tells(rt.alloc(), case), Ok(true)));
    }
}

/// An output with no room.
fn is_device(alloc: Global) -> Result<bool, NoMemory> {
    let mut gathered = Gathered::new(alloc);
    let Ok(()) = write_all(&mut gathered, b"done\n") else {
        return Ok(false);
    };
    let mut output = MemoryOutput::new(alloc, 3)?;
    let status = tell_json(
        alloc,
        &gathered,
        Status::Done,
        Dialect::Program,
        &mut output,
    );
    Ok(status == Status::Device && output.as_slice() == b"{\"k".as_slice())
}

#[test]
fn a_failed_write_is_told(rt: HostRuntime) {
    assert!(rt; matches!(is_device(rt.alloc()), Ok(true)));
}

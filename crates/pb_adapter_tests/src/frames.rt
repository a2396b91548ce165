//! Messages with their headers.

use pb_base::MemoryInput;
use pb_conversations::Said;
use pb_frames::{FrameFault, read_frame, write_frame};
use std::alloc::Global;

/// Returns why no message is read of these bytes.
fn fault_of(alloc: Global, bytes: &str) -> Option<FrameFault> {
    match read_frame(alloc, &mut MemoryInput::new(bytes.as_bytes())) {
        Ok(_) => None,
        Err(fault) => Some(fault),
    }
}

#[test]
fn messages_are_written_and_read(rt: HostRuntime) -> Result<(), FrameFault> {
    let mut said = Said::new(rt.alloc());
    write_frame(rt.alloc(), &mut said, b"{}")?;
    write_frame(rt.alloc(), &mut said, b"")?;
    assert!(rt;
        said.as_slice() == b"Content-Length: 2\r\n\r\n{}Content-Length: 0\r\n\r\n".as_slice()
    );
    let mut input = MemoryInput::new(said.as_slice());
    let Some(first) = read_frame(rt.alloc(), &mut input)? else {
        panic!(rt; "the input is at its end");
    };
    assert!(rt; first.as_slice() == b"{}".as_slice());
    let Some(second) = read_frame(rt.alloc(), &mut input)? else {
        panic!(rt; "the input is at its end");
    };
    assert!(rt; second.is_empty());
    let end = read_frame(rt.alloc(), &mut input)?;
    assert!(rt; end.is_none());
    Ok(())
}

#[test]
fn what_is_no_message_has_its_fault(rt: HostRuntime) {
    for (bytes, fault) in [
        ("Content-Length: 3\r\n\r\n{}", FrameFault::Early),
        ("Content-Length: 3", FrameFault::Early),
        ("Content-Length: 03\r\n\r\n{} ", FrameFault::Malformed),
        ("Content-Type: x\r\n\r\n{}", FrameFault::Malformed),
        ("Content-Length: 2\n\n{}", FrameFault::Malformed),
        ("Content-Length: 4194305\r\n\r\n", FrameFault::TooLong),
        ("Content-Length: 123456789\r\n\r\n", FrameFault::TooLong),
        (
            "Content-Length: 12345678901234567890123\r\n\r\n",
            FrameFault::TooLong,
        ),
        ("Content-Length: 2 \r\n\r\n{}", FrameFault::Malformed),
        ("Content-Length : 2\r\n\r\n{}", FrameFault::Malformed),
    ] {
        assert!(rt; fault_of(rt.alloc(), bytes) == Some(fault));
    }
    for bytes in [
        "Content-Type: x\r\nContent-Length: 2\r\n\r\n{}",
        "content-length: 2\r\n\r\n{}",
        "CONTENT-LENGTH:2\r\n\r\n{}",
        "Content-Length: \t 2\r\n\r\n{}",
    ] {
        assert!(rt; fault_of(rt.alloc(), bytes).is_none());
    }
}

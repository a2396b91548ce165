//! Text that is said, and when it is written.

use pb_base::MemoryOutput;
use pb_command_io::{Page, Status};
use std::alloc::Global;

/// Returns whether lines are written when a page is finished, and not before.
fn is_written_when_finished(alloc: Global) -> Option<bool> {
    let mut output = MemoryOutput::new(alloc, 64).ok()?;
    let mut page = Page::new(alloc);
    page.say_line(&mut output, b"one").ok()?;
    let is_kept = output.as_slice() == b"".as_slice();
    page.say(&mut output, b"two ").ok()?;
    let status = page.finish_with(&mut output, b"three", Status::Limit);
    let is_written = output.as_slice() == b"one\ntwo three\n".as_slice();
    Some(is_kept && status == Status::Limit && is_written)
}

#[test]
fn writes_when_finished(rt: HostRuntime) {
    assert!(rt; is_written_when_finished(rt.alloc()) == Some(true));
}

/// Writes 600 lines of eight bytes.
fn say_lines(page: &mut Page, output: &mut MemoryOutput) -> Option<()> {
    for _ in 0..600 {
        page.say_line(output, b"1234567").ok()?;
    }
    Some(())
}

/// Returns whether a full page of these lines is written at once, and the rest at the end.
fn is_written_by_pages(alloc: Global) -> Option<bool> {
    let mut output = MemoryOutput::new(alloc, 8_192).ok()?;
    let mut page = Page::new(alloc);
    say_lines(&mut page, &mut output)?;
    let before = output.as_slice().len();
    page.flush(&mut output).ok()?;
    let status = page.finish(&mut output, Status::Done);
    Some(before == 4_103 && status == Status::Done && output.as_slice().len() == 4_800)
}

#[test]
fn writes_full_pages(rt: HostRuntime) {
    assert!(rt; is_written_by_pages(rt.alloc()) == Some(true));
}

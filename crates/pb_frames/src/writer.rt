//! Writes messages.

ghost use Rattle.std.specs.Prelude.{◌≡◌, ◌≢◌, ◌++◌, IfErr, IfOk, OnErr, OnOk, codes, decimal, length};
ghost use Rattle.pb_base.specs.Device.{appended, one_more_failure, AddsPrefix};
ghost use Rattle.pb_frames.specs.Frames.{framed};

use crate::fault::FrameFault;
use itoa::Buffer;
use pb_base::{Output, write_all};
use std::alloc::{AllocError, Global};

/// Returns a content with its header.
fn with_header(alloc: Global, content: &[u8]) -> Result<Vec<u8>, AllocError>
    ensures { IfOk result (λ text. text.items ≡ framed content.now) }
{
    let mut digits = Buffer::new();
    let mut text = Vec::from_slice(alloc, b"Content-Length: ")?;
    text.extend_from_slice(digits.format(content.len()).as_bytes())?;
    text.extend_from_slice(b"\r\n\r\n")?;
    text.extend_from_slice(content)?;
    Ok(text)
}

/// Writes a message with this content. After a fault some first part of it is written.
pub fn write_frame<O: Output>(
    alloc: Global,
    output: &mut O,
    content: &[u8],
) -> Result<(), FrameFault>
    ensures written { OnOk result (O.written output.new ≡ appended (O.written output.old) (framed content.now)) }
    ensures prefix { OnErr result (AddsPrefix (O.written output.old) (O.written output.new) (framed content.now)) }
    ensures counted { OnOk result (O.failures output.new ≡ O.failures output.old) }
    ensures fault { IfErr result (λ e. e ≡ FrameFault.Device →
        O.failures output.new ≡ one_more_failure (O.failures output.old)) }
    ensures no_fault { IfErr result (λ e. e ≢ FrameFault.Device → O.failures output.new ≡ O.failures output.old) }
{
    let text = with_header(alloc, content)?;
    match write_all(output, &text) {
        Ok(()) => Ok(()),
        Err(_) => Err(FrameFault::Device),
    }
}

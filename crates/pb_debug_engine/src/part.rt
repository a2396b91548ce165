//! The first parts of an input, which are read up to their lines `%%` and no further.

ghost use Rattle.std.specs.Prelude.{◌≡◌, ◌≢◌, ◌≤◌, ◌↔◌, ◌+◌, ◌*◌, ℕ, Some, IfErr, IfOk, IfSome, IsTrue, List, OnOk, length};
ghost use Rattle.pb_base.specs.Device.{LeavesRest, one_more_failure};
ghost use Rattle.pb_debug.specs.Sessions.{IsReadTo};
ghost use Rattle.pb_debug_engine.specs.Debugs.{AreThreeParts};
ghost use Rattle.pb_debug_engine.specs.Live.{EndsInMark, HasLongPart, IsEarly, IsLong, IsUnmarked};
ghost use Rattle.pb_command_io.specs.Parts.{AreTwoParts};

use pb_base::limits::MAX_INPUT;
use pb_base::{Input, ReadFault};
use pb_command_io::{is_mark_at, two_parts};
use std::alloc::Global;

/// Returns whether a text ends with a line `%%` and its line feed.
fn ends_in_mark(text: &[u8]) -> bool
    ensures { IsTrue result ↔ EndsInMark text.now }
{
    3 <= text.len() && is_mark_at(text, text.len() - 3)
}

/// Reads what an input has before its first line `%%`, and that line. It reads a byte at a time, since whoever
/// reads on is to have all that is after that line.
fn read_part<I: Input>(alloc: Global, input: &mut I) -> Result<Vec<u8>, ReadFault>
    ensures part { IfOk result (λ part. IfSome (I.rest input.old) (λ bytes.
        (rest : List ℕ) × (I.rest input.new ≡ Some rest) × AreTwoParts bytes part.items rest)) }
    ensures short { IfOk result (λ part. length part.items ≤ MAX_INPUT) }
    ensures counted { OnOk result (I.failures input.new ≡ I.failures input.old) }
    ensures long { IfErr result (λ e. e ≡ ReadFault.TooLong → IfSome (I.rest input.old) IsLong) }
    ensures early { IfErr result (λ e. e ≡ ReadFault.Device → IfSome (I.rest input.old) (λ bytes.
        (read : List ℕ) × IsReadTo bytes read (I.rest input.new) × IsUnmarked read)) }
    ensures fault { IfErr result (λ e. e ≡ ReadFault.Device →
        I.failures input.new ≡ one_more_failure (I.failures input.old)) }
    ensures no_fault { IfErr result (λ e. e ≢ ReadFault.Device → I.failures input.new ≡ I.failures input.old) }
    ensures taken { LeavesRest (I.rest input.old) (I.rest input.new) (MAX_INPUT + 1) }
    ensures within { OnOk result (LeavesRest (I.rest input.old) (I.rest input.new) MAX_INPUT) }
{
    let mut part = Vec::new(alloc);
    let mut byte = [0];
    loop {
        let Ok(count) = input.read(&mut byte) else {
            return Err(ReadFault::Device);
        };
        if count == 0 {
            let length = two_parts(part.as_slice()).0.len();
            part.truncate(length);
            return Ok(part);
        }
        let Ok(()) = part.push(byte[0]) else {
            return Err(ReadFault::Memory);
        };
        if MAX_INPUT < part.len() {
            return Err(ReadFault::TooLong);
        }
        if ends_in_mark(part.as_slice()) {
            part.truncate(part.len() - 3);
            return Ok(part);
        }
    }
}

/// What is before the commands of an input.
#[derive(Drop)]
pub struct FirstParts {
    /// A text or an object.
    pub source: Vec<u8>,
    /// Pick lines.
    pub lines: Vec<u8>,
}

/// Reads the two parts of an input that are before its commands, with the lines `%%` after them. The
/// commands are left to be read.
pub fn read_first_parts<I: Input>(alloc: Global, input: &mut I) -> Result<FirstParts, ReadFault>
    ensures parts { IfOk result (λ parts. IfSome (I.rest input.old) (λ bytes.
        (commands : List ℕ) × (I.rest input.new ≡ Some commands)
        × AreThreeParts bytes parts.source.items parts.lines.items commands)) }
    ensures short { IfOk result (λ parts. length parts.source.items ≤ MAX_INPUT) }
    ensures counted { OnOk result (I.failures input.new ≡ I.failures input.old) }
    ensures long { IfErr result (λ e. e ≡ ReadFault.TooLong → IfSome (I.rest input.old) HasLongPart) }
    ensures early { IfErr result (λ e. e ≡ ReadFault.Device → IfSome (I.rest input.old) (λ bytes.
        (read : List ℕ) × IsReadTo bytes read (I.rest input.new) × IsEarly read)) }
    ensures fault { IfErr result (λ e. e ≡ ReadFault.Device →
        I.failures input.new ≡ one_more_failure (I.failures input.old)) }
    ensures no_fault { IfErr result (λ e. e ≢ ReadFault.Device → I.failures input.new ≡ I.failures input.old) }
    ensures taken { LeavesRest (I.rest input.old) (I.rest input.new) (2 * MAX_INPUT + 1) }
    ensures within { OnOk result (LeavesRest (I.rest input.old) (I.rest input.new) (2 * MAX_INPUT)) }
{
    let source = read_part(alloc, input)?;
    let lines = read_part(alloc, input)?;
    Ok(FirstParts { source, lines })
}

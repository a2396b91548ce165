//! What is said to a person when input or output failed.

ghost use Rattle.pb_call.specs.Explained.{Wrote, device_message};

use pb_base::{Output, write_all};

/// What is said of a call that could not read its input, or not write its output.
const FAILED: &[u8] =
    b"device: the input could not be read, or the output could not be written whole\n";

/// Writes that the input could not be read, or not all of the output be written.
pub fn explain_device<E: Output>(error: &mut E)
    ensures { Wrote
        (record { reads = 0; writes = E.failures error.old; written = E.written error.old })
        (record { reads = 0; writes = E.failures error.new; written = E.written error.new })
        device_message }
{
    let _ = write_all(error, FAILED);
}

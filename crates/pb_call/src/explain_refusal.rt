//! What is said to a person when an input was refused.

ghost use Rattle.std.specs.Prelude.{◌≡◌, ◌⊎◌};
ghost use Rattle.pb_call.specs.Explained.{Explains, Untouched};

use crate::commands::Commands;
use pb_base::{Output, write_all};
use pb_words::options;
use std::alloc::Global;

/// Writes what is wrong with the bytes that the command of these words refused, and where, if there is
/// anything to be said of them and memory for it.
pub fn explain_refusal<C: Commands, E: Output>(
    commands: &C,
    alloc: Global,
    words: &[&str],
    bytes: &[u8],
    error: &mut E,
)
    ensures { Untouched
        (record { reads = 0; writes = E.failures error.old; written = E.written error.old })
        (record { reads = 0; writes = E.failures error.new; written = E.written error.new })
        ⊎ Explains C.TellsRefused words.now bytes.now
        (record { reads = 0; writes = E.failures error.old; written = E.written error.old })
        (record { reads = 0; writes = E.failures error.new; written = E.written error.new }) }
{
    let Ok(options) = options(alloc, words) else {
        return;
    };
    let Some(Ok(message)) = commands.message(alloc, &options, bytes) else {
        return;
    };
    let _ = write_all(error, &message);
}

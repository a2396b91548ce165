//! The command `record` with a seed, which starts no thread, over any input, teller and output.

ghost use Rattle.std.specs.Prelude.{◌≤◌, Some, length};
ghost use Rattle.pb_accept.specs.Claims.{SaysOfAny};
ghost use Rattle.pb_engines.specs.Records.{SaysOfRecord};
ghost use Rattle.pb_voice.specs.Held.{at};
ghost use Rattle.pb_voice.specs.Tellings.{Answers, Speaks};

use crate::record::{drawn_run, tell_made};
use pb_accept::{Teller, code_of_text, read_or_tell, tell_fault};
use pb_base::limits::{MAX_INPUT, MAX_PICKS};
use pb_base::{Input, Lending, Output};
use pb_command_io::Status;
use std::alloc::Global;

/// Draws a run of the text that the input holds, and tells it, as `record_engine` does with a seed.
pub fn record_drawn_engine<I: Input, O: Output, T: Teller>(
    alloc: Global,
    lending: Lending,
    steps: u32,
    seed: u64,
    input: &mut I,
    teller: &mut T,
    output: &mut O,
) -> Status
    requires { steps ≤ MAX_PICKS }
    ensures { Answers T.tells T.breaks (SaysOfAny (SaysOfRecord lending steps (Some seed))) (I.rest input.old)
        (I.failures input.old) (I.failures input.new) (at O.written O.failures teller.old output.old)
        (at O.written O.failures teller.new output.new) result }
{
    match read_or_tell(alloc, input, teller, output) {
        Ok(bytes) => record_drawn_text(alloc, lending, steps, seed, &bytes, teller, output),
        Err(status) => status,
    }
}

/// Draws a run of a text, and tells it.
fn record_drawn_text<O: Output, T: Teller>(
    alloc: Global,
    lending: Lending,
    steps: u32,
    seed: u64,
    text: &[u8],
    teller: &mut T,
    output: &mut O,
) -> Status
    requires text { length text.now ≤ MAX_INPUT }
    requires steps { steps ≤ MAX_PICKS }
    ensures { Speaks T.tells T.breaks (SaysOfAny (SaysOfRecord lending steps (Some seed)) text.now)
        (at O.written O.failures teller.old output.old) (at O.written O.failures teller.new output.new) result }
{
    match code_of_text(alloc, text) {
        Ok(compiled) => {
            let verified = compiled.verified();
            let made = drawn_run(alloc, lending, steps, seed, verified);
            let status = tell_made(alloc, text, &verified.code().names, made, teller, output);
            drop(compiled);
            status
        }
        Err(fault) => tell_fault(teller, output, &fault),
    }
}

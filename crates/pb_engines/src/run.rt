//! The command `run`, over any input, teller and output.
ghost use Rattle.std.specs.Prelude.{◌≤◌, length};
ghost use Rattle.pb_accept.specs.Claims.{SaysOfAny};
ghost use Rattle.pb_engines.specs.Runs.{SaysOfTextRun};
ghost use Rattle.pb_voice.specs.Held.{at};
ghost use Rattle.pb_voice.specs.Tellings.{Answers, Speaks};

use crate::report::tell_run;
use pb_accept::{Teller, code_of_text, read_or_tell, tell_fault};
use pb_base::limits::MAX_INPUT;
use pb_base::{Input, Output};
use pb_command_io::Status;
use pb_options::RunOptions;
use std::alloc::Global;
use std::sync::Wait;
use std::thread::Threads;

/// Runs the text that the input holds, by worker threads: tells each event, and at the end
/// that all is over, or that the steps were used up before. Of a text that is
/// refused it tells the refusal; if a thread could not be started, that.
///
/// After a read that failed nothing is told; after a write that failed, no more.
pub fn run_engine<I: Input, O: Output, T: Teller, R: Threads + Wait + Sync>(
    rt: &R,
    alloc: Global,
    options: RunOptions,
    input: &mut I,
    teller: &mut T,
    output: &mut O,
) -> Status
    ensures { Answers T.tells T.breaks (SaysOfAny (SaysOfTextRun options.steps)) (I.rest input.old) (I.failures input.old)
        (I.failures input.new) (at O.written O.failures teller.old output.old) (at O.written O.failures teller.new output.new) result }
{
    match read_or_tell(alloc, input, teller, output) {
        Ok(bytes) => run_text(rt, alloc, options, &bytes, teller, output),
        Err(status) => status,
    }
}

/// Runs a text.
fn run_text<O: Output, T: Teller, R: Threads + Wait + Sync>(
    rt: &R,
    alloc: Global,
    options: RunOptions,
    text: &[u8],
    teller: &mut T,
    output: &mut O,
) -> Status
    requires { length text.now ≤ MAX_INPUT }
    ensures { Speaks T.tells T.breaks (SaysOfAny (SaysOfTextRun options.steps) text.now) (at O.written O.failures teller.old output.old)
        (at O.written O.failures teller.new output.new) result }
{
    match code_of_text(alloc, text) {
        Ok(compiled) => {
            let status = tell_run(rt, alloc, compiled.verified(), options, teller, output);
            drop(compiled);
            status
        }
        Err(fault) => tell_fault(teller, output, &fault),
    }
}

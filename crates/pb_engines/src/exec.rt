//! The command `exec`, over any input, teller and output.
ghost use Rattle.std.specs.Prelude.{◌≤◌, length};
ghost use Rattle.pb_accept.specs.Claims.{SaysOfAny};
ghost use Rattle.pb_engines.specs.Executions.{SaysOfExecution};
ghost use Rattle.pb_voice.specs.Held.{at};
ghost use Rattle.pb_voice.specs.Tellings.{Answers, Speaks};

use crate::report::tell_run;
use pb_accept::load::{load, tell_load_fault};
use pb_accept::{Teller, read_or_tell};
use pb_base::limits::MAX_INPUT;
use pb_base::{Input, Output};
use pb_command_io::Status;
use pb_options::RunOptions;
use std::alloc::Global;
use std::sync::Wait;
use std::thread::Threads;

/// Runs the code of an object, or tells why there is none.
fn run_object<O: Output, T: Teller, R: Threads + Wait + Sync>(
    rt: &R,
    alloc: Global,
    options: RunOptions,
    bytes: &[u8],
    teller: &mut T,
    output: &mut O,
) -> Status
    requires { length bytes.now ≤ MAX_INPUT }
    ensures { Speaks T.tells T.breaks (SaysOfAny (SaysOfExecution options.steps) bytes.now) (at O.written O.failures teller.old output.old)
        (at O.written O.failures teller.new output.new) result }
{
    match load(alloc, bytes) {
        Ok((verified, labels)) => {
            drop(labels);
            let status = tell_run(rt, alloc, &verified, options, teller, output);
            drop(verified);
            status
        }
        Err(fault) => tell_load_fault(teller, output, fault),
    }
}

/// Runs the object that the input holds, in either format, by worker threads: tells each event,
/// and at the end that all is over, or that the steps were used up before. Bytes that are not
/// an object, or whose code is not safe, are refused; if a thread could not be started, it tells that.
///
/// After a read that failed nothing is told; after a write that failed, no more.
pub fn exec_engine<I: Input, O: Output, T: Teller, R: Threads + Wait + Sync>(
    rt: &R,
    alloc: Global,
    options: RunOptions,
    input: &mut I,
    teller: &mut T,
    output: &mut O,
) -> Status
    ensures { Answers T.tells T.breaks (SaysOfAny (SaysOfExecution options.steps)) (I.rest input.old) (I.failures input.old)
        (I.failures input.new) (at O.written O.failures teller.old output.old) (at O.written O.failures teller.new output.new) result }
{
    match read_or_tell(alloc, input, teller, output) {
        Ok(bytes) => run_object(rt, alloc, options, &bytes, teller, output),
        Err(status) => status,
    }
}

//! The commands `run`, `exec` and `record`, written in a form.

ghost use Rattle.std.specs.Prelude.{◌≡◌, ◌≤◌, IfSome, Some};
ghost use Rattle.pb_accept.specs.Claims.{SaysOfAny};
ghost use Rattle.pb_accept.specs.Objects.{text_of};
ghost use Rattle.pb_command_io.specs.Answers.{Tells};
ghost use Rattle.pb_command_io.specs.Faults.{TellsFaults};
ghost use Rattle.pb_engines.specs.Executions.{SaysOfExecution};
ghost use Rattle.pb_engines.specs.Records.{SaysOfRecord};
ghost use Rattle.pb_engines.specs.Runs.{SaysOfTextRun};
ghost use Rattle.pb_options.specs.Lends.{lending_for};
ghost use Rattle.pb_voice.specs.Voices.{Written};

use crate::drawn::record_drawn_engine;
use crate::exec::exec_engine;
use crate::record::record_engine;
use crate::run::run_engine;
use pb_base::limits::MAX_PICKS;
use pb_base::{Input, Lending, Output};
use pb_command_io::Status;
use pb_options::{RecordOptions, RunOptions};
use pb_voice::{Form, Voice};
use std::alloc::Global;
use std::sync::Wait;
use std::thread::Threads;

/// Writes what `run` says of the text on the input, in a form.
///
/// After a read that failed nothing is written; after a write that failed, a first part.
pub fn write_run<I: Input, O: Output, R: Threads + Wait + Sync>(
    rt: &R,
    alloc: Global,
    form: Form,
    options: RunOptions,
    input: &mut I,
    output: &mut O,
) -> Status
    ensures text { IfSome (I.rest input.old) (λ bytes.
        Tells (Written (text_of form) (SaysOfAny (SaysOfTextRun options.steps)) bytes) (O.written output.old) (O.written output.new) result) }
    ensures faults { TellsFaults
        (record { reads = I.failures input.old; writes = O.failures output.old; written = O.written output.old })
        (record { reads = I.failures input.new; writes = O.failures output.new; written = O.written output.new })
        result }
{
    let mut voice = Voice::new(alloc, form);
    let given = run_engine(rt, alloc, options, input, &mut voice, output);
    voice.finish(output, given)
}

/// Writes what `exec` says of the object on the input, in a form.
///
/// After a read that failed nothing is written; after a write that failed, a first part.
pub fn write_execution<I: Input, O: Output, R: Threads + Wait + Sync>(
    rt: &R,
    alloc: Global,
    form: Form,
    options: RunOptions,
    input: &mut I,
    output: &mut O,
) -> Status
    ensures text { IfSome (I.rest input.old) (λ bytes.
        Tells (Written (text_of form) (SaysOfAny (SaysOfExecution options.steps)) bytes) (O.written output.old) (O.written output.new) result) }
    ensures faults { TellsFaults
        (record { reads = I.failures input.old; writes = O.failures output.old; written = O.written output.old })
        (record { reads = I.failures input.new; writes = O.failures output.new; written = O.written output.new })
        result }
{
    let mut voice = Voice::new(alloc, form);
    let given = exec_engine(rt, alloc, options, input, &mut voice, output);
    voice.finish(output, given)
}

/// Writes what `record` says of the text on the input, in a form.
///
/// After a read that failed nothing is written; after a write that failed, a first part.
pub fn write_record<I: Input, O: Output, R: Threads + Wait + Sync>(
    rt: &R,
    alloc: Global,
    form: Form,
    options: RecordOptions,
    input: &mut I,
    output: &mut O,
) -> Status
    ensures text { IfSome (I.rest input.old) (λ bytes.
        Tells (Written (text_of form) (SaysOfAny (SaysOfRecord (lending_for options.lend) options.run.steps options.seed)) bytes)
        (O.written output.old) (O.written output.new) result) }
    ensures faults { TellsFaults
        (record { reads = I.failures input.old; writes = O.failures output.old; written = O.written output.old })
        (record { reads = I.failures input.new; writes = O.failures output.new; written = O.written output.new })
        result }
{
    let mut voice = Voice::new(alloc, form);
    let given = record_engine(rt, alloc, options, input, &mut voice, output);
    voice.finish(output, given)
}

/// Writes what `record` says of the text on the input with a seed, in a form, and starts no thread.
///
/// After a read that failed nothing is written; after a write that failed, a first part.
pub fn write_drawn_record<I: Input, O: Output>(
    alloc: Global,
    form: Form,
    lending: Lending,
    steps: u32,
    seed: u64,
    input: &mut I,
    output: &mut O,
) -> Status
    requires { steps ≤ MAX_PICKS }
    ensures text { IfSome (I.rest input.old) (λ bytes.
        Tells (Written (text_of form) (SaysOfAny (SaysOfRecord lending steps (Some seed))) bytes) (O.written output.old) (O.written output.new) result) }
    ensures faults { TellsFaults
        (record { reads = I.failures input.old; writes = O.failures output.old; written = O.written output.old })
        (record { reads = I.failures input.new; writes = O.failures output.new; written = O.written output.new })
        result }
{
    let mut voice = Voice::new(alloc, form);
    let given = record_drawn_engine(alloc, lending, steps, seed, input, &mut voice, output);
    voice.finish(output, given)
}

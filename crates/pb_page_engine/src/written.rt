//! The commands `states` and `outcomes --graph`, written in a form.

ghost use Rattle.std.specs.Prelude.{◌≡◌, IfSome};
ghost use Rattle.pb_accept.specs.Claims.{SaysOfAny};
ghost use Rattle.pb_accept.specs.Objects.{text_of};
ghost use Rattle.pb_command_io.specs.Answers.{Tells};
ghost use Rattle.pb_command_io.specs.Faults.{TellsFaults};
ghost use Rattle.pb_page_engine.specs.Schedules.{SaysOfSchedules};
ghost use Rattle.pb_page_engine.specs.States.{SaysOfStates};
ghost use Rattle.pb_voice.specs.Voices.{Written};

use crate::schedules::schedules_engine;
use crate::states::states_engine;
use pb_base::{Input, Lending, Output};
use pb_command_io::Status;
use pb_page::Shown;
use pb_voice::{Form, Voice};
use std::alloc::Global;

/// Writes what `states` says of a text or an object and the pick lines after it, in a form.
///
/// After a read that failed nothing is written; after a write that failed, a first part.
pub fn write_states<I: Input, O: Output>(
    alloc: Global,
    form: Form,
    lending: Lending,
    shown: Shown,
    input: &mut I,
    output: &mut O,
) -> Status
    ensures text { IfSome (I.rest input.old) (λ bytes.
        Tells (Written (text_of form) (SaysOfAny (SaysOfStates lending shown)) bytes) (O.written output.old) (O.written output.new) result) }
    ensures faults { TellsFaults
        (record { reads = I.failures input.old; writes = O.failures output.old; written = O.written output.old })
        (record { reads = I.failures input.new; writes = O.failures output.new; written = O.written output.new })
        result }
{
    let mut voice = Voice::new(alloc, form);
    let given = states_engine(alloc, lending, shown, input, &mut voice, output);
    voice.finish(output, given)
}

/// Writes what `outcomes --graph` says of a text, in a form.
///
/// After a read that failed nothing is written; after a write that failed, a first part.
pub fn write_schedules<I: Input, O: Output>(
    alloc: Global,
    form: Form,
    lending: Lending,
    states: u32,
    input: &mut I,
    output: &mut O,
) -> Status
    ensures text { IfSome (I.rest input.old) (λ bytes.
        Tells (Written (text_of form) (SaysOfAny (SaysOfSchedules lending states)) bytes) (O.written output.old) (O.written output.new) result) }
    ensures faults { TellsFaults
        (record { reads = I.failures input.old; writes = O.failures output.old; written = O.written output.old })
        (record { reads = I.failures input.new; writes = O.failures output.new; written = O.written output.new })
        result }
{
    let mut voice = Voice::new(alloc, form);
    let given = schedules_engine(alloc, lending, states, input, &mut voice, output);
    voice.finish(output, given)
}

//! The command `plan`, written in a form.

ghost use Rattle.std.specs.Prelude.{◌≡◌, IfSome};
ghost use Rattle.pb_capitals.specs.Changes.{changes_in};
ghost use Rattle.pb_command_io.specs.Answers.{Tells};
ghost use Rattle.pb_command_io.specs.Faults.{TellsFaults};
ghost use Rattle.pb_plan_engine.specs.Objects.{text_of};
ghost use Rattle.pb_plan_engine.specs.Plans.{SaysOfPlans};
ghost use Rattle.pb_voice.specs.Voices.{Written};

use crate::plan::plan_engine;
use pb_base::{Input, Lending, Output};
use pb_capitals::Changes;
use pb_command_io::Status;
use pb_voice::{Form, Voice};
use std::alloc::Global;

/// Writes the plan of the texts on the input with these changes of the capital, in a form.
///
/// After a read that failed nothing is written; after a write that failed, a first part.
pub fn write_plan<I: Input, O: Output>(
    alloc: Global,
    form: Form,
    lending: Lending,
    changes: &Changes,
    input: &mut I,
    output: &mut O,
) -> Status
    ensures text { IfSome (I.rest input.old) (λ bytes.
        Tells (Written (text_of form) (SaysOfPlans lending (changes_in changes.now)) bytes) (O.written output.old) (O.written output.new) result) }
    ensures faults { TellsFaults
        (record { reads = I.failures input.old; writes = O.failures output.old; written = O.written output.old })
        (record { reads = I.failures input.new; writes = O.failures output.new; written = O.written output.new })
        result }
{
    let mut voice = Voice::new(alloc, form);
    let given = plan_engine(alloc, lending, changes, input, &mut voice, output);
    voice.finish(output, given)
}

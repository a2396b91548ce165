//! The command `plan`, by its options.

ghost use Rattle.std.specs.Prelude.{IfSome};
ghost use Rattle.pb_capitals.specs.Changes.{changes_in};
ghost use Rattle.pb_command_io.specs.Answers.{Tells};
ghost use Rattle.pb_command_io.specs.Faults.{TellsFaults};
ghost use Rattle.pb_options.specs.Lends.{lending_for};
ghost use Rattle.pb_plan_engine.specs.Objects.{text_of};
ghost use Rattle.pb_plan_engine.specs.Plans.{SaysOfPlans};
ghost use Rattle.pb_voice.specs.Voices.{Written};

use pb_base::{Input, Output};
use pb_capitals::Changes;
use pb_command_io::Status;
use pb_options::PlanOptions;
use pb_plan_engine::write_plan;
use pb_voice::Form;
use std::alloc::Global;

/// Writes the plan of texts with these changes of the capital in a form, and returns the status for who lends when they run.
pub fn plan<I: Input, O: Output>(
    alloc: Global,
    form: Form,
    options: PlanOptions,
    changes: &Changes,
    input: &mut I,
    output: &mut O,
) -> Status
    ensures text { IfSome (I.rest input.old) (λ bytes. Tells (Written (text_of form) (SaysOfPlans (lending_for options.lend) (changes_in changes.now)) bytes)
        (O.written output.old) (O.written output.new) result) }
    ensures faults { TellsFaults
        (record { reads = I.failures input.old; writes = O.failures output.old; written = O.written output.old })
        (record { reads = I.failures input.new; writes = O.failures output.new; written = O.written output.new })
        result }
{
    write_plan(alloc, form, options.lend.lending(), changes, input, output)
}

//! The command `states`, by its options.

ghost use Rattle.std.specs.Prelude.{◌≡◌, IfSome};
ghost use Rattle.pb_accept.specs.Claims.{SaysOfAny};
ghost use Rattle.pb_accept.specs.Objects.{text_of};
ghost use Rattle.pb_command_io.specs.Answers.{Tells};
ghost use Rattle.pb_command_io.specs.Faults.{TellsFaults};
ghost use Rattle.pb_options.specs.Lends.{lending_for};
ghost use Rattle.pb_page_engine.specs.States.{SaysOfStates};
ghost use Rattle.pb_search_tool.specs.Search.{shown_by};
ghost use Rattle.pb_voice.specs.Voices.{Written};

use pb_base::{Input, Output};
use pb_command_io::Status;
use pb_options::StatesOptions;
use pb_page::Shown;
use pb_page_engine::write_states;
use pb_voice::Form;
use std::alloc::Global;

/// Returns what the options of `states` say of the part of a run that is shown.
fn shown(numbers: StatesOptions) -> Shown
    ensures { result ≡ shown_by numbers }
{
    Shown {
        from: numbers.from,
        rows: numbers.rows,
    }
}

/// Writes the part of a run that the options of `states` name, in a form.
pub fn states<I: Input, O: Output>(
    alloc: Global,
    form: Form,
    options: StatesOptions,
    input: &mut I,
    output: &mut O,
) -> Status
    ensures text { IfSome (I.rest input.old) (λ bytes.
        Tells (Written (text_of form) (SaysOfAny (SaysOfStates (lending_for options.lend) (shown_by options))) bytes)
        (O.written output.old) (O.written output.new) result) }
    ensures faults { TellsFaults
        (record { reads = I.failures input.old; writes = O.failures output.old; written = O.written output.old })
        (record { reads = I.failures input.new; writes = O.failures output.new; written = O.written output.new })
        result }
{
    write_states(
        alloc,
        form,
        options.lend.lending(),
        shown(options),
        input,
        output,
    )
}

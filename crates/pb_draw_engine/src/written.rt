//! The command `draw`, written in a form.

ghost use Rattle.std.specs.Prelude.{◌≡◌, IfSome};
ghost use Rattle.pb_accept.specs.Claims.{SaysOfAny};
ghost use Rattle.pb_accept.specs.Objects.{text_of};
ghost use Rattle.pb_command_io.specs.Answers.{Tells};
ghost use Rattle.pb_command_io.specs.Faults.{TellsFaults};
ghost use Rattle.pb_draw_engine.specs.Draws.{SaysOfDraw, size_of};
ghost use Rattle.pb_options.specs.Lends.{lending_for};
ghost use Rattle.pb_voice.specs.Voices.{Written};

use crate::draw::draw_engine;
use pb_base::{Input, Output};
use pb_command_io::Status;
use pb_options::DrawOptions;
use pb_voice::{Form, Voice};
use std::alloc::Global;

/// Writes what `draw` says of a text and the pick lines after it, in a form.
///
/// After a read that failed nothing is written; after a write that failed, a first part.
pub fn write_drawing<I: Input, O: Output>(
    alloc: Global,
    form: Form,
    options: DrawOptions,
    input: &mut I,
    output: &mut O,
) -> Status
    ensures text { IfSome (I.rest input.old) (λ bytes.
        Tells (Written (text_of form) (SaysOfAny (SaysOfDraw (lending_for options.lend) (size_of options))) bytes)
        (O.written output.old) (O.written output.new) result) }
    ensures faults { TellsFaults
        (record { reads = I.failures input.old; writes = O.failures output.old; written = O.written output.old })
        (record { reads = I.failures input.new; writes = O.failures output.new; written = O.written output.new })
        result }
{
    let mut voice = Voice::new(alloc, form);
    let given = draw_engine(alloc, options, input, &mut voice, output);
    voice.finish(output, given)
}

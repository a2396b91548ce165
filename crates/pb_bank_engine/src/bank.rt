//! The command `bank`, over any input and output.

ghost use Rattle.std.specs.Prelude.{◌≡◌, ◌≢◌, IfSome};
ghost use Rattle.pb_base.specs.Lines.{line};
ghost use Rattle.pb_bank_engine.specs.Forms.{text_of};
ghost use Rattle.pb_bank_engine.specs.Sessions.{AnswersLines, SaysBefore, SaysOfBank};
ghost use Rattle.pb_command_io.specs.Answers.{Tells};
ghost use Rattle.pb_command_io.specs.Faults.{TellsAnyFault};
ghost use Rattle.pb_voice.specs.Texts.{memory_in};
ghost use Rattle.pb_voice.specs.Voices.{Written};

use crate::session::{Stop, session};
use pb_bank::Desk;
use pb_base::{Input, Output};
use pb_command_io::{Page, Status};
use pb_voice::Form;
use std::alloc::Global;

/// Returns the words of a call that is out of memory.
fn memory_words(form: Form) -> &'static [u8]
    ensures { line result.now ≡ memory_in form }
{
    match form {
        Form::Lines => b"memory",
        Form::Objects => b"{\"kind\":\"memory\"}",
    }
}

/// Reads commands as they come, a line each, and answers each line that was read before it reads on, in a form. The last
/// line feed may be missing. A command that is refused is answered so, and changes nothing.
///
/// The status is `Done` at the end of the input, whatever the commands were. If out of memory, this is
/// written after the answers to the first lines. If a read or a write fails, the status is
/// `Device`.
pub fn bank_engine<I: Input, O: Output>(
    alloc: Global,
    form: Form,
    input: &mut I,
    output: &mut O,
) -> Status
    ensures text { IfSome (I.rest input.old) (λ bytes.
        Tells (Written (text_of form) SaysOfBank bytes) (O.written output.old) (O.written output.new) result) }
    ensures answered { I.failures input.new ≢ I.failures input.old → IfSome (I.rest input.old) (λ bytes.
        SaysBefore (AnswersLines form) bytes (I.rest input.new) (O.written output.old) (O.written output.new)) }
    ensures faults { TellsAnyFault
        (record { reads = I.failures input.old; writes = O.failures output.old; written = O.written output.old })
        (record { reads = I.failures input.new; writes = O.failures output.new; written = O.written output.new })
        result }
{
    let Ok(mut desk) = Desk::new(alloc) else {
        return Page::new(alloc).finish_with(output, memory_words(form), Status::Memory);
    };
    match session(&mut desk, alloc, form, input, output) {
        Ok(()) => Status::Done,
        Err(stop) => match stop {
            Stop::Memory => Page::new(alloc).finish_with(
                output,
                memory_words(form),
                Status::Memory,
            ),
            Stop::Device => Status::Device,
        },
    }
}

//! The answer of a tool, over any words, input and output.

ghost use Rattle.std.specs.Prelude.{◌≡◌, ◌≢◌, OnErr, OnOk};
ghost use Rattle.pb_call.specs.Calls.{CallTellsFaults, CallWrites, elsewhere, fault_status, words_fault_text};
ghost use Rattle.pb_command_io.specs.Answers.{Says};
ghost use Rattle.pb_command_io.specs.Faults.{TellsWriteFaults};
ghost use Rattle.pb_voice.specs.Held.{at};
ghost use Rattle.pb_voice.specs.Voices.{Adds, Breaks};

use crate::commands::Commands;
use pb_base::{DeviceFault, Input, Output};
use pb_command_io::Status;
use pb_voice::{Form, Voice, say_memory, say_text};
use pb_words::{Tool, WordsFault, options, tool_of};
use std::alloc::Global;
use std::sync::Wait;
use std::thread::Threads;

/// Reads the words of a call, of which the first is the program's own name, and does what they say, if the tool
/// answers their command, which writes in this form; if another one does, that one is named, and the status is `Words`.
pub fn answer<R: Threads + Wait + Sync, C: Commands, I: Input, O: Output>(
    commands: &C,
    rt: &R,
    alloc: Global,
    form: Form,
    words: &[&str],
    input: &mut I,
    output: &mut O,
) -> Status
    ensures text { CallWrites C.tool C.MaySay form words.now (I.rest input.old) (O.written output.old) (O.written output.new) result }
    ensures faults { CallTellsFaults C.tool (C.Leaves form) words.now (I.rest input.old) (I.rest input.new)
        (record { reads = I.failures input.old; writes = O.failures output.old; written = O.written output.old })
        (record { reads = I.failures input.new; writes = O.failures output.new; written = O.written output.new })
        result }
{
    match options(alloc, words) {
        Ok(options) => match commands.answer(rt, alloc, form, options, input, output) {
            Some(status) => status,
            None => name_tool(alloc, form, output, tool_of(&options)),
        },
        Err(fault) => refuse(alloc, form, output, &fault),
    }
}

/// Says which tool answers the command.
fn say_tool<O: Output>(voice: &mut Voice, output: &mut O, tool: Tool) -> Result<(), DeviceFault>
    ensures ok { OnOk result (Adds (at O.written O.failures voice.old output.old) (elsewhere voice.old.form tool)
        (at O.written O.failures voice.new output.new)) }
    ensures err { OnErr result (Breaks (at O.written O.failures voice.old output.old) (elsewhere voice.old.form tool)
        (at O.written O.failures voice.new output.new)) }
{
    match voice.form() {
        Form::Lines => voice.say_all(
            output,
            &[
                b"error: this command is answered by ",
                tool.name().as_bytes(),
                b"\n",
            ],
        ),
        Form::Objects => voice.say_all(
            output,
            &[
                b"{\"kind\":\"line\",\"text\":\"error: this command is answered by ",
                tool.name().as_bytes(),
                b"\"}\n",
            ],
        ),
    }
}

/// Writes which tool answers the command.
fn name_tool<O: Output>(alloc: Global, form: Form, output: &mut O, tool: Tool) -> Status
    ensures text { Says (O.written output.old) (O.written output.new) (elsewhere form tool) Status.Words result }
    ensures faults { TellsWriteFaults (O.failures output.old) (O.failures output.new) result }
{
    let mut voice = Voice::new(alloc, form);
    match say_tool(&mut voice, output, tool) {
        Ok(()) => voice.finish(output, Status::Words),
        Err(_) => Status::Device,
    }
}

/// Says the text of a fault.
fn say_fault<O: Output>(
    voice: &mut Voice,
    output: &mut O,
    fault: &WordsFault,
) -> Result<(), DeviceFault>
    ensures ok { OnOk result (Adds (at O.written O.failures voice.old output.old) (words_fault_text voice.old.form fault.now)
        (at O.written O.failures voice.new output.new)) }
    ensures err { OnErr result (Breaks (at O.written O.failures voice.old output.old) (words_fault_text voice.old.form fault.now)
        (at O.written O.failures voice.new output.new)) }
{
    match fault {
        WordsFault::Words(text) => say_text(voice, output, text.as_bytes()),
        WordsFault::Memory => say_memory(voice, output),
    }
}

/// Returns the status of a fault.
fn status_of(fault: &WordsFault) -> Status
    ensures said { result ≡ fault_status fault.now }
    ensures no_device { result ≢ Status.Device }
{
    match fault {
        WordsFault::Words(_) => Status::Words,
        WordsFault::Memory => Status::Memory,
    }
}

/// Writes the text of a fault, and returns its status.
pub fn refuse<O: Output>(alloc: Global, form: Form, output: &mut O, fault: &WordsFault) -> Status
    ensures text { Says (O.written output.old) (O.written output.new) (words_fault_text form fault.now) (fault_status fault.now) result }
    ensures faults { TellsWriteFaults (O.failures output.old) (O.failures output.new) result }
{
    let mut voice = Voice::new(alloc, form);
    match say_fault(&mut voice, output, fault) {
        Ok(()) => voice.finish(output, status_of(fault)),
        Err(_) => Status::Device,
    }
}

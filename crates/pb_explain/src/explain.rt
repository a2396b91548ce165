//! The command `explain`, over any output.
ghost use Rattle.std.specs.Prelude.{◌≡◌, ◌++◌, IfOk, OnErr, OnOk, Some, option_map};
ghost use Rattle.pb_base.specs.Lines.{line as line_of};
ghost use Rattle.pb_command_io.specs.Answers.{Says, Tells};
ghost use Rattle.pb_command_io.specs.Faults.{TellsWriteFaults};
ghost use Rattle.pb_explain.specs.Explanation.{plain_entry, plain_example, plain_input, Text, Repeated};
ghost use Rattle.pb_explain.specs.Pages.{SaysOfExplain, body_text, example_text, examples_text, list_of_codes, repetition_text};
ghost use Rattle.pb_explain.specs.Pages.{shell_text, title_in};
ghost use Rattle.pb_options.specs.Codes.{all_codes};
ghost use Rattle.pb_voice.specs.Held.{at};
ghost use Rattle.pb_voice.specs.Texts.{memory_in, text_as};
ghost use Rattle.pb_voice.specs.Voices.{Adds, Breaks};

use crate::entries::{Entry, Example, ExampleInput, entry_for};
use pb_base::{DeviceFault, NoMemory, Output};
use pb_command_io::Status;
use pb_options::Code;
use pb_voice::{Form, Voice, say_memory, say_pieces, say_text};
use std::alloc::Global;

/// Appends a line to a text.
fn put_line(text: &mut Vec<u8>, line: &str) -> Result<(), NoMemory>
    ensures { OnOk result (text.new.items ≡ text.old.items ++ line_of line.now) }
{
    text.extend_from_slice(line.as_bytes())?;
    text.push(b'\n')?;
    Ok(())
}

/// Appends a call that reads a text to a text, as a shell takes it.
fn put_call_with_text(text: &mut Vec<u8>, command: &str, given: &str) -> Result<(), NoMemory>
    ensures { OnOk result (text.new.items ≡ text.old.items ++ shell_text command.now (Text given.now)) }
{
    text.extend_from_slice(b"parbegin ")?;
    text.extend_from_slice(command.as_bytes())?;
    text.extend_from_slice(b" <<END\n")?;
    text.extend_from_slice(given.as_bytes())?;
    text.extend_from_slice(b"END\n")?;
    Ok(())
}

/// Appends what makes the first line and a repeated line to a text, as a shell takes it.
fn put_repetition(text: &mut Vec<u8>, repeated: &str, times: u32) -> Result<(), NoMemory>
    ensures { OnOk result (text.new.items ≡ text.old.items ++ repetition_text repeated.now times) }
{
    let mut digits = itoa::Buffer::new();
    text.extend_from_slice(b"(echo process p begin; yes '")?;
    text.extend_from_slice(repeated.as_bytes())?;
    text.extend_from_slice(b"' | head -n ")?;
    text.extend_from_slice(digits.format(times).as_bytes())?;
    Ok(())
}

/// Appends a call that reads a repeated line to a text, as a shell takes it.
fn put_call_with_lines(
    text: &mut Vec<u8>,
    command: &str,
    repeated: &str,
    times: u32,
) -> Result<(), NoMemory>
    ensures { OnOk result (text.new.items ≡ text.old.items ++ shell_text command.now (Repeated repeated.now times)) }
{
    put_repetition(text, repeated, times)?;
    text.extend_from_slice(b"; echo print 1 end) | parbegin ")?;
    put_line(text, command)?;
    Ok(())
}

/// Appends a call to a text, as a shell takes it.
fn put_call(text: &mut Vec<u8>, command: &str, input: ExampleInput) -> Result<(), NoMemory>
    ensures { OnOk result (text.new.items ≡ text.old.items ++ shell_text command.now (plain_input input)) }
{
    match input {
        ExampleInput::Text(given) => put_call_with_text(text, command, given),
        ExampleInput::Repeated { line, times } => put_call_with_lines(text, command, line, times),
    }
}

/// Appends a call that is refused, or warned of, to a text, with what it writes.
fn put_example(text: &mut Vec<u8>, example: &Example) -> Result<(), NoMemory>
    ensures { OnOk result (text.new.items ≡ text.old.items ++ example_text (plain_example example.now)) }
{
    text.extend_from_slice(b"\nFor example:\n\n")?;
    put_call(text, example.command, example.input)?;
    text.extend_from_slice(b"\nshows\n\n")?;
    put_line(text, example.answer)?;
    Ok(())
}

/// Appends the example of a page to a text, if it has one.
fn put_any_example(text: &mut Vec<u8>, example: Option<Example>) -> Result<(), NoMemory>
    ensures { OnOk result (text.new.items ≡ text.old.items ++ examples_text (option_map plain_example example)) }
{
    match example {
        Some(example) => put_example(text, &example),
        None => Ok(()),
    }
}

/// Appends what a page has after its first line to a text.
fn put_body(text: &mut Vec<u8>, entry: &Entry) -> Result<(), NoMemory>
    ensures { OnOk result (text.new.items ≡ text.old.items ++ body_text (plain_entry entry.now)) }
{
    put_line(text, "")?;
    put_line(text, entry.meaning)?;
    put_any_example(text, entry.example)?;
    put_line(text, "")?;
    put_line(text, entry.mend)?;
    Ok(())
}

/// Returns what a page has after its first line.
fn body(alloc: Global, entry: &Entry) -> Result<Vec<u8>, NoMemory>
    ensures { IfOk result (λ text. text.items ≡ body_text (plain_entry entry.now)) }
{
    let mut text = Vec::new(alloc);
    put_body(&mut text, entry)?;
    Ok(text)
}

/// Says the first line of a page.
fn say_title<O: Output>(
    voice: &mut Voice,
    output: &mut O,
    code: Code,
    entry: &Entry,
) -> Result<(), DeviceFault>
    ensures ok { OnOk result (Adds (at O.written O.failures voice.old output.old) (title_in voice.old.form code (plain_entry entry.now))
        (at O.written O.failures voice.new output.new)) }
    ensures err { OnErr result (Breaks (at O.written O.failures voice.old output.old) (title_in voice.old.form code (plain_entry entry.now))
        (at O.written O.failures voice.new output.new)) }
{
    match voice.form() {
        Form::Lines => voice.say_all(
            output,
            &[
                code.name().as_bytes(),
                b": ",
                entry.summary.as_bytes(),
                b"\n",
            ],
        ),
        Form::Objects => say_pieces(
            voice,
            output,
            &[false, false, false, true, false],
            &[
                b"{\"kind\":\"code\",\"code\":\"",
                code.name().as_bytes(),
                b"\",\"text\":",
                entry.summary.as_bytes(),
                b"}\n",
            ],
        ),
    }
}

/// Says the first line of the page of each of these codes.
fn say_titles<O: Output>(
    voice: &mut Voice,
    output: &mut O,
    listed: &[Code],
) -> Result<(), DeviceFault>
    ensures ok { OnOk result (Adds (at O.written O.failures voice.old output.old) (list_of_codes voice.old.form listed.now)
        (at O.written O.failures voice.new output.new)) }
    ensures err { OnErr result (Breaks (at O.written O.failures voice.old output.old) (list_of_codes voice.old.form listed.now)
        (at O.written O.failures voice.new output.new)) }
{
    for i in 0..listed.len() {
        let code = listed[i];
        say_title(voice, output, code, &entry_for(code))?;
    }
    Ok(())
}

/// Says a page, with this text after its first line.
fn say_page<O: Output>(
    voice: &mut Voice,
    output: &mut O,
    code: Code,
    entry: &Entry,
    body: &[u8],
) -> Result<(), DeviceFault>
    ensures ok { OnOk result (Adds (at O.written O.failures voice.old output.old)
        (title_in voice.old.form code (plain_entry entry.now) ++ text_as voice.old.form body.now)
        (at O.written O.failures voice.new output.new)) }
    ensures err { OnErr result (Breaks (at O.written O.failures voice.old output.old)
        (title_in voice.old.form code (plain_entry entry.now) ++ text_as voice.old.form body.now)
        (at O.written O.failures voice.new output.new)) }
{
    say_title(voice, output, code, entry)?;
    say_text(voice, output, body)
}

/// Writes the list of all codes in a form.
fn write_list<O: Output>(alloc: Global, form: Form, output: &mut O) -> Status
    ensures text { Says (O.written output.old) (O.written output.new) (list_of_codes form all_codes) Status.Done result }
    ensures faults { TellsWriteFaults (O.failures output.old) (O.failures output.new) result }
{
    let mut voice = Voice::new(alloc, form);
    match say_titles(&mut voice, output, Code::ALL.as_slice()) {
        Ok(()) => voice.finish(output, Status::Done),
        Err(_) => Status::Device,
    }
}

/// Writes a page in a form, with this text after its first line.
fn write_page<O: Output>(
    alloc: Global,
    form: Form,
    code: Code,
    entry: &Entry,
    body: &[u8],
    output: &mut O,
) -> Status
    ensures text { Says (O.written output.old) (O.written output.new)
        (title_in form code (plain_entry entry.now) ++ text_as form body.now) Status.Done result }
    ensures faults { TellsWriteFaults (O.failures output.old) (O.failures output.new) result }
{
    let mut voice = Voice::new(alloc, form);
    match say_page(&mut voice, output, code, entry, body) {
        Ok(()) => voice.finish(output, Status::Done),
        Err(_) => Status::Device,
    }
}

/// Writes that the call is out of memory.
fn write_memory<O: Output>(alloc: Global, form: Form, output: &mut O) -> Status
    ensures text { Says (O.written output.old) (O.written output.new) (memory_in form) Status.Memory result }
    ensures faults { TellsWriteFaults (O.failures output.old) (O.failures output.new) result }
{
    let mut voice = Voice::new(alloc, form);
    match say_memory(&mut voice, output) {
        Ok(()) => voice.finish(output, Status::Memory),
        Err(_) => Status::Device,
    }
}

/// Writes the page of a code in a form.
fn write_entry<O: Output>(alloc: Global, form: Form, code: Code, output: &mut O) -> Status
    ensures text { Tells (SaysOfExplain form (Some code)) (O.written output.old) (O.written output.new) result }
    ensures faults { TellsWriteFaults (O.failures output.old) (O.failures output.new) result }
{
    let entry = entry_for(code);
    match body(alloc, &entry) {
        Ok(text) => write_page(alloc, form, code, &entry, &text, output),
        Err(_) => write_memory(alloc, form, output),
    }
}

/// Writes what refusals or warnings with a code mean, an example of one, and what to do about it; or, if no code is
/// given, a line for each code, in the order of `Code::ALL`: in a form.
///
/// After a write that failed, a prefix of it is written.
pub fn explain_engine<O: Output>(
    alloc: Global,
    form: Form,
    asked: Option<Code>,
    output: &mut O,
) -> Status
    ensures text { Tells (SaysOfExplain form asked) (O.written output.old) (O.written output.new) result }
    ensures faults { TellsWriteFaults (O.failures output.old) (O.failures output.new) result }
{
    match asked {
        Some(code) => write_entry(alloc, form, code, output),
        None => write_list(alloc, form, output),
    }
}

//! Texts, said in the form of a voice.

ghost use Rattle.std.specs.Prelude.{◌≡◌, ◌<◌, ◌==◌, ◌∷◌, IfSome, OnOk, OnErr, length};
ghost use Rattle.std.specs.List.{position};
ghost use Rattle.pb_voice.specs.Held.{at};
ghost use Rattle.pb_voice.specs.Texts.{line_json, lines_json, lines_of, memory_in, text_as};
ghost use Rattle.pb_voice.specs.Voices.{Adds, Breaks};

use crate::form::Form;
use crate::pieces::say_pieces;
use crate::voice::Voice;
use pb_base::{DeviceFault, Output};

/// A line without its line feed, and what comes after it.
#[derive(Clone, Copy)]
struct Cut<'t> {
    line: &'t [u8],
    rest: &'t [u8],
}

/// Returns the place of the first line feed.
fn line_feed(text: &[u8]) -> Option<usize>
    ensures place { result ≡ position (λ b. b == 10) text.now }
    ensures within { IfSome result (λ at. at < length text.now) }
{
    text.iter().position(|b| *b == b'\n')
}

/// Cuts off the first line of a text that is not empty.
fn first_line(text: &[u8]) -> Cut<'_>
    requires { 0 < length text.now }
    ensures lines { lines_of text.now ≡ result.line.now ∷ lines_of result.rest.now }
    ensures shorter { length result.rest.now < length text.now }
{
    match line_feed(text) {
        Some(at) => Cut {
            line: &text[..at],
            rest: &text[at + 1..],
        },
        None => Cut {
            line: text,
            rest: &text[text.len()..],
        },
    }
}

/// Says the object of a line.
fn say_line<O: Output>(
    voice: &mut Voice,
    output: &mut O,
    kind: &[u8],
    text: &[u8],
) -> Result<(), DeviceFault>
    ensures ok { OnOk result (Adds (at O.written O.failures voice.old output.old) (line_json kind.now text.now)
        (at O.written O.failures voice.new output.new)) }
    ensures err { OnErr result (Breaks (at O.written O.failures voice.old output.old) (line_json kind.now text.now)
        (at O.written O.failures voice.new output.new)) }
{
    say_pieces(
        voice,
        output,
        &[false, false, false, true, false],
        &[b"{\"kind\":\"", kind, b"\",\"text\":", text, b"}\n"],
    )
}

/// Says an object of this kind for each line of a text.
pub fn say_lines<O: Output>(
    voice: &mut Voice,
    output: &mut O,
    kind: &[u8],
    text: &[u8],
) -> Result<(), DeviceFault>
    ensures ok { OnOk result (Adds (at O.written O.failures voice.old output.old) (lines_json kind.now text.now)
        (at O.written O.failures voice.new output.new)) }
    ensures err { OnErr result (Breaks (at O.written O.failures voice.old output.old) (lines_json kind.now text.now)
        (at O.written O.failures voice.new output.new)) }
{
    let mut rest = text;
    while !rest.is_empty() {
        let cut = first_line(rest);
        say_line(voice, output, kind, cut.line)?;
        rest = cut.rest;
    }
    Ok(())
}

/// Says a text: as it is, or as an object for each of its lines.
pub fn say_text<O: Output>(
    voice: &mut Voice,
    output: &mut O,
    text: &[u8],
) -> Result<(), DeviceFault>
    ensures ok { OnOk result (Adds (at O.written O.failures voice.old output.old) (text_as voice.old.form text.now)
        (at O.written O.failures voice.new output.new)) }
    ensures err { OnErr result (Breaks (at O.written O.failures voice.old output.old) (text_as voice.old.form text.now)
        (at O.written O.failures voice.new output.new)) }
{
    match voice.form() {
        Form::Lines => voice.say(output, text),
        Form::Objects => say_lines(voice, output, b"line", text),
    }
}

/// Says that a call is out of memory.
pub fn say_memory<O: Output>(voice: &mut Voice, output: &mut O) -> Result<(), DeviceFault>
    ensures ok { OnOk result (Adds (at O.written O.failures voice.old output.old) (memory_in voice.old.form)
        (at O.written O.failures voice.new output.new)) }
    ensures err { OnErr result (Breaks (at O.written O.failures voice.old output.old) (memory_in voice.old.form)
        (at O.written O.failures voice.new output.new)) }
{
    match voice.form() {
        Form::Lines => voice.say(output, b"memory\n"),
        Form::Objects => voice.say(output, b"{\"kind\":\"memory\"}\n"),
    }
}

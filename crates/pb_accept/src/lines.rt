//! What is said, as lines.

ghost use Rattle.std.specs.Prelude.{◌≡◌, OnOk, OnErr};
ghost use Rattle.pb_accept.specs.Sayings.{cause_said, fault_said, line_of};
ghost use Rattle.pb_accept.specs.Refusals.{claims_line};
ghost use Rattle.pb_accept.specs.View.{said_view};
ghost use Rattle.pb_base.specs.Lines.{line};
ghost use Rattle.pb_voice.specs.Held.{at};
ghost use Rattle.pb_voice.specs.Voices.{Adds, Breaks};

use crate::cause::{Cause, lex_cause, names_cause, parse_cause};
use crate::event_lines::tell_event_line;
use crate::load::load_cause;
use crate::recorded::tell_recording_lines;
use crate::refusal::limit_words;
use crate::replay::lines_cause;
use crate::said::Said;
use crate::warning_lines::tell_warning_line;
use itoa::Buffer;
use pb_base::{DeviceFault, Output};
use pb_codegen::{ClaimsFault, CompileFault};
use pb_voice::Voice;

/// Tells the line of a cause with these words after it.
fn tell_cause<O: Output>(
    voice: &mut Voice,
    output: &mut O,
    cause: Option<Cause>,
    words: &'static [u8],
) -> Result<(), DeviceFault>
    ensures ok { OnOk result (Adds (at O.written O.failures voice.old output.old) (cause_said cause words.now)
        (at O.written O.failures voice.new output.new)) }
    ensures err { OnErr result (Breaks (at O.written O.failures voice.old output.old) (cause_said cause words.now)
        (at O.written O.failures voice.new output.new)) }
{
    let Some(cause) = cause else {
        return voice.say(output, b"memory\n");
    };
    match cause.at {
        Some(at) => {
            let mut digits = Buffer::new();
            voice.say_all(
                output,
                &[
                    b"refused ",
                    cause.code.name().as_bytes(),
                    b" at ",
                    digits.format(at).as_bytes(),
                    words,
                    b"\n",
                ],
            )
        }
        None => voice.say_all(
            output,
            &[b"refused ", cause.code.name().as_bytes(), words, b"\n"],
        ),
    }
}

/// Tells the line of a claim that is over its capital.
fn tell_over<O: Output>(
    voice: &mut Voice,
    output: &mut O,
    fault: &ClaimsFault,
) -> Result<(), DeviceFault>
    ensures ok { OnOk result (Adds (at O.written O.failures voice.old output.old) (line (claims_line fault.now))
        (at O.written O.failures voice.new output.new)) }
    ensures err { OnErr result (Breaks (at O.written O.failures voice.old output.old) (line (claims_line fault.now))
        (at O.written O.failures voice.new output.new)) }
{
    let mut claim = Buffer::new();
    let mut capital = Buffer::new();
    voice.say_all(
        output,
        &[
            b"refused C1 ",
            &fault.process,
            b" ",
            &fault.resource,
            b" claim ",
            claim.format(fault.claim).as_bytes(),
            b" capital ",
            capital.format(fault.capital).as_bytes(),
            b"\n",
        ],
    )
}

/// Tells the line of the fault of a text.
fn tell_fault<O: Output>(
    voice: &mut Voice,
    output: &mut O,
    fault: &CompileFault,
) -> Result<(), DeviceFault>
    ensures ok { OnOk result (Adds (at O.written O.failures voice.old output.old) (fault_said fault.now)
        (at O.written O.failures voice.new output.new)) }
    ensures err { OnErr result (Breaks (at O.written O.failures voice.old output.old) (fault_said fault.now)
        (at O.written O.failures voice.new output.new)) }
{
    match fault {
        CompileFault::Lex(fault) => tell_cause(voice, output, lex_cause(*fault), b""),
        CompileFault::Parse(fault) => tell_cause(voice, output, parse_cause(*fault), b""),
        CompileFault::Names(fault) => {
            tell_cause(voice, output, names_cause(*fault), limit_words(*fault))
        }
        CompileFault::Claims(fault) => tell_over(voice, output, fault),
        CompileFault::Memory => voice.say(output, b"memory\n"),
    }
}

/// Tells a thing by its line.
pub fn tell_line<O: Output>(
    voice: &mut Voice,
    output: &mut O,
    said: Said<'_>,
) -> Result<(), DeviceFault>
    ensures ok { OnOk result (Adds (at O.written O.failures voice.old output.old) (line_of (said_view said.entry))
        (at O.written O.failures voice.new output.new)) }
    ensures err { OnErr result (Breaks (at O.written O.failures voice.old output.old) (line_of (said_view said.entry))
        (at O.written O.failures voice.new output.new)) }
{
    match said {
        Said::Accepted => voice.say(output, b"ok\n"),
        Said::Refused(fault) => tell_fault(voice, output, fault),
        Said::Claim(claim) => {
            let mut digits = Buffer::new();
            voice.say_all(
                output,
                &[
                    claim.process,
                    b" claim ",
                    digits.format(claim.amount).as_bytes(),
                    b" ",
                    claim.resource,
                    b"\n",
                ],
            )
        }
        Said::NoCode(fault) => tell_cause(voice, output, load_cause(fault), b""),
        Said::NoPicks(fault) => tell_cause(voice, output, lines_cause(fault), b""),
        Said::BeyondFirst => voice.say(output, b"refused E1\n"),
        Said::Text(text) => voice.say(output, text),
        Said::Recorded(recording) => tell_recording_lines(voice, output, recording),
        Said::Shows(shown) => tell_event_line(voice, output, shown),
        Said::Ended(ending) => voice.say_all(output, &[ending.last_line(), b"\n"]),
        Said::Limit(steps) => {
            let mut digits = Buffer::new();
            voice.say_all(output, &[b"limit ", digits.format(steps).as_bytes(), b"\n"])
        }
        Said::Warns(warning) => tell_warning_line(voice, output, warning),
        Said::Threads => voice.say(output, b"threads\n"),
        Said::TooLong => voice.say(output, b"refused input\n"),
        Said::LongOutput => voice.say(output, b"refused output\n"),
        Said::NoMemory => voice.say(output, b"memory\n"),
    }
}

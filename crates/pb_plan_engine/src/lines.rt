//! What a plan says, as lines.

ghost use Rattle.std.specs.Prelude.{◌≡◌, OnOk, OnErr, map};
ghost use Rattle.std.specs.List.{flat_map};
ghost use Rattle.pb_joint.specs.View.{full_name};
ghost use Rattle.pb_plan_engine.specs.Sayings.{called_text, claimed_words, line_of, line_text, lines_text, name_text, nest_words, some_lines_text};
ghost use Rattle.pb_plan_engine.specs.Sayings as saying;
ghost use Rattle.pb_plan_engine.specs.View.{said_view};
ghost use Rattle.pb_plan_engine.specs.declared.said.Said.TheVariants as given;
ghost use Rattle.pb_voice.specs.Held.{at};
ghost use Rattle.pb_voice.specs.Voices.{Adds, Breaks};

use crate::said::{Claim, Need, Nested, Refusal, Said};
use itoa::Buffer;
use pb_base::{DeviceFault, Output};
use pb_joint::FullName;
use pb_plan::Part;
use pb_voice::Voice;

/// Says the number of a text before its refusal, if there are several.
fn say_number<O: Output>(
    voice: &mut Voice,
    output: &mut O,
    text: Option<u128>,
) -> Result<(), DeviceFault>
    ensures ok { OnOk result (Adds (at O.written O.failures voice.old output.old) (saying.text_words text) (at O.written O.failures voice.new output.new)) }
    ensures err { OnErr result (Breaks (at O.written O.failures voice.old output.old) (saying.text_words text) (at O.written O.failures voice.new output.new)) }
{
    let Some(number) = text else {
        return voice.say(output, b"");
    };
    let mut digits = Buffer::new();
    voice.say_all(output, &[b"text ", digits.format(number).as_bytes(), b" "])
}

/// Tells the line of the refusal of a text.
fn tell_refusal<O: Output>(
    voice: &mut Voice,
    output: &mut O,
    refusal: &Refusal,
) -> Result<(), DeviceFault>
    ensures ok { OnOk result (Adds (at O.written O.failures voice.old output.old) (line_of (saying.Refused refusal.now.text refusal.now.fault))
        (at O.written O.failures voice.new output.new)) }
    ensures err { OnErr result (Breaks (at O.written O.failures voice.old output.old) (line_of (saying.Refused refusal.now.text refusal.now.fault))
        (at O.written O.failures voice.new output.new)) }
{
    say_number(voice, output, refusal.text)?;
    pb_accept::tell_line(voice, output, pb_accept::Said::Refused(&refusal.fault))
}

/// Says the number of a text after the name of a process of it, if there are several.
fn say_of_text<O: Output>(
    voice: &mut Voice,
    output: &mut O,
    text: Option<usize>,
) -> Result<(), DeviceFault>
    ensures ok { OnOk result (Adds (at O.written O.failures voice.old output.old) (saying.of_words text) (at O.written O.failures voice.new output.new)) }
    ensures err { OnErr result (Breaks (at O.written O.failures voice.old output.old) (saying.of_words text) (at O.written O.failures voice.new output.new)) }
{
    let Some(number) = text else {
        return voice.say(output, b"");
    };
    let mut digits = Buffer::new();
    voice.say_all(output, &[b" of text ", digits.format(number).as_bytes()])
}

/// Says what a process is called.
fn say_called<O: Output>(
    voice: &mut Voice,
    output: &mut O,
    called: &FullName,
) -> Result<(), DeviceFault>
    ensures ok { OnOk result (Adds (at O.written O.failures voice.old output.old) (called_text (full_name called.now)) (at O.written O.failures voice.new output.new)) }
    ensures err { OnErr result (Breaks (at O.written O.failures voice.old output.old) (called_text (full_name called.now)) (at O.written O.failures voice.new output.new)) }
{
    voice.say(output, &called.name)?;
    say_of_text(voice, output, called.text)
}

/// Says the source line of each part.
fn say_numbers<O: Output>(
    voice: &mut Voice,
    output: &mut O,
    parts: &[Part],
) -> Result<(), DeviceFault>
    ensures ok { OnOk result (Adds (at O.written O.failures voice.old output.old) (flat_map line_text parts.now) (at O.written O.failures voice.new output.new)) }
    ensures err { OnErr result (Breaks (at O.written O.failures voice.old output.old) (flat_map line_text parts.now) (at O.written O.failures voice.new output.new)) }
{
    for i in 0..parts.len() {
        let mut digits = Buffer::new();
        voice.say_all(output, &[b" ", digits.format(parts[i].line).as_bytes()])?;
    }
    Ok(())
}

/// Says the word `lines` and the source line of each part.
fn say_some_lines<O: Output>(
    voice: &mut Voice,
    output: &mut O,
    parts: &[Part],
) -> Result<(), DeviceFault>
    ensures ok { OnOk result (Adds (at O.written O.failures voice.old output.old) (some_lines_text parts.now) (at O.written O.failures voice.new output.new)) }
    ensures err { OnErr result (Breaks (at O.written O.failures voice.old output.old) (some_lines_text parts.now) (at O.written O.failures voice.new output.new)) }
{
    voice.say(output, b" lines")?;
    say_numbers(voice, output, parts)
}

/// Says the word `lines` and the source line of each part; nothing if there is no part.
fn say_lines<O: Output>(
    voice: &mut Voice,
    output: &mut O,
    parts: &[Part],
) -> Result<(), DeviceFault>
    ensures ok { OnOk result (Adds (at O.written O.failures voice.old output.old) (lines_text parts.now) (at O.written O.failures voice.new output.new)) }
    ensures err { OnErr result (Breaks (at O.written O.failures voice.old output.old) (lines_text parts.now) (at O.written O.failures voice.new output.new)) }
{
    if parts.len() == 0 {
        voice.say(output, b"")
    } else {
        say_some_lines(voice, output, parts)
    }
}

/// Says a claim on a resource, without the lines that it comes from.
fn say_claim<O: Output>(
    voice: &mut Voice,
    output: &mut O,
    amount: u64,
    resource: &[u8],
) -> Result<(), DeviceFault>
    ensures ok { OnOk result (Adds (at O.written O.failures voice.old output.old) (claimed_words amount resource.now) (at O.written O.failures voice.new output.new)) }
    ensures err { OnErr result (Breaks (at O.written O.failures voice.old output.old) (claimed_words amount resource.now) (at O.written O.failures voice.new output.new)) }
{
    let mut digits = Buffer::new();
    voice.say_all(
        output,
        &[b" claim ", digits.format(amount).as_bytes(), b" ", resource],
    )
}

/// Tells the line of a claim.
fn tell_claim<O: Output>(
    voice: &mut Voice,
    output: &mut O,
    claim: &Claim,
) -> Result<(), DeviceFault>
    ensures ok { OnOk result (Adds (at O.written O.failures voice.old output.old) (line_of (said_view (given.Claim claim.now)))
        (at O.written O.failures voice.new output.new)) }
    ensures err { OnErr result (Breaks (at O.written O.failures voice.old output.old) (line_of (said_view (given.Claim claim.now)))
        (at O.written O.failures voice.new output.new)) }
{
    say_called(voice, output, &claim.process)?;
    say_claim(voice, output, claim.amount, &claim.resource)?;
    say_lines(voice, output, &claim.parts)?;
    voice.say(output, b"\n")
}

/// Tells the line of a resource.
fn tell_need<O: Output>(voice: &mut Voice, output: &mut O, need: &Need) -> Result<(), DeviceFault>
    ensures ok { OnOk result (Adds (at O.written O.failures voice.old output.old) (line_of (said_view (given.Resource need.now)))
        (at O.written O.failures voice.new output.new)) }
    ensures err { OnErr result (Breaks (at O.written O.failures voice.old output.old) (line_of (said_view (given.Resource need.now)))
        (at O.written O.failures voice.new output.new)) }
{
    let mut capital = Buffer::new();
    let mut least = Buffer::new();
    let mut free = Buffer::new();
    voice.say_all(
        output,
        &[
            &need.name,
            b" capital ",
            capital.format(need.capital).as_bytes(),
            b" least ",
            least.format(need.least).as_bytes(),
            b" free ",
            free.format(need.free).as_bytes(),
            b"\n",
        ],
    )
}

/// Says the names of resources, each after a blank.
fn say_names<O: Output>(
    voice: &mut Voice,
    output: &mut O,
    names: &[Vec<u8>],
) -> Result<(), DeviceFault>
    ensures ok { OnOk result (Adds (at O.written O.failures voice.old output.old) (flat_map (λ name. name_text name.items) names.now)
        (at O.written O.failures voice.new output.new)) }
    ensures err { OnErr result (Breaks (at O.written O.failures voice.old output.old) (flat_map (λ name. name_text name.items) names.now)
        (at O.written O.failures voice.new output.new)) }
{
    for i in 0..names.len() {
        voice.say_all(output, &[b" ", &names[i]])?;
    }
    Ok(())
}

/// Tells the line of an order.
fn tell_order<O: Output>(
    voice: &mut Voice,
    output: &mut O,
    names: &[Vec<u8>],
) -> Result<(), DeviceFault>
    ensures ok { OnOk result (Adds (at O.written O.failures voice.old output.old) (line_of (saying.Order (map (λ name. name.items) names.now)))
        (at O.written O.failures voice.new output.new)) }
    ensures err { OnErr result (Breaks (at O.written O.failures voice.old output.old) (line_of (saying.Order (map (λ name. name.items) names.now)))
        (at O.written O.failures voice.new output.new)) }
{
    voice.say(output, b"order")?;
    say_names(voice, output, names)?;
    voice.say(output, b"\n")
}

/// Says the resource and the line of each of two holds, and the end of a line.
fn say_holds<O: Output>(voice: &mut Voice, output: &mut O, nest: &Nested) -> Result<(), DeviceFault>
    ensures ok { OnOk result (Adds (at O.written O.failures voice.old output.old)
        (nest_words nest.now.outer.items nest.now.outer_line nest.now.inner.items nest.now.inner_line) (at O.written O.failures voice.new output.new)) }
    ensures err { OnErr result (Breaks (at O.written O.failures voice.old output.old)
        (nest_words nest.now.outer.items nest.now.outer_line nest.now.inner.items nest.now.inner_line) (at O.written O.failures voice.new output.new)) }
{
    let mut outer_line = Buffer::new();
    let mut inner_line = Buffer::new();
    voice.say_all(
        output,
        &[
            b" holds ",
            &nest.outer,
            b" line ",
            outer_line.format(nest.outer_line).as_bytes(),
            b" around ",
            &nest.inner,
            b" line ",
            inner_line.format(nest.inner_line).as_bytes(),
            b"\n",
        ],
    )
}

/// Tells the line of a hold inside another one.
fn tell_nest<O: Output>(voice: &mut Voice, output: &mut O, nest: &Nested) -> Result<(), DeviceFault>
    ensures ok { OnOk result (Adds (at O.written O.failures voice.old output.old) (line_of (said_view (given.Nest nest.now)))
        (at O.written O.failures voice.new output.new)) }
    ensures err { OnErr result (Breaks (at O.written O.failures voice.old output.old) (line_of (said_view (given.Nest nest.now)))
        (at O.written O.failures voice.new output.new)) }
{
    say_called(voice, output, &nest.process)?;
    say_holds(voice, output, nest)
}

/// Tells a thing by its line.
pub(crate) fn tell_line<O: Output>(
    voice: &mut Voice,
    output: &mut O,
    said: &Said,
) -> Result<(), DeviceFault>
    ensures ok { OnOk result (Adds (at O.written O.failures voice.old output.old) (line_of (said_view said.now))
        (at O.written O.failures voice.new output.new)) }
    ensures err { OnErr result (Breaks (at O.written O.failures voice.old output.old) (line_of (said_view said.now))
        (at O.written O.failures voice.new output.new)) }
{
    match said {
        Said::Refused(refusal) => tell_refusal(voice, output, refusal),
        Said::Unknown(name) => voice.say_all(output, &[b"refused N3 ", name, b"\n"]),
        Said::Claim(claim) => tell_claim(voice, output, claim),
        Said::Resource(need) => tell_need(voice, output, need),
        Said::Bottleneck(name) => voice.say_all(output, &[b"bottleneck ", name, b"\n"]),
        Said::Order(names) => tell_order(voice, output, names),
        Said::Nest(nest) => tell_nest(voice, output, nest),
        Said::NoRequestWaits => voice.say(output, b"no request waits\n"),
        Said::NoOrder => voice.say(output, b"no order\n"),
        Said::TooLong => voice.say(output, b"refused input\n"),
        Said::NoMemory => voice.say(output, b"memory\n"),
    }
}

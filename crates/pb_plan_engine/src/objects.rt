//! What a plan says, as objects of JSON.

ghost use Rattle.std.specs.Prelude.{◌≡◌, ◌++◌, OnOk, OnErr, map};
ghost use Rattle.std.specs.List.{flat_map};
ghost use Rattle.pb_joint.specs.View.{full_name};
ghost use Rattle.pb_json.specs.Strings.{escaped};
ghost use Rattle.pb_plan_engine.specs.Objects as spec;
ghost use Rattle.pb_plan_engine.specs.Objects.{called_json, code_json, json_of, later_json, later_name, parts_json, names_json, nest_json};
ghost use Rattle.pb_plan_engine.specs.Sayings as saying;
ghost use Rattle.pb_plan_engine.specs.View.{said_view};
ghost use Rattle.pb_plan_engine.specs.declared.said.Said.TheVariants as given;
ghost use Rattle.pb_voice.specs.Held.{at};
ghost use Rattle.pb_voice.specs.Voices.{Adds, Breaks};

use crate::said::{Claim, Need, Nested, Refusal, Said};
use itoa::Buffer;
use pb_accept::{Cause, limit_json, text_cause};
use pb_base::{DeviceFault, Output};
use pb_codegen::CompileFault;
use pb_joint::FullName;
use pb_plan::Part;
use pb_voice::{Voice, say_escaped, say_pieces};

/// Returns the member after the code of a fault of a text.
fn member_of(fault: &CompileFault) -> &'static [u8]
    ensures { result.now ≡ spec.member_of fault.now }
{
    match fault {
        CompileFault::Names(fault) => limit_json(*fault),
        CompileFault::Lex(_)
        | CompileFault::Parse(_)
        | CompileFault::Claims(_)
        | CompileFault::Memory => b"",
    }
}

/// Says the code of a cause with a member after it, and the end of its object.
fn say_code<O: Output>(
    voice: &mut Voice,
    output: &mut O,
    cause: Option<Cause>,
    member: &'static [u8],
) -> Result<(), DeviceFault>
    ensures ok { OnOk result (Adds (at O.written O.failures voice.old output.old) (code_json cause member.now)
        (at O.written O.failures voice.new output.new)) }
    ensures err { OnErr result (Breaks (at O.written O.failures voice.old output.old) (code_json cause member.now)
        (at O.written O.failures voice.new output.new)) }
{
    let Some(cause) = cause else {
        return voice.say(output, b"}\n");
    };
    match cause.at {
        Some(at) => {
            let mut digits = Buffer::new();
            voice.say_all(
                output,
                &[
                    b",\"code\":\"",
                    cause.code.name().as_bytes(),
                    b"\",\"at\":",
                    digits.format(at).as_bytes(),
                    member,
                    b"}\n",
                ],
            )
        }
        None => voice.say_all(
            output,
            &[
                b",\"code\":\"",
                cause.code.name().as_bytes(),
                b"\"",
                member,
                b"}\n",
            ],
        ),
    }
}

/// Says the front of the object of the refusal of a text that has this number.
fn say_front<O: Output>(voice: &mut Voice, output: &mut O, number: u128) -> Result<(), DeviceFault>
    ensures ok { OnOk result (Adds (at O.written O.failures voice.old output.old) (spec.front_json number) (at O.written O.failures voice.new output.new)) }
    ensures err { OnErr result (Breaks (at O.written O.failures voice.old output.old) (spec.front_json number) (at O.written O.failures voice.new output.new)) }
{
    let mut digits = Buffer::new();
    let number = digits.format(number).as_bytes();
    voice.say_all(output, &[b"{\"kind\":\"refused\",\"of_text\":", number])
}

/// Tells the object of the fault of a text that has this number.
fn tell_numbered<O: Output>(
    voice: &mut Voice,
    output: &mut O,
    number: u128,
    fault: &CompileFault,
) -> Result<(), DeviceFault>
    ensures ok { OnOk result (Adds (at O.written O.failures voice.old output.old) (spec.numbered_json number fault.now)
        (at O.written O.failures voice.new output.new)) }
    ensures err { OnErr result (Breaks (at O.written O.failures voice.old output.old) (spec.numbered_json number fault.now)
        (at O.written O.failures voice.new output.new)) }
{
    say_front(voice, output, number)?;
    say_code(voice, output, text_cause(fault), member_of(fault))
}

/// Tells the object of the refusal of a text.
fn tell_refusal<O: Output>(
    voice: &mut Voice,
    output: &mut O,
    refusal: &Refusal,
) -> Result<(), DeviceFault>
    ensures ok { OnOk result (Adds (at O.written O.failures voice.old output.old) (json_of (saying.Refused refusal.now.text refusal.now.fault))
        (at O.written O.failures voice.new output.new)) }
    ensures err { OnErr result (Breaks (at O.written O.failures voice.old output.old) (json_of (saying.Refused refusal.now.text refusal.now.fault))
        (at O.written O.failures voice.new output.new)) }
{
    match refusal.text {
        Some(number) => tell_numbered(voice, output, number, &refusal.fault),
        None => pb_accept::tell_object(voice, output, pb_accept::Said::Refused(&refusal.fault)),
    }
}

/// Says the member for the number of a text, if there are several.
fn say_of_text<O: Output>(
    voice: &mut Voice,
    output: &mut O,
    text: Option<usize>,
) -> Result<(), DeviceFault>
    ensures ok { OnOk result (Adds (at O.written O.failures voice.old output.old) (spec.of_json text) (at O.written O.failures voice.new output.new)) }
    ensures err { OnErr result (Breaks (at O.written O.failures voice.old output.old) (spec.of_json text) (at O.written O.failures voice.new output.new)) }
{
    let Some(number) = text else {
        return voice.say(output, b"");
    };
    let mut digits = Buffer::new();
    voice.say_all(
        output,
        &[b",\"of_text\":", digits.format(number).as_bytes()],
    )
}

/// Says an object of this kind, as far as the process that it is of.
fn say_called<O: Output>(
    voice: &mut Voice,
    output: &mut O,
    kind: &'static [u8],
    called: &FullName,
) -> Result<(), DeviceFault>
    ensures ok { OnOk result (Adds (at O.written O.failures voice.old output.old) (called_json kind.now (full_name called.now))
        (at O.written O.failures voice.new output.new)) }
    ensures err { OnErr result (Breaks (at O.written O.failures voice.old output.old) (called_json kind.now (full_name called.now))
        (at O.written O.failures voice.new output.new)) }
{
    say_pieces(
        voice,
        output,
        &[false, false, false, true],
        &[b"{\"kind\":\"", kind, b"\",\"process\":", &called.name],
    )?;
    say_of_text(voice, output, called.text)
}

/// Says the source line of each part, after a comma.
fn say_later<O: Output>(
    voice: &mut Voice,
    output: &mut O,
    parts: &[Part],
) -> Result<(), DeviceFault>
    ensures ok { OnOk result (Adds (at O.written O.failures voice.old output.old) (flat_map later_json parts.now) (at O.written O.failures voice.new output.new)) }
    ensures err { OnErr result (Breaks (at O.written O.failures voice.old output.old) (flat_map later_json parts.now) (at O.written O.failures voice.new output.new)) }
{
    for i in 0..parts.len() {
        let mut digits = Buffer::new();
        voice.say_all(output, &[b",", digits.format(parts[i].line).as_bytes()])?;
    }
    Ok(())
}

/// Says the key for the lines of parts, and the first of them.
fn say_first<O: Output>(voice: &mut Voice, output: &mut O, line: u32) -> Result<(), DeviceFault>
    ensures ok { OnOk result (Adds (at O.written O.failures voice.old output.old) (spec.first_json line) (at O.written O.failures voice.new output.new)) }
    ensures err { OnErr result (Breaks (at O.written O.failures voice.old output.old) (spec.first_json line) (at O.written O.failures voice.new output.new)) }
{
    let mut digits = Buffer::new();
    voice.say_all(output, &[b",\"lines\":[", digits.format(line).as_bytes()])
}

/// Says the member for the lines of parts, of which this is the first.
fn say_some_lines<O: Output>(
    voice: &mut Voice,
    output: &mut O,
    first: u32,
    later: &[Part],
) -> Result<(), DeviceFault>
    ensures ok { OnOk result (Adds (at O.written O.failures voice.old output.old) (spec.some_parts_json first later.now) (at O.written O.failures voice.new output.new)) }
    ensures err { OnErr result (Breaks (at O.written O.failures voice.old output.old) (spec.some_parts_json first later.now) (at O.written O.failures voice.new output.new)) }
{
    say_first(voice, output, first)?;
    say_later(voice, output, later)?;
    voice.say(output, b"]")
}

/// Says the member for the lines of parts; none if there is no part.
fn say_lines<O: Output>(
    voice: &mut Voice,
    output: &mut O,
    parts: &[Part],
) -> Result<(), DeviceFault>
    ensures ok { OnOk result (Adds (at O.written O.failures voice.old output.old) (parts_json parts.now) (at O.written O.failures voice.new output.new)) }
    ensures err { OnErr result (Breaks (at O.written O.failures voice.old output.old) (parts_json parts.now) (at O.written O.failures voice.new output.new)) }
{
    match parts {
        [first, later @ ..] => say_some_lines(voice, output, first.line, later),
        [] => voice.say(output, b""),
    }
}

/// Says a claim on a resource, without its lines.
fn say_claim<O: Output>(
    voice: &mut Voice,
    output: &mut O,
    amount: u64,
    resource: &[u8],
) -> Result<(), DeviceFault>
    ensures ok { OnOk result (Adds (at O.written O.failures voice.old output.old) (spec.claim_json amount resource.now) (at O.written O.failures voice.new output.new)) }
    ensures err { OnErr result (Breaks (at O.written O.failures voice.old output.old) (spec.claim_json amount resource.now) (at O.written O.failures voice.new output.new)) }
{
    let mut digits = Buffer::new();
    say_pieces(
        voice,
        output,
        &[false, false, false, true],
        &[
            b",\"claim\":",
            digits.format(amount).as_bytes(),
            b",\"resource\":",
            resource,
        ],
    )
}

/// Tells the object of a claim.
fn tell_claim<O: Output>(
    voice: &mut Voice,
    output: &mut O,
    claim: &Claim,
) -> Result<(), DeviceFault>
    ensures ok { OnOk result (Adds (at O.written O.failures voice.old output.old) (json_of (said_view (given.Claim claim.now)))
        (at O.written O.failures voice.new output.new)) }
    ensures err { OnErr result (Breaks (at O.written O.failures voice.old output.old) (json_of (said_view (given.Claim claim.now)))
        (at O.written O.failures voice.new output.new)) }
{
    say_called(voice, output, b"claim", &claim.process)?;
    say_claim(voice, output, claim.amount, &claim.resource)?;
    say_lines(voice, output, &claim.parts)?;
    voice.say(output, b"}\n")
}

/// Tells the object of a resource.
fn tell_need<O: Output>(voice: &mut Voice, output: &mut O, need: &Need) -> Result<(), DeviceFault>
    ensures ok { OnOk result (Adds (at O.written O.failures voice.old output.old) (json_of (said_view (given.Resource need.now)))
        (at O.written O.failures voice.new output.new)) }
    ensures err { OnErr result (Breaks (at O.written O.failures voice.old output.old) (json_of (said_view (given.Resource need.now)))
        (at O.written O.failures voice.new output.new)) }
{
    let mut capital = Buffer::new();
    let mut least = Buffer::new();
    let mut free = Buffer::new();
    say_pieces(
        voice,
        output,
        &[false, true, false, false, false, false, false, false, false],
        &[
            b"{\"kind\":\"resource\",\"resource\":",
            &need.name,
            b",\"capital\":",
            capital.format(need.capital).as_bytes(),
            b",\"least\":",
            least.format(need.least).as_bytes(),
            b",\"free\":",
            free.format(need.free).as_bytes(),
            b"}\n",
        ],
    )
}

/// Says a name inside a string, after a blank.
fn say_later_name<O: Output>(
    voice: &mut Voice,
    output: &mut O,
    name: &[u8],
) -> Result<(), DeviceFault>
    ensures ok { OnOk result (Adds (at O.written O.failures voice.old output.old) (later_name name.now) (at O.written O.failures voice.new output.new)) }
    ensures err { OnErr result (Breaks (at O.written O.failures voice.old output.old) (later_name name.now) (at O.written O.failures voice.new output.new)) }
{
    voice.say(output, b" ")?;
    say_escaped(voice, output, name)
}

/// Says names inside a string, each after a blank.
fn say_later_names<O: Output>(
    voice: &mut Voice,
    output: &mut O,
    names: &[Vec<u8>],
) -> Result<(), DeviceFault>
    ensures ok { OnOk result (Adds (at O.written O.failures voice.old output.old) (flat_map (λ name. later_name name.items) names.now)
        (at O.written O.failures voice.new output.new)) }
    ensures err { OnErr result (Breaks (at O.written O.failures voice.old output.old) (flat_map (λ name. later_name name.items) names.now)
        (at O.written O.failures voice.new output.new)) }
{
    for i in 0..names.len() {
        say_later_name(voice, output, &names[i])?;
    }
    Ok(())
}

/// Says names inside a string, with blanks between them, of which this is the first.
fn say_some_names<O: Output>(
    voice: &mut Voice,
    output: &mut O,
    first: &[u8],
    later: &[Vec<u8>],
) -> Result<(), DeviceFault>
    ensures ok { OnOk result (Adds (at O.written O.failures voice.old output.old)
        (flat_map escaped first.now ++ flat_map (λ name. later_name name.items) later.now) (at O.written O.failures voice.new output.new)) }
    ensures err { OnErr result (Breaks (at O.written O.failures voice.old output.old)
        (flat_map escaped first.now ++ flat_map (λ name. later_name name.items) later.now) (at O.written O.failures voice.new output.new)) }
{
    say_escaped(voice, output, first)?;
    say_later_names(voice, output, later)
}

/// Says names inside a string, with blanks between them.
fn say_names<O: Output>(
    voice: &mut Voice,
    output: &mut O,
    names: &[Vec<u8>],
) -> Result<(), DeviceFault>
    ensures ok { OnOk result (Adds (at O.written O.failures voice.old output.old) (names_json (map (λ name. name.items) names.now))
        (at O.written O.failures voice.new output.new)) }
    ensures err { OnErr result (Breaks (at O.written O.failures voice.old output.old) (names_json (map (λ name. name.items) names.now))
        (at O.written O.failures voice.new output.new)) }
{
    match names {
        [first, later @ ..] => say_some_names(voice, output, first, later),
        [] => voice.say(output, b""),
    }
}

/// Tells the object of an order.
fn tell_order<O: Output>(
    voice: &mut Voice,
    output: &mut O,
    names: &[Vec<u8>],
) -> Result<(), DeviceFault>
    ensures ok { OnOk result (Adds (at O.written O.failures voice.old output.old) (json_of (saying.Order (map (λ name. name.items) names.now)))
        (at O.written O.failures voice.new output.new)) }
    ensures err { OnErr result (Breaks (at O.written O.failures voice.old output.old) (json_of (saying.Order (map (λ name. name.items) names.now)))
        (at O.written O.failures voice.new output.new)) }
{
    voice.say(output, b"{\"kind\":\"order\",\"text\":\"")?;
    say_names(voice, output, names)?;
    voice.say(output, b"\"}\n")
}

/// Says the resource and the line of each of two holds, and the end of an object.
fn say_holds<O: Output>(voice: &mut Voice, output: &mut O, nest: &Nested) -> Result<(), DeviceFault>
    ensures ok { OnOk result (Adds (at O.written O.failures voice.old output.old)
        (nest_json nest.now.outer.items nest.now.outer_line nest.now.inner.items nest.now.inner_line) (at O.written O.failures voice.new output.new)) }
    ensures err { OnErr result (Breaks (at O.written O.failures voice.old output.old)
        (nest_json nest.now.outer.items nest.now.outer_line nest.now.inner.items nest.now.inner_line) (at O.written O.failures voice.new output.new)) }
{
    let mut outer_line = Buffer::new();
    let mut inner_line = Buffer::new();
    say_pieces(
        voice,
        output,
        &[false, true, false, false, false, true, false, false, false],
        &[
            b",\"outer\":",
            &nest.outer,
            b",\"outer_line\":",
            outer_line.format(nest.outer_line).as_bytes(),
            b",\"inner\":",
            &nest.inner,
            b",\"inner_line\":",
            inner_line.format(nest.inner_line).as_bytes(),
            b"}\n",
        ],
    )
}

/// Tells the object of a hold inside another one.
fn tell_nest<O: Output>(voice: &mut Voice, output: &mut O, nest: &Nested) -> Result<(), DeviceFault>
    ensures ok { OnOk result (Adds (at O.written O.failures voice.old output.old) (json_of (said_view (given.Nest nest.now)))
        (at O.written O.failures voice.new output.new)) }
    ensures err { OnErr result (Breaks (at O.written O.failures voice.old output.old) (json_of (said_view (given.Nest nest.now)))
        (at O.written O.failures voice.new output.new)) }
{
    say_called(voice, output, b"nest", &nest.process)?;
    say_holds(voice, output, nest)
}

/// Tells the object of a resource that is named and not declared.
fn tell_unknown<O: Output>(
    voice: &mut Voice,
    output: &mut O,
    name: &[u8],
) -> Result<(), DeviceFault>
    ensures ok { OnOk result (Adds (at O.written O.failures voice.old output.old) (json_of (saying.Unknown name.now)) (at O.written O.failures voice.new output.new)) }
    ensures err { OnErr result (Breaks (at O.written O.failures voice.old output.old) (json_of (saying.Unknown name.now)) (at O.written O.failures voice.new output.new)) }
{
    say_pieces(
        voice,
        output,
        &[false, true, false],
        &[
            b"{\"kind\":\"refused\",\"code\":\"N3\",\"text\":",
            name,
            b"}\n",
        ],
    )
}

/// Tells the object of the bottleneck.
fn tell_bottleneck<O: Output>(
    voice: &mut Voice,
    output: &mut O,
    name: &[u8],
) -> Result<(), DeviceFault>
    ensures ok { OnOk result (Adds (at O.written O.failures voice.old output.old) (json_of (saying.Bottleneck name.now)) (at O.written O.failures voice.new output.new)) }
    ensures err { OnErr result (Breaks (at O.written O.failures voice.old output.old) (json_of (saying.Bottleneck name.now)) (at O.written O.failures voice.new output.new)) }
{
    say_pieces(
        voice,
        output,
        &[false, true, false],
        &[b"{\"kind\":\"bottleneck\",\"resource\":", name, b"}\n"],
    )
}

/// Tells a thing by its object.
pub(crate) fn tell_object<O: Output>(
    voice: &mut Voice,
    output: &mut O,
    said: &Said,
) -> Result<(), DeviceFault>
    ensures ok { OnOk result (Adds (at O.written O.failures voice.old output.old) (json_of (said_view said.now))
        (at O.written O.failures voice.new output.new)) }
    ensures err { OnErr result (Breaks (at O.written O.failures voice.old output.old) (json_of (said_view said.now))
        (at O.written O.failures voice.new output.new)) }
{
    match said {
        Said::Refused(refusal) => tell_refusal(voice, output, refusal),
        Said::Unknown(name) => tell_unknown(voice, output, name),
        Said::Claim(claim) => tell_claim(voice, output, claim),
        Said::Resource(need) => tell_need(voice, output, need),
        Said::Bottleneck(name) => tell_bottleneck(voice, output, name),
        Said::Order(names) => tell_order(voice, output, names),
        Said::Nest(nest) => tell_nest(voice, output, nest),
        Said::NoRequestWaits => voice.say(output, b"{\"kind\":\"no request waits\"}\n"),
        Said::NoOrder => voice.say(output, b"{\"kind\":\"no order\"}\n"),
        Said::TooLong => voice.say(output, b"{\"kind\":\"refused\",\"code\":\"input\"}\n"),
        Said::NoMemory => voice.say(output, b"{\"kind\":\"memory\"}\n"),
    }
}

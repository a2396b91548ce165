//! What is said, as objects of JSON.

ghost use Rattle.std.specs.Prelude.{◌≡◌, OnOk, OnErr};
ghost use Rattle.pb_accept.specs.Objects as spec;
ghost use Rattle.pb_accept.specs.Objects.{cause_json, fault_json, json_of, over_json};
ghost use Rattle.pb_accept.specs.Sayings as sayings;
ghost use Rattle.pb_accept.specs.View.{said_view};
ghost use Rattle.pb_voice.specs.Held.{at};
ghost use Rattle.pb_voice.specs.Voices.{Adds, Breaks};

use crate::cause::{Cause, lex_cause, names_cause, parse_cause};
use crate::ending::Ending;
use crate::event_objects::tell_event_object;
use crate::load::load_cause;
use crate::recorded::tell_recording_objects;
use crate::replay::lines_cause;
use crate::said::{Claim, Said};
use crate::warning_objects::tell_warning_object;
use itoa::Buffer;
use pb_base::{DeviceFault, Output};
use pb_codegen::{ClaimsFault, CompileFault};
use pb_names::{Kind, NameFault};
use pb_voice::{Voice, say_lines, say_pieces};

/// Returns the member for what there is too much of.
fn kind_json(kind: Kind) -> &'static [u8]
    ensures { result.now ≡ spec.kind_json kind }
{
    match kind {
        Kind::Processes => b",\"text\":\"processes\"",
        Kind::Resources => b",\"text\":\"resources\"",
        Kind::Integers => b",\"text\":\"integers\"",
        Kind::Fork => b",\"text\":\"fork\"",
        Kind::Arms => b",\"text\":\"arms\"",
    }
}

/// Returns the member after the code of a fault of names.
pub fn limit_json(fault: NameFault) -> &'static [u8]
    ensures { result.now ≡ spec.limit_json fault }
{
    match fault {
        NameFault::TooMany(kind) => kind_json(kind),
        NameFault::Twice(_)
        | NameFault::Unknown(_)
        | NameFault::Amount(_)
        | NameFault::Repeated(_)
        | NameFault::NoMemory => b"",
    }
}

/// Tells the object of a cause with this member after it.
fn tell_cause<O: Output>(
    voice: &mut Voice,
    output: &mut O,
    cause: Option<Cause>,
    member: &'static [u8],
) -> Result<(), DeviceFault>
    ensures ok { OnOk result (Adds (at O.written O.failures voice.old output.old) (cause_json cause member.now)
        (at O.written O.failures voice.new output.new)) }
    ensures err { OnErr result (Breaks (at O.written O.failures voice.old output.old) (cause_json cause member.now)
        (at O.written O.failures voice.new output.new)) }
{
    let Some(cause) = cause else {
        return voice.say(output, b"{\"kind\":\"memory\"}\n");
    };
    match cause.at {
        Some(at) => {
            let mut digits = Buffer::new();
            voice.say_all(
                output,
                &[
                    b"{\"kind\":\"refused\",\"code\":\"",
                    cause.code.name().as_bytes(),
                    b"\",\"at\":",
                    digits.format(at).as_bytes(),
                    member,
                    b"}\n",
                ],
            )
        }
        None => voice.say_all(
            output,
            &[
                b"{\"kind\":\"refused\",\"code\":\"",
                cause.code.name().as_bytes(),
                b"\"",
                member,
                b"}\n",
            ],
        ),
    }
}

/// Tells the object of a claim that is over its capital.
fn tell_over<O: Output>(
    voice: &mut Voice,
    output: &mut O,
    fault: &ClaimsFault,
) -> Result<(), DeviceFault>
    ensures ok { OnOk result (Adds (at O.written O.failures voice.old output.old) (over_json fault.now)
        (at O.written O.failures voice.new output.new)) }
    ensures err { OnErr result (Breaks (at O.written O.failures voice.old output.old) (over_json fault.now)
        (at O.written O.failures voice.new output.new)) }
{
    let mut claim = Buffer::new();
    let mut capital = Buffer::new();
    say_pieces(
        voice,
        output,
        &[false, true, false, true, false, false, false, false, false],
        &[
            b"{\"kind\":\"refused\",\"code\":\"C1\",\"process\":",
            &fault.process,
            b",\"resource\":",
            &fault.resource,
            b",\"claim\":",
            claim.format(fault.claim).as_bytes(),
            b",\"capital\":",
            capital.format(fault.capital).as_bytes(),
            b"}\n",
        ],
    )
}

/// Tells the object of the fault of a text.
fn tell_fault<O: Output>(
    voice: &mut Voice,
    output: &mut O,
    fault: &CompileFault,
) -> Result<(), DeviceFault>
    ensures ok { OnOk result (Adds (at O.written O.failures voice.old output.old) (fault_json fault.now)
        (at O.written O.failures voice.new output.new)) }
    ensures err { OnErr result (Breaks (at O.written O.failures voice.old output.old) (fault_json fault.now)
        (at O.written O.failures voice.new output.new)) }
{
    match fault {
        CompileFault::Lex(fault) => tell_cause(voice, output, lex_cause(*fault), b""),
        CompileFault::Parse(fault) => tell_cause(voice, output, parse_cause(*fault), b""),
        CompileFault::Names(fault) => {
            tell_cause(voice, output, names_cause(*fault), limit_json(*fault))
        }
        CompileFault::Claims(fault) => tell_over(voice, output, fault),
        CompileFault::Memory => voice.say(output, b"{\"kind\":\"memory\"}\n"),
    }
}

/// Tells the object of a claim.
fn tell_claim<O: Output>(
    voice: &mut Voice,
    output: &mut O,
    claim: Claim<'_>,
) -> Result<(), DeviceFault>
    ensures ok { OnOk result (Adds (at O.written O.failures voice.old output.old)
        (json_of (sayings.Claim claim.entry.process.now claim.entry.amount claim.entry.resource.now)) (at O.written O.failures voice.new output.new)) }
    ensures err { OnErr result (Breaks (at O.written O.failures voice.old output.old)
        (json_of (sayings.Claim claim.entry.process.now claim.entry.amount claim.entry.resource.now)) (at O.written O.failures voice.new output.new)) }
{
    let mut digits = Buffer::new();
    say_pieces(
        voice,
        output,
        &[false, true, false, false, false, true, false],
        &[
            b"{\"kind\":\"claim\",\"process\":",
            claim.process,
            b",\"claim\":",
            digits.format(claim.amount).as_bytes(),
            b",\"resource\":",
            claim.resource,
            b"}\n",
        ],
    )
}

/// Returns the object of how a replay ended.
fn ending_json(ending: Ending) -> &'static [u8]
    ensures { result.now ≡ spec.ending_json ending }
{
    match ending {
        Ending::Over => b"{\"kind\":\"done\"}\n",
        Ending::Stuck => b"{\"kind\":\"deadlocked\"}\n",
        Ending::Open => b"{\"kind\":\"open\"}\n",
    }
}

/// Tells a thing by its object.
pub fn tell_object<O: Output>(
    voice: &mut Voice,
    output: &mut O,
    said: Said<'_>,
) -> Result<(), DeviceFault>
    ensures ok { OnOk result (Adds (at O.written O.failures voice.old output.old) (json_of (said_view said.entry))
        (at O.written O.failures voice.new output.new)) }
    ensures err { OnErr result (Breaks (at O.written O.failures voice.old output.old) (json_of (said_view said.entry))
        (at O.written O.failures voice.new output.new)) }
{
    match said {
        Said::Accepted => voice.say(output, b"{\"kind\":\"ok\"}\n"),
        Said::Refused(fault) => tell_fault(voice, output, fault),
        Said::Claim(claim) => tell_claim(voice, output, claim),
        Said::NoCode(fault) => tell_cause(voice, output, load_cause(fault), b""),
        Said::NoPicks(fault) => tell_cause(voice, output, lines_cause(fault), b""),
        Said::BeyondFirst => voice.say(output, b"{\"kind\":\"refused\",\"code\":\"E1\"}\n"),
        Said::Text(text) => say_lines(voice, output, b"line", text),
        Said::Recorded(recording) => tell_recording_objects(voice, output, recording),
        Said::Shows(shown) => tell_event_object(voice, output, shown),
        Said::Ended(ending) => voice.say(output, ending_json(ending)),
        Said::Limit(steps) => {
            let mut digits = Buffer::new();
            voice.say_all(
                output,
                &[
                    b"{\"kind\":\"limit\",\"limit\":",
                    digits.format(steps).as_bytes(),
                    b"}\n",
                ],
            )
        }
        Said::Warns(warning) => tell_warning_object(voice, output, warning),
        Said::Threads => voice.say(output, b"{\"kind\":\"threads\"}\n"),
        Said::TooLong => voice.say(output, b"{\"kind\":\"refused\",\"code\":\"input\"}\n"),
        Said::LongOutput => voice.say(output, b"{\"kind\":\"refused\",\"code\":\"output\"}\n"),
        Said::NoMemory => voice.say(output, b"{\"kind\":\"memory\"}\n"),
    }
}

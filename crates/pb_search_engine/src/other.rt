//! What is not as expected of runs, and of a text.

ghost use Rattle.std.specs.Prelude.{◌≡◌, OnOk, OnErr};
ghost use Rattle.pb_search_engine.specs.OtherTexts as spec;
ghost use Rattle.pb_search_engine.specs.OtherTexts.{bad_json, bad_line, claim_json, lacks_json, other_json, other_line, other_text};
ghost use Rattle.pb_search_engine.specs.Requirements.{requirement_text};
ghost use Rattle.pb_voice.specs.Held.{at};
ghost use Rattle.pb_voice.specs.Voices.{Adds, Breaks};

use crate::requirements::{Requirement, part_words};
use itoa::Buffer;
use pb_base::{DeviceFault, Output};
use pb_voice::{Voice, say_escaped, say_pieces};

/// What is not as expected of runs.
#[derive(Clone, Copy, Debug, PartialEq, Eq)]
pub enum Other {
    /// A process faulted.
    Fault,
    /// Other prints were made.
    Prints,
    /// There is a deadlock.
    Deadlock,
    /// Some run does not end, or some fair one.
    Endless { fair: bool },
}

/// Returns what is not as expected, in words.
fn other_words(other: Other) -> &'static [u8]
    ensures { result.now ≡ spec.other_text other }
{
    match other {
        Other::Fault => b"a fault",
        Other::Prints => b"other prints",
        Other::Deadlock => b"a deadlock",
        Other::Endless { fair: false } => b"some run does not end",
        Other::Endless { fair: true } => b"some fair run does not end",
    }
}

/// Tells the line that says what is not as expected.
pub fn tell_other_line<O: Output>(
    voice: &mut Voice,
    output: &mut O,
    other: Other,
) -> Result<(), DeviceFault>
    ensures ok { OnOk result (Adds (at O.written O.failures voice.old output.old) (other_line (other_text other))
        (at O.written O.failures voice.new output.new)) }
    ensures err { OnErr result (Breaks (at O.written O.failures voice.old output.old) (other_line (other_text other))
        (at O.written O.failures voice.new output.new)) }
{
    voice.say_all(output, &[b"not as expected: ", other_words(other), b"\n"])
}

/// Tells the object that says what is not as expected.
pub fn tell_other_object<O: Output>(
    voice: &mut Voice,
    output: &mut O,
    other: Other,
) -> Result<(), DeviceFault>
    ensures ok { OnOk result (Adds (at O.written O.failures voice.old output.old) (other_json (other_text other))
        (at O.written O.failures voice.new output.new)) }
    ensures err { OnErr result (Breaks (at O.written O.failures voice.old output.old) (other_json (other_text other))
        (at O.written O.failures voice.new output.new)) }
{
    say_pieces(
        voice,
        output,
        &[false, true, false],
        &[
            b"{\"kind\":\"not as expected\",\"text\":",
            other_words(other),
            b"}\n",
        ],
    )
}

/// Tells the line of a requirement that is not met.
pub fn tell_lacks_line<O: Output>(
    voice: &mut Voice,
    output: &mut O,
    requirement: Requirement<'_>,
) -> Result<(), DeviceFault>
    ensures ok { OnOk result (Adds (at O.written O.failures voice.old output.old) (other_line (requirement_text requirement.entry))
        (at O.written O.failures voice.new output.new)) }
    ensures err { OnErr result (Breaks (at O.written O.failures voice.old output.old) (other_line (requirement_text requirement.entry))
        (at O.written O.failures voice.new output.new)) }
{
    match requirement {
        Requirement::Claims { amount, resource } => {
            let mut digits = Buffer::new();
            voice.say_all(
                output,
                &[
                    b"not as expected: claims at least ",
                    digits.format(amount).as_bytes(),
                    b" ",
                    resource,
                    b"\n",
                ],
            )
        }
        Requirement::Has(part) => voice.say_all(
            output,
            &[b"not as expected: ", part_words(part), b"\n"],
        ),
    }
}

/// Tells the object of a claim that is required and not there.
fn tell_claim_object<O: Output>(
    voice: &mut Voice,
    output: &mut O,
    amount: u32,
    resource: &[u8],
) -> Result<(), DeviceFault>
    ensures ok { OnOk result (Adds (at O.written O.failures voice.old output.old) (claim_json amount resource.now)
        (at O.written O.failures voice.new output.new)) }
    ensures err { OnErr result (Breaks (at O.written O.failures voice.old output.old) (claim_json amount resource.now)
        (at O.written O.failures voice.new output.new)) }
{
    let mut digits = Buffer::new();
    voice.say_all(
        output,
        &[
            b"{\"kind\":\"not as expected\",\"text\":\"claims at least ",
            digits.format(amount).as_bytes(),
            b" ",
        ],
    )?;
    say_escaped(voice, output, resource)?;
    voice.say(output, b"\"}\n")
}

/// Tells the object of a requirement that is not met.
pub fn tell_lacks_object<O: Output>(
    voice: &mut Voice,
    output: &mut O,
    requirement: Requirement<'_>,
) -> Result<(), DeviceFault>
    ensures ok { OnOk result (Adds (at O.written O.failures voice.old output.old) (lacks_json requirement.entry)
        (at O.written O.failures voice.new output.new)) }
    ensures err { OnErr result (Breaks (at O.written O.failures voice.old output.old) (lacks_json requirement.entry)
        (at O.written O.failures voice.new output.new)) }
{
    match requirement {
        Requirement::Claims { amount, resource } => {
            tell_claim_object(voice, output, amount, resource)
        }
        Requirement::Has(part) => say_pieces(
            voice,
            output,
            &[false, true, false],
            &[
                b"{\"kind\":\"not as expected\",\"text\":",
                part_words(part),
                b"}\n",
            ],
        ),
    }
}

/// Tells the line that a line of what is asked, which begins at this place, asks for nothing.
pub fn tell_bad_line<O: Output>(
    voice: &mut Voice,
    output: &mut O,
    place: usize,
) -> Result<(), DeviceFault>
    ensures ok { OnOk result (Adds (at O.written O.failures voice.old output.old) (bad_line place)
        (at O.written O.failures voice.new output.new)) }
    ensures err { OnErr result (Breaks (at O.written O.failures voice.old output.old) (bad_line place)
        (at O.written O.failures voice.new output.new)) }
{
    let mut digits = Buffer::new();
    voice.say_all(
        output,
        &[b"refused K1 at ", digits.format(place).as_bytes(), b"\n"],
    )
}

/// Tells the object that a line of what is asked, which begins at this place, asks for nothing.
pub fn tell_bad_object<O: Output>(
    voice: &mut Voice,
    output: &mut O,
    place: usize,
) -> Result<(), DeviceFault>
    ensures ok { OnOk result (Adds (at O.written O.failures voice.old output.old) (bad_json place)
        (at O.written O.failures voice.new output.new)) }
    ensures err { OnErr result (Breaks (at O.written O.failures voice.old output.old) (bad_json place)
        (at O.written O.failures voice.new output.new)) }
{
    let mut digits = Buffer::new();
    voice.say_all(
        output,
        &[
            b"{\"kind\":\"refused\",\"code\":\"K1\",\"at\":",
            digits.format(place).as_bytes(),
            b"}\n",
        ],
    )
}

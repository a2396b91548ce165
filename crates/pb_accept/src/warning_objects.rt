//! Warnings, told as objects.

ghost use Rattle.std.specs.Prelude.{◌≡◌, OnErr, OnOk};
ghost use Rattle.pb_accept.specs.Warned.{warning_json};
ghost use Rattle.pb_voice.specs.Held.{at};
ghost use Rattle.pb_voice.specs.Voices.{Adds, Breaks};
ghost use Rattle.pb_warnings.specs.Warnings as spec;

use itoa::Buffer;
use pb_base::{DeviceFault, Output};
use pb_voice::{Voice, say_pieces};
use pb_warnings::Warning;

/// Tells the object of a parbegin with one arm.
fn tell_lone<O: Output>(voice: &mut Voice, output: &mut O, line: usize) -> Result<(), DeviceFault>
    ensures ok { OnOk result (Adds (at O.written O.failures voice.old output.old) (warning_json (spec.OneArm line))
        (at O.written O.failures voice.new output.new)) }
    ensures err { OnErr result (Breaks (at O.written O.failures voice.old output.old) (warning_json (spec.OneArm line))
        (at O.written O.failures voice.new output.new)) }
{
    let mut digits = Buffer::new();
    say_pieces(
        voice,
        output,
        &[false, false, false],
        &[
            b"{\"kind\":\"warning\",\"code\":\"W1\",\"line\":",
            digits.format(line).as_bytes(),
            b"}\n",
        ],
    )
}

/// Tells the object of an integer that is never read.
fn tell_unread<O: Output>(
    voice: &mut Voice,
    output: &mut O,
    line: usize,
    process: &[u8],
    integer: &[u8],
) -> Result<(), DeviceFault>
    ensures ok { OnOk result (Adds (at O.written O.failures voice.old output.old) (warning_json (spec.NeverRead line process.now integer.now))
        (at O.written O.failures voice.new output.new)) }
    ensures err { OnErr result (Breaks (at O.written O.failures voice.old output.old) (warning_json (spec.NeverRead line process.now integer.now))
        (at O.written O.failures voice.new output.new)) }
{
    let mut digits = Buffer::new();
    say_pieces(
        voice,
        output,
        &[false, false, false, true, false, true, false],
        &[
            b"{\"kind\":\"warning\",\"code\":\"W2\",\"line\":",
            digits.format(line).as_bytes(),
            b",\"process\":",
            process,
            b",\"integer\":",
            integer,
            b"}\n",
        ],
    )
}

/// Tells the object of a resource with more units than all claims on it.
fn tell_unused<O: Output>(
    voice: &mut Voice,
    output: &mut O,
    line: usize,
    resource: &[u8],
    claims: u64,
    capital: u64,
) -> Result<(), DeviceFault>
    ensures ok { OnOk result (Adds (at O.written O.failures voice.old output.old) (warning_json (spec.NotUsed line resource.now claims capital))
        (at O.written O.failures voice.new output.new)) }
    ensures err { OnErr result (Breaks (at O.written O.failures voice.old output.old) (warning_json (spec.NotUsed line resource.now claims capital))
        (at O.written O.failures voice.new output.new)) }
{
    let mut digits = Buffer::new();
    let mut claimed = Buffer::new();
    let mut units = Buffer::new();
    say_pieces(
        voice,
        output,
        &[false, false, false, true, false, false, false, false, false],
        &[
            b"{\"kind\":\"warning\",\"code\":\"W3\",\"line\":",
            digits.format(line).as_bytes(),
            b",\"resource\":",
            resource,
            b",\"claims\":",
            claimed.format(claims).as_bytes(),
            b",\"capital\":",
            units.format(capital).as_bytes(),
            b"}\n",
        ],
    )
}

/// Tells the object of a warning.
pub(crate) fn tell_warning_object<O: Output>(
    voice: &mut Voice,
    output: &mut O,
    warning: &Warning,
) -> Result<(), DeviceFault>
    ensures ok { OnOk result (Adds (at O.written O.failures voice.old output.old) (warning_json (spec.warning warning.now))
        (at O.written O.failures voice.new output.new)) }
    ensures err { OnErr result (Breaks (at O.written O.failures voice.old output.old) (warning_json (spec.warning warning.now))
        (at O.written O.failures voice.new output.new)) }
{
    match warning {
        Warning::OneArm { line } => tell_lone(voice, output, *line),
        Warning::NeverRead {
            line,
            process,
            integer,
        } => tell_unread(voice, output, *line, process, integer),
        Warning::NotUsed {
            line,
            resource,
            claims,
            capital,
        } => tell_unused(voice, output, *line, resource, *claims, *capital),
    }
}

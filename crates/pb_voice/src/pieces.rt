//! Objects of JSON, said piece by piece.

ghost use Rattle.std.specs.Prelude.{◌≡◌, OnOk, OnErr, length};
ghost use Rattle.std.specs.List.{flat_map, zip};
ghost use Rattle.pb_json.specs.Strings.{escaped, string_text};
ghost use Rattle.pb_voice.specs.Held.{at};
ghost use Rattle.pb_voice.specs.Pieces.{piece_text};
ghost use Rattle.pb_voice.specs.Voices.{Adds, Breaks};

use crate::voice::Voice;
use pb_base::{DeviceFault, Output};
use pb_json::{hex_digit, is_plain};

/// Says what stands for a byte inside a string.
fn say_byte<O: Output>(voice: &mut Voice, output: &mut O, byte: u8) -> Result<(), DeviceFault>
    ensures ok { OnOk result (Adds (at O.written O.failures voice.old output.old) (escaped byte) (at O.written O.failures voice.new output.new)) }
    ensures err { OnErr result (Breaks (at O.written O.failures voice.old output.old) (escaped byte) (at O.written O.failures voice.new output.new)) }
{
    if byte == b'"' {
        return voice.say(output, b"\\\"");
    }
    if byte == b'\\' {
        return voice.say(output, b"\\\\");
    }
    if byte == b'\n' {
        return voice.say(output, b"\\n");
    }
    if is_plain(byte) {
        return voice.say(output, &[byte]);
    }
    let high = hex_digit(byte / 16);
    let low = hex_digit(byte % 16);
    voice.say(output, &[b'\\', b'u', b'0', b'0', high, low])
}

/// Says the inside of a string.
pub fn say_escaped<O: Output>(
    voice: &mut Voice,
    output: &mut O,
    bytes: &[u8],
) -> Result<(), DeviceFault>
    ensures ok { OnOk result (Adds (at O.written O.failures voice.old output.old) (flat_map escaped bytes.now)
        (at O.written O.failures voice.new output.new)) }
    ensures err { OnErr result (Breaks (at O.written O.failures voice.old output.old) (flat_map escaped bytes.now)
        (at O.written O.failures voice.new output.new)) }
{
    for i in 0..bytes.len() {
        say_byte(voice, output, bytes[i])?;
    }
    Ok(())
}

/// Says a string, with its quotes.
fn say_string<O: Output>(voice: &mut Voice, output: &mut O, bytes: &[u8]) -> Result<(), DeviceFault>
    ensures ok { OnOk result (Adds (at O.written O.failures voice.old output.old) (string_text bytes.now)
        (at O.written O.failures voice.new output.new)) }
    ensures err { OnErr result (Breaks (at O.written O.failures voice.old output.old) (string_text bytes.now)
        (at O.written O.failures voice.new output.new)) }
{
    voice.say(output, b"\"")?;
    say_escaped(voice, output, bytes)?;
    voice.say(output, b"\"")
}

/// Says a piece, as it is or as a string.
fn say_piece<O: Output>(
    voice: &mut Voice,
    output: &mut O,
    quoted: bool,
    bytes: &[u8],
) -> Result<(), DeviceFault>
    ensures ok { OnOk result (Adds (at O.written O.failures voice.old output.old) (piece_text (quoted, bytes.entry))
        (at O.written O.failures voice.new output.new)) }
    ensures err { OnErr result (Breaks (at O.written O.failures voice.old output.old) (piece_text (quoted, bytes.entry))
        (at O.written O.failures voice.new output.new)) }
{
    if quoted {
        say_string(voice, output, bytes)
    } else {
        voice.say(output, bytes)
    }
}

/// Says pieces, one after another, each as it is or as a string.
pub fn say_pieces<O: Output>(
    voice: &mut Voice,
    output: &mut O,
    quoted: &[bool],
    pieces: &[&[u8]],
) -> Result<(), DeviceFault>
    requires { length quoted.now ≡ length pieces.now }
    ensures ok { OnOk result (Adds (at O.written O.failures voice.old output.old) (flat_map piece_text (zip quoted.now pieces.now))
        (at O.written O.failures voice.new output.new)) }
    ensures err { OnErr result (Breaks (at O.written O.failures voice.old output.old) (flat_map piece_text (zip quoted.now pieces.now))
        (at O.written O.failures voice.new output.new)) }
{
    for i in 0..pieces.len() {
        say_piece(voice, output, quoted[i], pieces[i])?;
    }
    Ok(())
}

//! Integers, said as values of JSON.

ghost use Rattle.std.specs.Prelude.{OnOk, OnErr};
ghost use Rattle.pb_json.specs.Values.{integer_text};
ghost use Rattle.pb_voice.specs.Held.{at};
ghost use Rattle.pb_voice.specs.Voices.{Adds, Breaks};

use crate::voice::Voice;
use itoa::Buffer;
use pb_base::{DeviceFault, Output};
use pb_json::is_exact;

/// Says an integer: a number, or a string of its digits if a reader might round it.
pub fn say_integer<O: Output>(
    voice: &mut Voice,
    output: &mut O,
    value: i64,
) -> Result<(), DeviceFault>
    ensures ok { OnOk result (Adds (at O.written O.failures voice.old output.old) (integer_text value)
        (at O.written O.failures voice.new output.new)) }
    ensures err { OnErr result (Breaks (at O.written O.failures voice.old output.old) (integer_text value)
        (at O.written O.failures voice.new output.new)) }
{
    let mut digits = Buffer::new();
    let text = digits.format(value).as_bytes();
    if is_exact(value) {
        return voice.say(output, text);
    }
    voice.say_all(output, &[b"\"", text, b"\""])
}

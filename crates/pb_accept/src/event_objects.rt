//! What a run shows, as objects of JSON.

ghost use Rattle.std.specs.Prelude.{◌≡◌, ◌++◌, OnOk, OnErr, length};
ghost use Rattle.pb_accept.specs.EventObjects.{bundle_json, event_json, fault_json, pair_at, pair_json};
ghost use Rattle.pb_base.specs.Lines.{each_below, names_view};
ghost use Rattle.pb_base.specs.declared.event.Event.TheVariants as spec;
ghost use Rattle.pb_json.specs.Values.{comma as comma_text};
ghost use Rattle.pb_voice.specs.Held.{at};
ghost use Rattle.pb_voice.specs.Voices.{Adds, Breaks};

use crate::event_lines::{fault_word, name_of};
use crate::said::Shown;
use itoa::Buffer;
use pb_base::{Bundle, DeviceFault, Event, Names, Output, Pair, Pick};
use pb_voice::{Voice, say_integer, say_pieces};

/// Returns the comma before the item of a list with this number, counted from 0: none before the first.
fn comma(item: usize) -> &'static [u8]
    ensures { result.now ≡ comma_text item }
{
    if item == 0 { b"" } else { b"," }
}

/// Tells an amount, after this.
fn tell_pair<O: Output>(
    voice: &mut Voice,
    output: &mut O,
    before: &'static [u8],
    names: &Names,
    pair: Pair,
) -> Result<(), DeviceFault>
    ensures ok { OnOk result (Adds (at O.written O.failures voice.old output.old)
        (before.now ++ pair_json (names_view names.now) pair) (at O.written O.failures voice.new output.new)) }
    ensures err { OnErr result (Breaks (at O.written O.failures voice.old output.old)
        (before.now ++ pair_json (names_view names.now) pair) (at O.written O.failures voice.new output.new)) }
{
    let mut digits = Buffer::new();
    say_pieces(
        voice,
        output,
        &[false, false, false, false, true, false],
        &[
            before,
            b"{\"amount\":",
            digits.format(pair.amount).as_bytes(),
            b",\"resource\":",
            name_of(&names.resources, pair.resource),
            b"}",
        ],
    )
}

/// Tells the amounts of a bundle, without the brackets.
pub fn tell_pair_objects<O: Output>(
    voice: &mut Voice,
    output: &mut O,
    names: &Names,
    bundle: &Bundle,
) -> Result<(), DeviceFault>
    ensures ok { OnOk result (Adds (at O.written O.failures voice.old output.old)
        (each_below (λ k. comma_text k ++ pair_at (names_view names.now) bundle.now k) (length bundle.now)) (at O.written O.failures voice.new output.new)) }
    ensures err { OnErr result (Breaks (at O.written O.failures voice.old output.old)
        (each_below (λ k. comma_text k ++ pair_at (names_view names.now) bundle.now k) (length bundle.now)) (at O.written O.failures voice.new output.new)) }
{
    for i in 0..bundle.len() {
        tell_pair(voice, output, comma(i), names, bundle.get(i))?;
    }
    Ok(())
}

/// Tells the object of amounts that an arm was lent or gave back.
fn tell_bundle<O: Output>(
    voice: &mut Voice,
    output: &mut O,
    kind: &'static [u8],
    names: &Names,
    pick: Pick,
    bundle: &Bundle,
) -> Result<(), DeviceFault>
    ensures ok { OnOk result (Adds (at O.written O.failures voice.old output.old)
        (bundle_json kind.now (names_view names.now) pick bundle.now) (at O.written O.failures voice.new output.new)) }
    ensures err { OnErr result (Breaks (at O.written O.failures voice.old output.old)
        (bundle_json kind.now (names_view names.now) pick bundle.now) (at O.written O.failures voice.new output.new)) }
{
    let mut arm = Buffer::new();
    say_pieces(
        voice,
        output,
        &[false, false, false, true, false, false, false],
        &[
            b"{\"kind\":\"",
            kind,
            b"\",\"process\":",
            name_of(&names.processes, pick.process),
            b",\"arm\":",
            arm.format(pick.arm).as_bytes(),
            b",\"amounts\":[",
        ],
    )?;
    tell_pair_objects(voice, output, names, bundle)?;
    voice.say(output, b"]}\n")
}

/// Tells the object of a number that an arm printed.
fn tell_printed<O: Output>(
    voice: &mut Voice,
    output: &mut O,
    names: &Names,
    pick: Pick,
    value: i64,
) -> Result<(), DeviceFault>
    ensures ok { OnOk result (Adds (at O.written O.failures voice.old output.old)
        (event_json (names_view names.now) (spec.Printed pick value)) (at O.written O.failures voice.new output.new)) }
    ensures err { OnErr result (Breaks (at O.written O.failures voice.old output.old)
        (event_json (names_view names.now) (spec.Printed pick value)) (at O.written O.failures voice.new output.new)) }
{
    let mut arm = Buffer::new();
    say_pieces(
        voice,
        output,
        &[false, true, false, false, false],
        &[
            b"{\"kind\":\"print\",\"process\":",
            name_of(&names.processes, pick.process),
            b",\"arm\":",
            arm.format(pick.arm).as_bytes(),
            b",\"value\":",
        ],
    )?;
    say_integer(voice, output, value)?;
    voice.say(output, b"}\n")
}

/// Tells the object of a fault of an arm, by its word.
fn tell_faulted<O: Output>(
    voice: &mut Voice,
    output: &mut O,
    word: &'static [u8],
    names: &Names,
    pick: Pick,
) -> Result<(), DeviceFault>
    ensures ok { OnOk result (Adds (at O.written O.failures voice.old output.old)
        (fault_json word.now (names_view names.now) pick) (at O.written O.failures voice.new output.new)) }
    ensures err { OnErr result (Breaks (at O.written O.failures voice.old output.old)
        (fault_json word.now (names_view names.now) pick) (at O.written O.failures voice.new output.new)) }
{
    let mut arm = Buffer::new();
    say_pieces(
        voice,
        output,
        &[false, true, false, false, false, false, false],
        &[
            b"{\"kind\":\"fault\",\"process\":",
            name_of(&names.processes, pick.process),
            b",\"arm\":",
            arm.format(pick.arm).as_bytes(),
            b",\"fault\":\"",
            word,
            b"\"}\n",
        ],
    )
}

/// Tells the object of the end of a process.
fn tell_finished<O: Output>(
    voice: &mut Voice,
    output: &mut O,
    names: &Names,
    process: u8,
) -> Result<(), DeviceFault>
    ensures ok { OnOk result (Adds (at O.written O.failures voice.old output.old)
        (event_json (names_view names.now) (spec.Finished process)) (at O.written O.failures voice.new output.new)) }
    ensures err { OnErr result (Breaks (at O.written O.failures voice.old output.old)
        (event_json (names_view names.now) (spec.Finished process)) (at O.written O.failures voice.new output.new)) }
{
    say_pieces(
        voice,
        output,
        &[false, true, false],
        &[
            b"{\"kind\":\"end\",\"process\":",
            name_of(&names.processes, process),
            b"}\n",
        ],
    )
}

/// Tells an event by its object.
pub(crate) fn tell_event_object<O: Output>(
    voice: &mut Voice,
    output: &mut O,
    shown: Shown<'_>,
) -> Result<(), DeviceFault>
    ensures ok { OnOk result (Adds (at O.written O.failures voice.old output.old)
        (event_json (names_view shown.entry.names.now) shown.entry.event.now) (at O.written O.failures voice.new output.new)) }
    ensures err { OnErr result (Breaks (at O.written O.failures voice.old output.old)
        (event_json (names_view shown.entry.names.now) shown.entry.event.now) (at O.written O.failures voice.new output.new)) }
{
    let names = shown.names;
    match shown.event {
        Event::Granted { pick, bundle } => {
            tell_bundle(voice, output, b"grant", names, *pick, bundle)
        }
        Event::Returned { pick, bundle } => {
            tell_bundle(voice, output, b"return", names, *pick, bundle)
        }
        Event::Printed { pick, value } => tell_printed(voice, output, names, *pick, *value),
        Event::Faulted { pick, kind } => {
            tell_faulted(voice, output, fault_word(*kind), names, *pick)
        }
        Event::Finished { process } => tell_finished(voice, output, names, *process),
    }
}

//! What a run shows, as lines.

ghost use Rattle.std.specs.Prelude.{◌≡◌, ◌++◌, OnOk, OnErr, codes, map};
ghost use Rattle.std.specs.Fmt.{signed_decimal};
ghost use Rattle.pb_base.specs.Lines as spec;
ghost use Rattle.pb_base.specs.Lines.{fault_text, line, line_of, names_view, pair_text, pairs_text, pick_text};
ghost use Rattle.pb_voice.specs.Held.{at};
ghost use Rattle.pb_voice.specs.Voices.{Adds, Breaks};

use crate::said::Shown;
use itoa::Buffer;
use pb_base::{Bundle, DeviceFault, Event, FaultKind, Names, Output, Pair, Pick};
use pb_voice::Voice;

/// Returns the name with a number, or no bytes if there is none.
pub(crate) fn name_of(names: &[Vec<u8>], number: u8) -> &[u8]
    ensures { result.now ≡ spec.name_of (map (λ name. name.items) names.now) number }
{
    match names.get(usize::from(number)) {
        Some(name) => name.as_slice(),
        None => b"",
    }
}

/// Returns the word for a fault.
pub(crate) fn fault_word(kind: FaultKind) -> &'static [u8]
    ensures { result.now ≡ fault_text kind }
{
    match kind {
        FaultKind::Divide => b"divide",
        FaultKind::Overflow => b"overflow",
    }
}

/// Tells an amount and its resource, as ` k R`.
fn tell_pair<O: Output>(
    voice: &mut Voice,
    output: &mut O,
    names: &Names,
    pair: Pair,
) -> Result<(), DeviceFault>
    ensures ok { OnOk result (Adds (at O.written O.failures voice.old output.old) (pair_text (names_view names.now) pair)
        (at O.written O.failures voice.new output.new)) }
    ensures err { OnErr result (Breaks (at O.written O.failures voice.old output.old) (pair_text (names_view names.now) pair)
        (at O.written O.failures voice.new output.new)) }
{
    let mut digits = Buffer::new();
    voice.say_all(
        output,
        &[
            b" ",
            digits.format(pair.amount).as_bytes(),
            b" ",
            name_of(&names.resources, pair.resource),
        ],
    )
}

/// Tells the pairs of a bundle, in their order.
pub fn tell_pairs<O: Output>(
    voice: &mut Voice,
    output: &mut O,
    names: &Names,
    bundle: &Bundle,
) -> Result<(), DeviceFault>
    ensures ok { OnOk result (Adds (at O.written O.failures voice.old output.old) (pairs_text (names_view names.now) bundle.now)
        (at O.written O.failures voice.new output.new)) }
    ensures err { OnErr result (Breaks (at O.written O.failures voice.old output.old) (pairs_text (names_view names.now) bundle.now)
        (at O.written O.failures voice.new output.new)) }
{
    for i in 0..bundle.len() {
        tell_pair(voice, output, names, bundle.get(i))?;
    }
    Ok(())
}

/// Tells the line of amounts that an arm was lent or gave back, by this word.
fn tell_bundle<O: Output>(
    voice: &mut Voice,
    output: &mut O,
    word: &'static [u8],
    names: &Names,
    pick: Pick,
    bundle: &Bundle,
) -> Result<(), DeviceFault>
    ensures ok { OnOk result (Adds (at O.written O.failures voice.old output.old)
        (line (pick_text (names_view names.now) pick ++ word.now ++ pairs_text (names_view names.now) bundle.now))
        (at O.written O.failures voice.new output.new)) }
    ensures err { OnErr result (Breaks (at O.written O.failures voice.old output.old)
        (line (pick_text (names_view names.now) pick ++ word.now ++ pairs_text (names_view names.now) bundle.now))
        (at O.written O.failures voice.new output.new)) }
{
    let mut arm = Buffer::new();
    voice.say_all(
        output,
        &[
            name_of(&names.processes, pick.process),
            b".",
            arm.format(pick.arm).as_bytes(),
            word,
        ],
    )?;
    tell_pairs(voice, output, names, bundle)?;
    voice.say(output, b"\n")
}

/// Tells an event by its line.
#[tactic(auto, unfolding(pb_base::specs::Lines::line_of))]
pub(crate) fn tell_event_line<O: Output>(
    voice: &mut Voice,
    output: &mut O,
    shown: Shown<'_>,
) -> Result<(), DeviceFault>
    ensures ok { OnOk result (Adds (at O.written O.failures voice.old output.old)
        (line (line_of (names_view shown.entry.names.now) shown.entry.event.now)) (at O.written O.failures voice.new output.new)) }
    ensures err { OnErr result (Breaks (at O.written O.failures voice.old output.old)
        (line (line_of (names_view shown.entry.names.now) shown.entry.event.now)) (at O.written O.failures voice.new output.new)) }
{
    let names = shown.names;
    match shown.event {
        Event::Granted { pick, bundle } => {
            tell_bundle(voice, output, b" grant", names, *pick, bundle)
        }
        Event::Returned { pick, bundle } => {
            tell_bundle(voice, output, b" return", names, *pick, bundle)
        }
        Event::Printed { pick, value } => tell_printed(voice, output, names, *pick, *value),
        Event::Faulted { pick, kind } => {
            tell_faulted(voice, output, fault_word(*kind), names, *pick)
        }
        Event::Finished { process } => voice.say_all(
            output,
            &[name_of(&names.processes, *process), b" end\n"],
        ),
    }
}

/// Tells the line of a number that an arm printed.
fn tell_printed<O: Output>(
    voice: &mut Voice,
    output: &mut O,
    names: &Names,
    pick: Pick,
    value: i64,
) -> Result<(), DeviceFault>
    ensures ok { OnOk result (Adds (at O.written O.failures voice.old output.old)
        (line (pick_text (names_view names.now) pick ++ codes " print " ++ signed_decimal value)) (at O.written O.failures voice.new output.new)) }
    ensures err { OnErr result (Breaks (at O.written O.failures voice.old output.old)
        (line (pick_text (names_view names.now) pick ++ codes " print " ++ signed_decimal value)) (at O.written O.failures voice.new output.new)) }
{
    let mut arm = Buffer::new();
    let mut digits = Buffer::new();
    voice.say_all(
        output,
        &[
            name_of(&names.processes, pick.process),
            b".",
            arm.format(pick.arm).as_bytes(),
            b" print ",
            digits.format(value).as_bytes(),
            b"\n",
        ],
    )
}

/// Tells the line of a fault of an arm, by its word.
fn tell_faulted<O: Output>(
    voice: &mut Voice,
    output: &mut O,
    word: &'static [u8],
    names: &Names,
    pick: Pick,
) -> Result<(), DeviceFault>
    ensures ok { OnOk result (Adds (at O.written O.failures voice.old output.old)
        (line (pick_text (names_view names.now) pick ++ codes " fault " ++ word.now)) (at O.written O.failures voice.new output.new)) }
    ensures err { OnErr result (Breaks (at O.written O.failures voice.old output.old)
        (line (pick_text (names_view names.now) pick ++ codes " fault " ++ word.now)) (at O.written O.failures voice.new output.new)) }
{
    let mut arm = Buffer::new();
    voice.say_all(
        output,
        &[
            name_of(&names.processes, pick.process),
            b".",
            arm.format(pick.arm).as_bytes(),
            b" fault ",
            word,
            b"\n",
        ],
    )
}

//! Picks, as lines.

ghost use Rattle.std.specs.Prelude.{OnOk, OnErr};
ghost use Rattle.std.specs.List.{flat_map};
ghost use Rattle.pb_base.specs.Lines.{names_view};
ghost use Rattle.pb_search_engine.specs.ItemLines.{circle_lines, counted_line};
ghost use Rattle.pb_voice.specs.Held.{at};
ghost use Rattle.pb_voice.specs.Voices.{Adds, Breaks};

use crate::names::name_at;
use itoa::Buffer;
use pb_base::{DeviceFault, Names, Output};
use pb_history::CountedPick;
use pb_voice::Voice;

/// Tells the line of picks that follow one another.
fn tell_pick<O: Output>(
    voice: &mut Voice,
    output: &mut O,
    names: &Names,
    counted: CountedPick,
) -> Result<(), DeviceFault>
    ensures ok { OnOk result (Adds (at O.written O.failures voice.old output.old) (counted_line (names_view names.now) counted)
        (at O.written O.failures voice.new output.new)) }
    ensures err { OnErr result (Breaks (at O.written O.failures voice.old output.old) (counted_line (names_view names.now) counted)
        (at O.written O.failures voice.new output.new)) }
{
    let mut arm = Buffer::new();
    let mut count = Buffer::new();
    voice.say_all(
        output,
        &[
            name_at(&names.processes, counted.pick.process as usize),
            b".",
            arm.format(counted.pick.arm).as_bytes(),
            b" ",
            count.format(counted.count).as_bytes(),
            b"\n",
        ],
    )
}

/// Tells the lines of picks.
pub fn tell_picks<O: Output>(
    voice: &mut Voice,
    output: &mut O,
    names: &Names,
    picks: &[CountedPick],
) -> Result<(), DeviceFault>
    ensures ok { OnOk result (Adds (at O.written O.failures voice.old output.old) (flat_map (counted_line (names_view names.now)) picks.now)
        (at O.written O.failures voice.new output.new)) }
    ensures err { OnErr result (Breaks (at O.written O.failures voice.old output.old) (flat_map (counted_line (names_view names.now)) picks.now)
        (at O.written O.failures voice.new output.new)) }
{
    for i in 0..picks.len() {
        tell_pick(voice, output, names, picks[i])?;
    }
    Ok(())
}

/// Tells the lines of picks of a run that never ends, after what they do.
pub fn tell_circle_lines<O: Output>(
    voice: &mut Voice,
    output: &mut O,
    heading: &'static [u8],
    names: &Names,
    picks: &[CountedPick],
) -> Result<(), DeviceFault>
    ensures ok { OnOk result (Adds (at O.written O.failures voice.old output.old) (circle_lines heading.now (names_view names.now) picks.now)
        (at O.written O.failures voice.new output.new)) }
    ensures err { OnErr result (Breaks (at O.written O.failures voice.old output.old) (circle_lines heading.now (names_view names.now) picks.now)
        (at O.written O.failures voice.new output.new)) }
{
    voice.say(output, heading)?;
    tell_picks(voice, output, names, picks)
}

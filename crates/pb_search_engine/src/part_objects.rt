//! The parts of an outcome or a deadlock, its prints and its picks, as objects of JSON.

ghost use Rattle.std.specs.Prelude.{◌≡◌, ◌∷◌, [], OnOk, OnErr, IfOk, true};
ghost use Rattle.pb_base.specs.Lines.{names_view};
ghost use Rattle.pb_code.specs.View.{labels_view};
ghost use Rattle.pb_search_engine.specs.ItemObjects as spec;
ghost use Rattle.pb_search_engine.specs.ItemObjects.{each, entries, part_json, counted_pick_json, picks_json, print_json, prints_json};
ghost use Rattle.pb_search_engine.specs.ItemObjects.{section_json, sections_json, still_first};
ghost use Rattle.pb_search_engine.specs.Parts.{is_of as is_part_of};
ghost use Rattle.pb_search_engine.specs.declared.part.Part.TheVariants.{Asks as AnyAsks, Holds as AnyHolds, Integer as AnyInteger, Stands as AnyStands};
ghost use Rattle.pb_voice.specs.Held.{at};
ghost use Rattle.pb_voice.specs.Voices.{Adds, Breaks};

use crate::names::{integers_at, name_at};
use crate::part::{Part, Section, is_of};
use itoa::Buffer;
use pb_accept::tell_pair_objects;
use pb_base::{DeviceFault, Names, Output};
use pb_code::Labels;
use pb_history::CountedPick;
use pb_search::{Ask, StuckState};
use pb_search_stages::Print;
use pb_voice::{Voice, say_integer, say_pieces};

/// Returns the comma before an entry of a list, unless it is the first.
fn comma(first: bool) -> &'static [u8]
    ensures { result.now ≡ spec.comma_unless first }
{
    if first { b"" } else { b"," }
}

/// Returns the beginning of the object that says where a process is.
fn state_start(state: StuckState) -> &'static [u8]
    ensures { result.now ≡ spec.state_start state }
{
    match state {
        StuckState::Ended => b"{\"kind\":\"ended\",\"process\":",
        StuckState::Faulted => b"{\"kind\":\"faulted\",\"process\":",
        StuckState::Waiting => b"{\"kind\":\"waits\",\"process\":",
    }
}

/// Tells the object of an integer of a process.
fn tell_integer<O: Output>(
    voice: &mut Voice,
    output: &mut O,
    names: &Names,
    labels: &Labels,
    process: usize,
    integer: usize,
    value: i64,
) -> Result<(), DeviceFault>
    ensures ok { OnOk result (Adds (at O.written O.failures voice.old output.old) (part_json (names_view names.now) (labels_view labels.now) (AnyInteger process integer value))
        (at O.written O.failures voice.new output.new)) }
    ensures err { OnErr result (Breaks (at O.written O.failures voice.old output.old) (part_json (names_view names.now) (labels_view labels.now) (AnyInteger process integer value))
        (at O.written O.failures voice.new output.new)) }
{
    say_pieces(
        voice,
        output,
        &[false, true, false, true, false],
        &[
            b"{\"kind\":\"integer\",\"process\":",
            name_at(&names.processes, process),
            b",\"integer\":",
            name_at(integers_at(&labels.processes, process), integer),
            b",\"value\":",
        ],
    )?;
    say_integer(voice, output, value)?;
    voice.say(output, b"}")
}

/// Tells the object of what an arm of a process asks for.
fn tell_ask<O: Output>(
    voice: &mut Voice,
    output: &mut O,
    names: &Names,
    process: usize,
    ask: &Ask,
) -> Result<(), DeviceFault>
    ensures ok { OnOk result (Adds (at O.written O.failures voice.old output.old) (part_json (names_view names.now) [] (AnyAsks process ask.now))
        (at O.written O.failures voice.new output.new)) }
    ensures err { OnErr result (Breaks (at O.written O.failures voice.old output.old) (part_json (names_view names.now) [] (AnyAsks process ask.now))
        (at O.written O.failures voice.new output.new)) }
{
    let mut arm = Buffer::new();
    say_pieces(
        voice,
        output,
        &[false, true, false, false, false],
        &[
            b"{\"kind\":\"asks\",\"process\":",
            name_at(&names.processes, process),
            b",\"arm\":",
            arm.format(ask.arm).as_bytes(),
            b",\"amounts\":[",
        ],
    )?;
    tell_pair_objects(voice, output, names, &ask.bundle)?;
    voice.say(output, b"]}")
}

/// Tells the object that says where a process is.
fn tell_state<O: Output>(
    voice: &mut Voice,
    output: &mut O,
    names: &Names,
    process: usize,
    state: StuckState,
) -> Result<(), DeviceFault>
    ensures ok { OnOk result (Adds (at O.written O.failures voice.old output.old) (part_json (names_view names.now) [] (AnyStands process state))
        (at O.written O.failures voice.new output.new)) }
    ensures err { OnErr result (Breaks (at O.written O.failures voice.old output.old) (part_json (names_view names.now) [] (AnyStands process state))
        (at O.written O.failures voice.new output.new)) }
{
    voice.say(output, state_start(state))?;
    say_pieces(
        voice,
        output,
        &[true, false],
        &[name_at(&names.processes, process), b"}"],
    )
}

/// Tells the object of what a process holds of a resource.
fn tell_hold<O: Output>(
    voice: &mut Voice,
    output: &mut O,
    names: &Names,
    process: usize,
    resource: usize,
    amount: u32,
) -> Result<(), DeviceFault>
    ensures ok { OnOk result (Adds (at O.written O.failures voice.old output.old) (part_json (names_view names.now) [] (AnyHolds process resource amount))
        (at O.written O.failures voice.new output.new)) }
    ensures err { OnErr result (Breaks (at O.written O.failures voice.old output.old) (part_json (names_view names.now) [] (AnyHolds process resource amount))
        (at O.written O.failures voice.new output.new)) }
{
    let mut digits = Buffer::new();
    say_pieces(
        voice,
        output,
        &[false, true, false, false, false, true, false],
        &[
            b"{\"kind\":\"holds\",\"process\":",
            name_at(&names.processes, process),
            b",\"amount\":",
            digits.format(amount).as_bytes(),
            b",\"resource\":",
            name_at(&names.resources, resource),
            b"}",
        ],
    )
}

/// Tells the object of a part.
fn tell_part<O: Output>(
    voice: &mut Voice,
    output: &mut O,
    names: &Names,
    labels: &Labels,
    part: &Part,
) -> Result<(), DeviceFault>
    ensures ok { OnOk result (Adds (at O.written O.failures voice.old output.old) (part_json (names_view names.now) (labels_view labels.now) part.now)
        (at O.written O.failures voice.new output.new)) }
    ensures err { OnErr result (Breaks (at O.written O.failures voice.old output.old) (part_json (names_view names.now) (labels_view labels.now) part.now)
        (at O.written O.failures voice.new output.new)) }
{
    match part {
        Part::Stands { process, state } => { tell_state(voice, output, names, *process, *state) }
        Part::Integer {
            process,
            integer,
            value,
        } => tell_integer(voice, output, names, labels, *process, *integer, *value),
        Part::Holds {
            process,
            resource,
            amount,
        } => tell_hold(voice, output, names, *process, *resource, *amount),
        Part::Asks { process, ask } => tell_ask(voice, output, names, *process, ask),
    }
}

/// Tells the entry of a part if it is of a section, and returns whether the next entry is the first.
fn tell_part_entry<O: Output>(
    voice: &mut Voice,
    output: &mut O,
    names: &Names,
    labels: &Labels,
    section: Section,
    first: bool,
    part: &Part,
) -> Result<bool, DeviceFault>
    ensures next { IfOk result (λ next. next ≡ still_first (is_part_of section) first (part.now ∷ [])) }
    ensures ok { OnOk result (Adds (at O.written O.failures voice.old output.old) (entries (is_part_of section) (part_json (names_view names.now) (labels_view labels.now)) first (part.now ∷ []))
        (at O.written O.failures voice.new output.new)) }
    ensures err { OnErr result (Breaks (at O.written O.failures voice.old output.old) (entries (is_part_of section) (part_json (names_view names.now) (labels_view labels.now)) first (part.now ∷ []))
        (at O.written O.failures voice.new output.new)) }
{
    if !is_of(section, part) {
        return Ok(first);
    }
    voice.say(output, comma(first))?;
    tell_part(voice, output, names, labels, part)?;
    Ok(false)
}

/// Tells the entries of those parts that are of a section.
fn tell_part_entries<O: Output>(
    voice: &mut Voice,
    output: &mut O,
    names: &Names,
    labels: &Labels,
    section: Section,
    parts: &[Part],
) -> Result<(), DeviceFault>
    ensures ok { OnOk result (Adds (at O.written O.failures voice.old output.old) (entries (is_part_of section) (part_json (names_view names.now) (labels_view labels.now)) true parts.now)
        (at O.written O.failures voice.new output.new)) }
    ensures err { OnErr result (Breaks (at O.written O.failures voice.old output.old) (entries (is_part_of section) (part_json (names_view names.now) (labels_view labels.now)) true parts.now)
        (at O.written O.failures voice.new output.new)) }
{
    let mut first = true;
    for i in 0..parts.len() {
        first = tell_part_entry(voice, output, names, labels, section, first, &parts[i])?;
    }
    Ok(())
}

/// Tells the member that is the list of a section.
fn tell_section<O: Output>(
    voice: &mut Voice,
    output: &mut O,
    key: &'static [u8],
    names: &Names,
    labels: &Labels,
    section: Section,
    parts: &[Part],
) -> Result<(), DeviceFault>
    ensures ok { OnOk result (Adds (at O.written O.failures voice.old output.old) (section_json (names_view names.now) (labels_view labels.now) key.now section parts.now)
        (at O.written O.failures voice.new output.new)) }
    ensures err { OnErr result (Breaks (at O.written O.failures voice.old output.old) (section_json (names_view names.now) (labels_view labels.now) key.now section parts.now)
        (at O.written O.failures voice.new output.new)) }
{
    voice.say(output, key)?;
    tell_part_entries(voice, output, names, labels, section, parts)?;
    voice.say(output, b"]")
}

/// Tells the lists of parts.
pub fn tell_sections<O: Output>(
    voice: &mut Voice,
    output: &mut O,
    names: &Names,
    labels: &Labels,
    parts: &[Part],
) -> Result<(), DeviceFault>
    ensures ok { OnOk result (Adds (at O.written O.failures voice.old output.old) (sections_json (names_view names.now) (labels_view labels.now) parts.now)
        (at O.written O.failures voice.new output.new)) }
    ensures err { OnErr result (Breaks (at O.written O.failures voice.old output.old) (sections_json (names_view names.now) (labels_view labels.now) parts.now)
        (at O.written O.failures voice.new output.new)) }
{
    let processes = Section::Processes;
    tell_section(
        voice,
        output,
        b",\"processes\":[",
        names,
        labels,
        processes,
        parts,
    )?;
    let integers = Section::Integers;
    tell_section(
        voice,
        output,
        b",\"integers\":[",
        names,
        labels,
        integers,
        parts,
    )?;
    let holds = Section::Holds;
    tell_section(voice, output, b",\"holds\":[", names, labels, holds, parts)?;
    let asks = Section::Asks;
    tell_section(voice, output, b",\"asks\":[", names, labels, asks, parts)
}

/// Tells the object of a print.
fn tell_print<O: Output>(
    voice: &mut Voice,
    output: &mut O,
    names: &Names,
    print: Print,
) -> Result<(), DeviceFault>
    ensures ok { OnOk result (Adds (at O.written O.failures voice.old output.old) (print_json (names_view names.now) print)
        (at O.written O.failures voice.new output.new)) }
    ensures err { OnErr result (Breaks (at O.written O.failures voice.old output.old) (print_json (names_view names.now) print)
        (at O.written O.failures voice.new output.new)) }
{
    let mut arm = Buffer::new();
    say_pieces(
        voice,
        output,
        &[false, true, false, false, false],
        &[
            b"{\"kind\":\"print\",\"process\":",
            name_at(&names.processes, print.pick.process as usize),
            b",\"arm\":",
            arm.format(print.pick.arm).as_bytes(),
            b",\"value\":",
        ],
    )?;
    say_integer(voice, output, print.value)?;
    voice.say(output, b"}")
}

/// Tells the entry of a print, and returns whether the next entry is the first.
fn tell_print_entry<O: Output>(
    voice: &mut Voice,
    output: &mut O,
    names: &Names,
    first: bool,
    print: Print,
) -> Result<bool, DeviceFault>
    ensures next { IfOk result (λ next. next ≡ still_first each first (print ∷ [])) }
    ensures ok { OnOk result (Adds (at O.written O.failures voice.old output.old) (entries each (print_json (names_view names.now)) first (print ∷ []))
        (at O.written O.failures voice.new output.new)) }
    ensures err { OnErr result (Breaks (at O.written O.failures voice.old output.old) (entries each (print_json (names_view names.now)) first (print ∷ []))
        (at O.written O.failures voice.new output.new)) }
{
    voice.say(output, comma(first))?;
    tell_print(voice, output, names, print)?;
    Ok(false)
}

/// Tells the entries of prints.
fn tell_print_entries<O: Output>(
    voice: &mut Voice,
    output: &mut O,
    names: &Names,
    prints: &[Print],
) -> Result<(), DeviceFault>
    ensures ok { OnOk result (Adds (at O.written O.failures voice.old output.old) (entries each (print_json (names_view names.now)) true prints.now)
        (at O.written O.failures voice.new output.new)) }
    ensures err { OnErr result (Breaks (at O.written O.failures voice.old output.old) (entries each (print_json (names_view names.now)) true prints.now)
        (at O.written O.failures voice.new output.new)) }
{
    let mut first = true;
    for i in 0..prints.len() {
        first = tell_print_entry(voice, output, names, first, prints[i])?;
    }
    Ok(())
}

/// Tells the list of prints.
pub fn tell_print_list<O: Output>(
    voice: &mut Voice,
    output: &mut O,
    names: &Names,
    prints: &[Print],
) -> Result<(), DeviceFault>
    ensures ok { OnOk result (Adds (at O.written O.failures voice.old output.old) (prints_json (names_view names.now) prints.now)
        (at O.written O.failures voice.new output.new)) }
    ensures err { OnErr result (Breaks (at O.written O.failures voice.old output.old) (prints_json (names_view names.now) prints.now)
        (at O.written O.failures voice.new output.new)) }
{
    voice.say(output, b",\"prints\":[")?;
    tell_print_entries(voice, output, names, prints)?;
    voice.say(output, b"]")
}

/// Tells the object of picks that follow one another.
fn tell_pick<O: Output>(
    voice: &mut Voice,
    output: &mut O,
    names: &Names,
    counted: CountedPick,
) -> Result<(), DeviceFault>
    ensures ok { OnOk result (Adds (at O.written O.failures voice.old output.old) (counted_pick_json (names_view names.now) counted)
        (at O.written O.failures voice.new output.new)) }
    ensures err { OnErr result (Breaks (at O.written O.failures voice.old output.old) (counted_pick_json (names_view names.now) counted)
        (at O.written O.failures voice.new output.new)) }
{
    let mut arm = Buffer::new();
    let mut count = Buffer::new();
    say_pieces(
        voice,
        output,
        &[false, true, false, false, false, false, false],
        &[
            b"{\"kind\":\"picks\",\"process\":",
            name_at(&names.processes, counted.pick.process as usize),
            b",\"arm\":",
            arm.format(counted.pick.arm).as_bytes(),
            b",\"count\":",
            count.format(counted.count).as_bytes(),
            b"}",
        ],
    )
}

/// Tells the entry of picks, and returns whether the next entry is the first.
fn tell_pick_entry<O: Output>(
    voice: &mut Voice,
    output: &mut O,
    names: &Names,
    first: bool,
    counted: CountedPick,
) -> Result<bool, DeviceFault>
    ensures next { IfOk result (λ next. next ≡ still_first each first (counted ∷ [])) }
    ensures ok { OnOk result (Adds (at O.written O.failures voice.old output.old) (entries each (counted_pick_json (names_view names.now)) first (counted ∷ []))
        (at O.written O.failures voice.new output.new)) }
    ensures err { OnErr result (Breaks (at O.written O.failures voice.old output.old) (entries each (counted_pick_json (names_view names.now)) first (counted ∷ []))
        (at O.written O.failures voice.new output.new)) }
{
    voice.say(output, comma(first))?;
    tell_pick(voice, output, names, counted)?;
    Ok(false)
}

/// Tells the entries of picks.
fn tell_pick_entries<O: Output>(
    voice: &mut Voice,
    output: &mut O,
    names: &Names,
    picks: &[CountedPick],
) -> Result<(), DeviceFault>
    ensures ok { OnOk result (Adds (at O.written O.failures voice.old output.old) (entries each (counted_pick_json (names_view names.now)) true picks.now)
        (at O.written O.failures voice.new output.new)) }
    ensures err { OnErr result (Breaks (at O.written O.failures voice.old output.old) (entries each (counted_pick_json (names_view names.now)) true picks.now)
        (at O.written O.failures voice.new output.new)) }
{
    let mut first = true;
    for i in 0..picks.len() {
        first = tell_pick_entry(voice, output, names, first, picks[i])?;
    }
    Ok(())
}

/// Tells the list of picks.
pub fn tell_pick_list<O: Output>(
    voice: &mut Voice,
    output: &mut O,
    names: &Names,
    picks: &[CountedPick],
) -> Result<(), DeviceFault>
    ensures ok { OnOk result (Adds (at O.written O.failures voice.old output.old) (picks_json (names_view names.now) picks.now)
        (at O.written O.failures voice.new output.new)) }
    ensures err { OnErr result (Breaks (at O.written O.failures voice.old output.old) (picks_json (names_view names.now) picks.now)
        (at O.written O.failures voice.new output.new)) }
{
    voice.say(output, b",\"picks\":[")?;
    tell_pick_entries(voice, output, names, picks)?;
    voice.say(output, b"]")
}

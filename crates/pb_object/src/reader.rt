//! Objects from their text.

ghost use Rattle.std.specs.Prelude.{◌≡◌, ◌<◌, ◌≤◌, ◌+◌, [], length, map, All, IfOk, OnOk, codes, ℕ, slice_index_or};
ghost use Rattle.pb_object.specs.Instructions.{place as place_spec};
ghost use Rattle.pb_object.specs.Lines.{Gives, line_by, many};
ghost use Rattle.pb_object.specs.Ranges as ranges;
ghost use Rattle.pb_object.specs.Reading as spec;
ghost use Rattle.pb_object.specs.Rows.{resource_row, process_row, object_row, places_row, place_view, IsRow};
ghost use Rattle.pb_code.specs.Bundles.{NamesBelow, Extends};

use crate::fault::{Fault, ReadError};
use crate::line_reader::{claims_at, counted_at, heading_at, integers_at, name_at, resource_at};
use crate::place_reader::place;
use crate::rows::{ProcessRow, ResourceRow, Rows};
use crate::words::{judge_line, words_into};
use pb_base::Bundle;
use pb_base::limits::{MAX_ARMS, MAX_FIRST_PROCESSES, MAX_PLACES, MAX_PROCESSES, MAX_RESOURCES};
use pb_code::{Format, Instr, ProcessCode, ProcessLabels};
use std::alloc::Global;

fn resources_of(
    alloc: Global,
    count: u64,
    text: &[u8],
) -> Result<(Vec<ResourceRow>, &[u8]), ReadError>
    ensures { Gives (λ x. (map resource_row x.0.items, x.1.now)) result
        (many spec.resource_at [] count text.now) }
{
    let mut resources = Vec::new(alloc);
    let mut rest = text;
    for _ in 0..count {
        let (resource, after) = resource_at(alloc, &resources, rest)?;
        resources.push(resource)?;
        rest = after;
    }
    Ok((resources, rest))
}

fn entries_of(alloc: Global, count: u64, text: &[u8]) -> Result<(Vec<u16>, &[u8]), ReadError>
    ensures { Gives (λ x. (x.0.items, x.1.now)) result (many spec.entry_at [] count text.now) }
{
    let mut entries = Vec::new(alloc);
    let mut rest = text;
    for _ in 0..count {
        let (entry, after) = counted_at(alloc, "arm", 0, MAX_PLACES as u64 - 1, rest)?;
        entries.push(entry as u16)?;
        rest = after;
    }
    Ok((entries, rest))
}

// ---- places

/// Returns a place, and what follows the line, whose words are now in `words`; the bundle that the place
/// names is now among those of its process.
#[tactic(auto, unfolding(crate::specs::Lines::line_by))]
fn place_at<'t>(
    words: &mut Vec<&'t [u8]>,
    bundles: &mut Vec<Bundle>,
    format: Format,
    text: &'t [u8],
) -> Result<((Option<u32>, Instr), &'t [u8]), ReadError>
    requires room { length bundles.old.items < 65536 }
    ensures place { Gives (λ x. (place_view bundles.new.items x.0, x.1.now)) result
        (line_by (place_spec format) text.now) }
    ensures names { IfOk result (λ x. NamesBelow (length bundles.new.items) x.0.1) }
    ensures kept { OnOk result (Extends bundles.old.items bundles.new.items) }
    ensures few { OnOk result (length bundles.new.items ≤ length bundles.old.items + 1) }
{
    let rest = words_into(words, text)?;
    let verdict = place(bundles, format, words)?;
    judge_line(text.len(), verdict, rest)
}

/// Places one after the other, with the bundles that they name.
#[derive(Drop)]
struct Places {
    lines: Vec<Option<u32>>,
    instrs: Vec<Instr>,
    bundles: Vec<Bundle>,
}

fn places_of(
    alloc: Global,
    format: Format,
    count: u64,
    text: &[u8],
) -> Result<(Places, &[u8]), ReadError>
    requires { count ≤ MAX_PLACES }
    ensures read { Gives (λ x. (places_row x.0, x.1.now)) result (many (spec.place_at format) [] count text.now) }
    ensures even { IfOk result (λ x. length x.0.lines.items ≡ length x.0.instrs.items) }
{
    // A place takes three bytes or more.
    let room = count.min(text.len() as u64 / 3) as usize;
    let mut lines = Vec::with_capacity(alloc, room)?;
    let mut instrs = Vec::with_capacity(alloc, room)?;
    let mut bundles = Vec::new(alloc);
    let mut words = Vec::new(alloc);
    let mut rest = text;
    for _ in 0..count {
        match place_at(&mut words, &mut bundles, format, rest) {
            Ok(((line, instr), after)) => {
                lines.push(line)?;
                instrs.push(instr)?;
                rest = after;
            }
            Err(fault) => return Err(fault),
        }
    }
    Ok((
        Places {
            lines,
            instrs,
            bundles,
        },
        rest,
    ))
}

// ---- processes

#[tactic(auto, unfolding(crate::specs::Reading::process_after))]
fn process_at<'t>(
    alloc: Global,
    format: Format,
    resources: usize,
    earlier: &[ProcessRow],
    text: &'t [u8],
) -> Result<(ProcessRow, &'t [u8]), ReadError>
    ensures read { Gives (λ x. (process_row x.0, x.1.now)) result
        (spec.process_after format resources (map (λ p. p.name.items) earlier.now) text.now) }
    ensures fit { IfOk result (λ x. IsRow x.0) }
{
    let (name, rest) = name_at(alloc, earlier, text)?;
    let (integers, rest) = integers_at(alloc, format, rest)?;
    let (arms, rest) = counted_at(alloc, "arms", 1, MAX_ARMS as u64, rest)?;
    let (claims, rest) = claims_at(alloc, resources, rest)?;
    let (entries, rest) = entries_of(alloc, arms, rest)?;
    let (count, rest) = counted_at(alloc, "code", 1, MAX_PLACES as u64, rest)?;
    match places_of(alloc, format, count, rest) {
        Err(fault) => Err(fault),
        Ok((places, rest)) => {
            let code = ProcessCode {
                integers: integers.len() as u8,
                entries,
                bundles: places.bundles,
                instrs: places.instrs,
            };
            let labels = ProcessLabels {
                lines: places.lines,
                integers,
            };
            let row = ProcessRow {
                name,
                claims,
                code,
                labels,
            };
            Ok((row, rest))
        }
    }
}

fn processes_of(
    alloc: Global,
    format: Format,
    resources: usize,
    count: u64,
    text: &[u8],
) -> Result<(Vec<ProcessRow>, &[u8]), ReadError>
    ensures read { Gives (λ x. (map process_row x.0.items, x.1.now)) result
        (many (spec.process_at format resources) [] count text.now) }
    ensures fit { IfOk result (λ x. All IsRow x.0.items) }
{
    let mut processes = Vec::new(alloc);
    let mut rest = text;
    for _ in 0..count {
        match process_at(alloc, format, resources, &processes, rest) {
            Ok((process, after)) => {
                processes.push(process)?;
                rest = after;
            }
            Err(fault) => return Err(fault),
        }
    }
    Ok((processes, rest))
}

fn process_count_at(alloc: Global, format: Format, text: &[u8]) -> Result<(u64, &[u8]), ReadError>
    ensures { Gives (λ x. (x.0, x.1.now)) result
        (line_by (spec.counted (codes "processes") 1 (ranges.most_processes format)) text.now) }
{
    match format {
        Format::One => counted_at(alloc, "processes", 1, MAX_FIRST_PROCESSES as u64, text),
        Format::Two => counted_at(alloc, "processes", 1, MAX_PROCESSES as u64, text),
    }
}

/// Returns what all of the text says.
#[tactic(auto, unfolding(crate::specs::Reading::all_of, crate::specs::Reading::object_at))]
pub(crate) fn read_rows(alloc: Global, text: &[u8]) -> Result<Rows, ReadError>
    ensures read { Gives object_row result (spec.all_of text.now) }
    ensures fit { IfOk result (λ rows. All IsRow rows.processes.items) }
{
    let (format, rest) = heading_at(alloc, text)?;
    let (count, rest) = counted_at(alloc, "resources", 0, MAX_RESOURCES as u64, rest)?;
    let (resources, rest) = resources_of(alloc, count, rest)?;
    let (processes_count, rest) = process_count_at(alloc, format, rest)?;
    match processes_of(alloc, format, count as usize, processes_count, rest) {
        Err(fault) => Err(fault),
        Ok((processes, rest)) => {
            if !rest.is_empty() {
                return Err(ReadError::Fault(Fault::Malformed(rest.len())));
            }
            Ok(Rows {
                format,
                resources,
                processes,
            })
        }
    }
}

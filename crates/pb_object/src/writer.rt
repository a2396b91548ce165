//! Objects, written.

ghost use Rattle.std.specs.Prelude.{◌≡◌, ◌<◌, ◌≤◌, ◌++◌, ◌∷◌, [], OnOk, IfOk, List, map, codes, length, slice_get, slice_index, slice_index_or, Some};
ghost use Rattle.std.specs.Fmt.{decimal};
ghost use Rattle.std.specs.List.{flat_map};
ghost use Rattle.pb_base.specs.Banker.{cell};
ghost use Rattle.pb_base.specs.Tables.{width_of};
ghost use Rattle.pb_code.specs.declared.format.Format.TheVariants.{One, Two};
ghost use Rattle.pb_object.specs.Answers.{HasText, HasTextOne, SpellsCode, SpellsOne};
ghost use Rattle.pb_object.specs.Instructions.{instr_words, place_words};
ghost use Rattle.pb_object.specs.Lines.{line_text};
ghost use Rattle.pb_object.specs.Objects as spec;
ghost use Rattle.pb_object.specs.Rows.{side_by_side};
ghost use Rattle.pb_object.specs.Objects.{ProcessRow, ResourceRow};
ghost use Rattle.pb_object.specs.Writing.{IsRowOf, IsLabelsOf};
ghost use Rattle.pb_code.specs.View.{instr_view, code_view, labels_view, process_view, process_labels_view};

use crate::instr_writer::{end_line, put_bare, put_lined_place, put_next, put_one, put_place};
use pb_base::{Capital, Claims, NoMemory};
use pb_code::{Code, Labels, ProcessCode, ProcessLabels};
use std::alloc::Global;

/// Writes a keyword and a number.
fn put_counted(out: &mut Vec<u8>, keyword: &str, number: u64) -> Result<(), NoMemory>
    ensures { OnOk result (out.new.items ≡ out.old.items ++ line_text (spec.counted_words keyword.now number)) }
{
    put_one(out, keyword, number)?;
    end_line(out)
}

fn put_resource(out: &mut Vec<u8>, name: &[u8], capital: u32) -> Result<(), NoMemory>
    ensures { OnOk result (out.new.items
        ≡ out.old.items ++ line_text (spec.resource_words (record { name = name.now; capital = capital }))) }
{
    put_bare(out, "resource")?;
    put_word(out, name)?;
    put_next(out, capital as u64)?;
    end_line(out)
}

fn put_name(out: &mut Vec<u8>, name: &[u8]) -> Result<(), NoMemory>
    ensures { OnOk result (out.new.items ≡ out.old.items ++ line_text (spec.process_words name.now)) }
{
    put_bare(out, "process")?;
    put_word(out, name)?;
    end_line(out)
}

/// Writes one more word of a line.
fn put_word(out: &mut Vec<u8>, word: &[u8]) -> Result<(), NoMemory>
    ensures { OnOk result (out.new.items ≡ out.old.items ++ 32 ∷ word.now) }
{
    out.push(b' ')?;
    out.extend_from_slice(word)?;
    Ok(())
}

/// Writes the names of integers.
fn put_integers(out: &mut Vec<u8>, names: &[Vec<u8>]) -> Result<(), NoMemory>
    ensures { OnOk result (out.new.items
        ≡ out.old.items ++ line_text (spec.integers_words Two (map (λ name. name.items) names.now))) }
{
    put_one(out, "vars", names.len() as u64)?;
    for name in names {
        put_word(out, name)?;
    }
    end_line(out)
}

/// Writes the claims of a process.
fn put_claims(out: &mut Vec<u8>, claims: &Claims, p: usize) -> Result<(), NoMemory>
    requires process { p < length claims.now }
    requires width { length (slice_index_or claims.now p []) ≡ width_of claims.now }
    ensures { OnOk result (out.new.items
        ≡ out.old.items ++ line_text (spec.claims_words (slice_index_or claims.now p []))) }
{
    put_bare(out, "claims")?;
    for r in 0..claims.resources() {
        put_next(out, claims.get(p, r))?;
    }
    end_line(out)
}

fn put_entries(out: &mut Vec<u8>, entries: &[u16]) -> Result<(), NoMemory>
    ensures { OnOk result (out.new.items
        ≡ out.old.items ++ flat_map (λ e. line_text (spec.counted_words (codes "arm") e)) entries.now) }
{
    for entry in entries {
        put_counted(out, "arm", *entry as u64)?;
    }
    Ok(())
}

/// Writes the places of a process in the first format.
fn put_places(out: &mut Vec<u8>, code: &ProcessCode) -> Result<(), NoMemory>
    ensures { OnOk result (out.new.items
        ≡ out.old.items ++ flat_map (λ i. line_text (instr_words i)) (process_view code.now).instrs) }
{
    for instr in &code.instrs {
        put_place(out, &code.bundles, *instr)?;
    }
    Ok(())
}

/// Writes the places of a process in the second format.
fn put_lined_places(
    out: &mut Vec<u8>,
    code: &ProcessCode,
    lines: &[Option<u32>],
) -> Result<(), NoMemory>
    requires { length lines.now ≡ length code.now.instrs.items }
    ensures { OnOk result (out.new.items
        ≡ out.old.items ++ flat_map (λ p. line_text (place_words Two p)) (side_by_side lines.now (process_view code.now).instrs)) }
{
    for i in 0..lines.len() {
        put_lined_place(out, &code.bundles, lines[i], code.instrs[i])?;
    }
    Ok(())
}

// ---- processes

/// Writes how many arms a process has, its claims, its entries, and how many places it has.
fn put_middle(
    out: &mut Vec<u8>,
    code: &ProcessCode,
    claims: &Claims,
    p: usize,
) -> Result<(), NoMemory>
    requires process { p < length claims.now }
    requires width { length (slice_index_or claims.now p []) ≡ width_of claims.now }
    ensures { OnOk result (out.new.items ≡ out.old.items
        ++ (line_text (spec.counted_words (codes "arms") (length code.now.entries.items))
        ++ (line_text (spec.claims_words (slice_index_or claims.now p []))
        ++ (flat_map (λ e. line_text (spec.counted_words (codes "arm") e)) code.now.entries.items
        ++ line_text (spec.counted_words (codes "code") (length code.now.instrs.items)))))) }
{
    put_counted(out, "arms", code.entries.len() as u64)?;
    put_claims(out, claims, p)?;
    put_entries(out, &code.entries)?;
    put_counted(out, "code", code.instrs.len() as u64)
}

/// Writes a process in the first format.
fn put_process(out: &mut Vec<u8>, code: &Code, p: usize) -> Result<(), NoMemory>
    requires process { p < length code.now.processes.items }
    requires name { p < length code.now.names.processes.items }
    requires claims { p < length code.now.claims }
    requires width { length (slice_index_or code.now.claims p []) ≡ width_of code.now.claims }
    ensures { (row : ProcessRow) → IsRowOf (code_view code.now) p row
        → OnOk result (out.new.items ≡ out.old.items ++ spec.process_text One row) }
{
    let body = &code.processes[p];
    put_name(out, &code.names.processes[p])?;
    put_counted(out, "vars", body.integers as u64)?;
    put_middle(out, body, &code.claims, p)?;
    put_places(out, body)?;
    Ok(())
}

/// Writes a process in the second format.
fn put_labelled_process(
    out: &mut Vec<u8>,
    code: &Code,
    labels: &Labels,
    p: usize,
) -> Result<(), NoMemory>
    requires process { p < length code.now.processes.items }
    requires name { p < length code.now.names.processes.items }
    requires labels { p < length labels.now.processes.items }
    requires claims { p < length code.now.claims }
    requires width { length (slice_index_or code.now.claims p []) ≡ width_of code.now.claims }
    requires row { (row : ProcessRow) × IsRowOf (code_view code.now) p row
        × IsLabelsOf (labels_view labels.now) p row }
    ensures { (row : ProcessRow) → IsRowOf (code_view code.now) p row
        → IsLabelsOf (labels_view labels.now) p row
        → OnOk result (out.new.items ≡ out.old.items ++ spec.process_text Two row) }
{
    let body = &code.processes[p];
    let label = &labels.processes[p];
    put_name(out, &code.names.processes[p])?;
    put_integers(out, &label.integers)?;
    put_middle(out, body, &code.claims, p)?;
    put_lined_places(out, body, &label.lines)?;
    Ok(())
}

// ---- objects

fn put_resources(out: &mut Vec<u8>, names: &[Vec<u8>], capital: &Capital) -> Result<(), NoMemory>
    requires { length names.now ≡ length capital.now }
    ensures { (rows : List ResourceRow) → map (λ r. r.name) rows ≡ map (λ name. name.items) names.now
        → map (λ r. r.capital) rows ≡ capital.now
        → OnOk result (out.new.items ≡ out.old.items ++ flat_map (λ r. line_text (spec.resource_words r)) rows) }
{
    for r in 0..names.len() {
        put_resource(out, &names[r], capital.get(r))?;
    }
    Ok(())
}

fn put_heading(out: &mut Vec<u8>, digit: &str) -> Result<(), NoMemory>
    ensures { OnOk result (out.new.items ≡ out.old.items ++ line_text (codes "PBO" ∷ digit.now ∷ [])) }
{
    put_bare(out, "PBO")?;
    put_word(out, digit.as_bytes())?;
    end_line(out)
}

/// Writes all lines before the first process.
fn put_opening(out: &mut Vec<u8>, digit: &str, code: &Code) -> Result<(), NoMemory>
    requires { length code.now.names.resources.items ≡ length code.now.capital }
    ensures { (rows : List ResourceRow)
        → map (λ r. r.name) rows ≡ map (λ name. name.items) code.now.names.resources.items
        → map (λ r. r.capital) rows ≡ code.now.capital
        → OnOk result (out.new.items ≡ out.old.items
        ++ (line_text (codes "PBO" ∷ digit.now ∷ [])
        ++ (line_text (spec.counted_words (codes "resources") (length rows))
        ++ (flat_map (λ r. line_text (spec.resource_words r)) rows
        ++ line_text (spec.counted_words (codes "processes") (length code.now.processes.items)))))) }
{
    put_heading(out, digit)?;
    put_counted(out, "resources", code.names.resources.len() as u64)?;
    put_resources(out, &code.names.resources, &code.capital)?;
    put_counted(out, "processes", code.processes.len() as u64)?;
    Ok(())
}

/// Returns the text of the code in the first format. The error comes only if `alloc` is out of memory.
pub fn write_object(alloc: Global, code: &Code) -> Result<Vec<u8>, NoMemory>
    requires { HasTextOne (code_view code.now) }
    ensures { IfOk result (λ text. SpellsOne (code_view code.now) text.items) }
{
    let mut out = Vec::new(alloc);
    put_opening(&mut out, "1", code)?;
    for p in 0..code.processes.len() {
        put_process(&mut out, code, p)?;
    }
    Ok(out)
}

/// Returns the text of the code and its labels in the second format. The error comes only if `alloc` is out
/// of memory.
pub fn write_object2(alloc: Global, code: &Code, labels: &Labels) -> Result<Vec<u8>, NoMemory>
    requires { HasText Two (code_view code.now) (labels_view labels.now) }
    ensures { IfOk result (λ text. SpellsCode Two (code_view code.now) (labels_view labels.now) text.items) }
{
    let mut out = Vec::new(alloc);
    put_opening(&mut out, "2", code)?;
    for p in 0..code.processes.len() {
        put_labelled_process(&mut out, code, labels, p)?;
    }
    Ok(out)
}

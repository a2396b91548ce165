//! Objects: code as text. The first format has code alone, the second also the names of integers and the
//! source line of each place.

ghost use Rattle.std.specs.Prelude.{◌≡◌, ◌<◌, ◌≤◌, All, IfOk, IfErr, List, length};
ghost use Rattle.pb_code.specs.declared.format.Format.{Format as Formats};
ghost use Rattle.pb_object.specs.declared.fault.ObjectFault.TheVariants.{NoMemory};
ghost use Rattle.pb_code.specs.declared.format.Format.TheVariants.{Two};
ghost use Rattle.pb_object.specs.Answers.{SpellsCode, SpellsOne, HasText, HasTextOne, AnswersRows, IsAnswer, IsFaultOf, IsAnswerOne, IsFaultOfOne, is_two};
ghost use Rattle.pb_object.specs.FaultPlaces.{IsPlaced, IsPlacedOne};
ghost use Rattle.pb_object.specs.Lines.{line_by};
ghost use Rattle.pb_object.specs.Reading.{heading};
ghost use Rattle.pb_object.specs.Rows.{IsRow};
ghost use Rattle.pb_code.specs.View.{code_view, labels_view};
ghost use Rattle.pb_code.specs.Whole.{Code as PlainCode, ProcessLabels as PlainLabels};

use crate::assemble::assemble;
use crate::fault::{Fault, ObjectFault, ReadError};
use crate::line_reader::heading_at;
use crate::reader::read_rows;
use crate::rows::Rows;
use pb_base::limits::MAX_INPUT;
use pb_code::{Code, Format, Labels};
use std::alloc::Global;

/// Returns what the text says, or its first faulty line.
fn rows_of(alloc: Global, text: &[u8]) -> Result<Rows, ObjectFault>
    ensures rows { AnswersRows text.now result }
    ensures fit { IfOk result (λ rows. All IsRow rows.processes.items) }
    ensures long { MAX_INPUT < length text.now → result ≡ Err (ObjectFault.Limit 0) }
{
    if text.len() > MAX_INPUT {
        return Err(ObjectFault::Limit(0));
    }
    match read_rows(alloc, text) {
        Ok(rows) => Ok(rows),
        Err(ReadError::Memory) => Err(ObjectFault::NoMemory),
        Err(ReadError::Fault(Fault::Malformed(left))) => {
            Err(ObjectFault::NotObject(text.len().saturating_sub(left)))
        }
        Err(ReadError::Fault(Fault::Beyond(left))) => {
            Err(ObjectFault::Limit(text.len().saturating_sub(left)))
        }
    }
}

/// Returns the code and the labels that the text spells, in either format. From the first format the integers
/// of each process are named `v0`, `v1` and so on, and no place has a source line.
///
/// Otherwise the fault of the first line that does not follow the format: `NotObject` if it is not of its form, is not ended by a
/// line feed, is missing, or comes after the end; `Limit` if it is of its form and a number is out of range.
/// The offset is that of the start of the line, or the length of the text if a line is missing. A text of
/// more than `MAX_INPUT` bytes is `Limit` at 0, and never `NoMemory`, which comes if `alloc` is out of memory.
pub fn read_any(alloc: Global, text: &[u8]) -> Result<(Code, Labels), ObjectFault>
    // The text spells what is returned.
    ensures found { IfOk result (λ x. (format : Formats)
        × SpellsCode format (code_view x.0) (labels_view x.1) text.now) }
    // What is returned has a text in the second format.
    ensures writable { IfOk result (λ x. HasText Two (code_view x.0) (labels_view x.1)) }
    // What a text spells is returned.
    ensures only { (format : Formats) (code : PlainCode) (labels : List PlainLabels)
        → SpellsCode format code labels text.now → length text.now ≤ MAX_INPUT → IsAnswer code labels result }
    // A refusal names the first faulty line.
    ensures fault { IfErr result (IsFaultOf text.now) }
    // By the grammar alone: the lines before the offset begin an object, and none begins with the line there
    // too.
    ensures place { IfErr result (IsPlaced text.now) }
    // A text over the limit takes no memory.
    ensures long { MAX_INPUT < length text.now → result ≡ Err (ObjectFault.Limit 0) }
{
    let rows = rows_of(alloc, text)?;
    let object = assemble(alloc, rows)?;
    Ok(object)
}

/// Returns whether the first line names the second format.
fn begins_two(alloc: Global, text: &[u8]) -> Result<bool, ObjectFault>
    ensures two { IfOk result (λ two. two ≡ is_two (line_by heading text.now)) }
    ensures fault { IfErr result (λ fault. fault ≡ NoMemory) }
{
    match heading_at(alloc, text) {
        Ok((Format::Two, _)) => Ok(true),
        Err(ReadError::Memory) => Err(ObjectFault::NoMemory),
        _ => Ok(false),
    }
}

/// Returns the code that the text spells in the first format, else the first faulty line, as in `read_any`;
/// the first line of the second format is not a line of an object.
pub fn read_object(alloc: Global, text: &[u8]) -> Result<Code, ObjectFault>
    // The text spells the code that is returned.
    ensures found { IfOk result (λ code. SpellsOne (code_view code) text.now) }
    // It has a text in the first format.
    ensures writable { IfOk result (λ code. HasTextOne (code_view code)) }
    // The code that a text spells is returned.
    ensures only { (code : PlainCode) → SpellsOne code text.now → length text.now ≤ MAX_INPUT
        → IsAnswerOne code result }
    // A refusal names the first faulty line.
    ensures fault { IfErr result (IsFaultOfOne text.now) }
    // By the grammar alone, as in `read_any`, unless the first line names the second format.
    ensures place { IfErr result (IsPlacedOne text.now) }
    // A text over the limit takes no memory.
    ensures long { MAX_INPUT < length text.now → result ≡ Err (ObjectFault.Limit 0) }
{
    if text.len() > MAX_INPUT {
        return Err(ObjectFault::Limit(0));
    }
    if begins_two(alloc, text)? {
        return Err(ObjectFault::NotObject(0));
    }
    let (code, _) = read_any(alloc, text)?;
    Ok(code)
}

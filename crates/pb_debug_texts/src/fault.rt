//! What is said of a fault.

ghost use Rattle.std.specs.Prelude.{◌≡◌, ◌<◌, ◌++◌, List, codes, length, reverse, option_map, OnOk};
ghost use Rattle.pb_base.specs.Lines.{names_view};
ghost use Rattle.pb_base.specs.Steppers.{Bundle};
ghost use Rattle.pb_code.specs.View.{instr_view, process_view};
ghost use Rattle.pb_debug_texts.specs.Faults as said;
ghost use Rattle.pb_debug_texts.specs.Texts.{number_text};
ghost use Rattle.pb_machine.specs.Views.{operands_of_thread, thread_view};

use crate::operators::{binary_of, binary_word, unary_of, unary_word};
use pb_base::writing::{put, put_name, put_number, put_pick};
use pb_base::{Names, NoMemory, Pick};
use pb_code::{Instr, ProcessCode};
use pb_machine::Thread;

/// Appends an operator and the last of the operands to a text.
pub(crate) fn put_before(text: &mut Vec<u8>, word: &str, operands: &[i64]) -> Result<(), NoMemory>
    ensures { OnOk result (text.new.items ≡ text.old.items ++ said.before_text word.now (reverse operands.now)) }
{
    let count = operands.len();
    if count < 1 {
        return Ok(());
    }
    put_name(text, b" ", word.as_bytes())?;
    put_number(text, b" ", operands[count - 1])
}

/// Appends an operator between the last two of the operands to a text.
pub(crate) fn put_between(text: &mut Vec<u8>, word: &str, operands: &[i64]) -> Result<(), NoMemory>
    ensures { OnOk result (text.new.items ≡ text.old.items ++ said.between_text word.now (reverse operands.now)) }
{
    let count = operands.len();
    if count < 2 {
        return Ok(());
    }
    let left = operands[count - 2];
    let right = operands[count - 1];
    put_number(text, b" ", left)?;
    put_name(text, b" ", word.as_bytes())?;
    put_number(text, b" ", right)
}

/// Appends the operator that an instruction is to a text, with its operands.
fn put_applied(text: &mut Vec<u8>, instr: Option<Instr>, operands: &[i64]) -> Result<(), NoMemory>
    ensures { OnOk result ((bundles : List Bundle) → text.new.items
        ≡ text.old.items ++ said.operation_text (option_map (instr_view bundles) instr) (reverse operands.now)) }
{
    let Some(instr) = instr else {
        return Ok(());
    };
    if let Some(op) = unary_of(instr) {
        return put_before(text, unary_word(op), operands);
    }
    match binary_of(instr) {
        Some(op) => put_between(text, binary_word(op), operands),
        None => Ok(()),
    }
}

/// Returns the instruction at which an arm is, if it is live.
fn instr_of(code: &ProcessCode, thread: &Thread) -> Option<Instr>
    ensures { option_map (instr_view code.now.bundles.items) result
        ≡ said.instr_of (process_view code.now) (thread_view thread.now) }
{
    let place = usize::from(thread.place()?);
    code.instrs.get(place).copied()
}

/// Appends the operator at which an arm is to a text, with its operands.
fn put_operation(text: &mut Vec<u8>, code: &ProcessCode, thread: &Thread) -> Result<(), NoMemory>
    ensures { OnOk result (text.new.items ≡ text.old.items
        ++ said.operation_text (said.instr_of (process_view code.now) (thread_view thread.now))
        (operands_of_thread (thread_view thread.now))) }
{
    put_applied(text, instr_of(code, thread), thread.operands())
}

/// Appends the words `line N` to a text, or `line none`.
fn put_at_line(text: &mut Vec<u8>, line: Option<u32>) -> Result<(), NoMemory>
    ensures { OnOk result (text.new.items ≡ text.old.items ++ codes " line " ++ number_text line) }
{
    match line {
        Some(line) => put_number(text, b" line ", line),
        None => put(text, b" line none"),
    }
}

/// Appends the line of an arm, of a source line, and of the operator at which the arm is with its operands to a
/// text.
pub fn put_fault(
    text: &mut Vec<u8>,
    names: &Names,
    pick: Pick,
    line: Option<u32>,
    code: &ProcessCode,
    thread: &Thread,
) -> Result<(), NoMemory>
    requires { pick.process < length (names_view names.now).processes }
    ensures { OnOk result (text.new.items ≡ text.old.items
        ++ said.fault_text (names_view names.now) pick line (process_view code.now) (thread_view thread.now)) }
{
    put_pick(text, names, pick)?;
    put_at_line(text, line)?;
    put_operation(text, code, thread)?;
    put(text, b"\n")
}

/// Appends the line that says that there is no fault to a text.
pub fn put_no_fault(text: &mut Vec<u8>) -> Result<(), NoMemory>
    ensures { OnOk result (text.new.items ≡ text.old.items ++ said.no_fault_text) }
{
    put(text, b"no fault\n")
}

//! The words for what an arm computes, reads, assigns, tests and prints.

ghost use Rattle.std.specs.Prelude.{◌≡◌, ◌++◌, List, [], ◌∷◌, ℤ, pos, codes, reverse, slice_index_or, IfNone, IfSome, OnOk};
ghost use Rattle.std.specs.Fmt.{signed_decimal};
ghost use Rattle.pb_base.specs.Arithmetic.{is_zero};
ghost use Rattle.pb_base.specs.Lines.{name_of};
ghost use Rattle.pb_base.specs.Steppers.{Bundle as AnyBundle};
ghost use Rattle.pb_code.specs.View.{instr_view, process_labels_view};
ghost use Rattle.pb_debug_texts.specs.Does as said;
ghost use Rattle.pb_machine.specs.Views.{proc_view};

use crate::fault::{put_before, put_between};
use crate::listed::put_named;
use crate::operators::{binary_of, binary_word, unary_of, unary_word};
use pb_base::writing::{put, put_number};
use pb_base::{BinaryOp, FaultKind, NoMemory, UnaryOp, apply, apply_unary};
use pb_code::{Instr, ProcessLabels};
use pb_machine::Proc;

/// Appends where an arm goes on to a text.
pub(crate) fn put_goes_on(text: &mut Vec<u8>, line: Option<u32>) -> Result<(), NoMemory>
    ensures { OnOk result (text.new.items ≡ text.old.items ++ said.goes_on_text line) }
{
    match line {
        Some(line) => put_number(text, b"goes on at line ", line),
        None => put(text, b"goes on to the end"),
    }
}

/// Appends the words before an operator with its operands to a text.
fn put_verb(text: &mut Vec<u8>, value: Result<i64, FaultKind>) -> Result<(), NoMemory>
    ensures { OnOk result (text.new.items ≡ text.old.items ++ said.verb_text value) }
{
    match value {
        Ok(_) => put(text, b"computes"),
        Err(FaultKind::Divide) => put(text, b"faults (divide):"),
        Err(FaultKind::Overflow) => put(text, b"faults (overflow):"),
    }
}

/// Appends the result of an operator to a text, if it has one.
fn put_result(text: &mut Vec<u8>, value: Result<i64, FaultKind>) -> Result<(), NoMemory>
    ensures { OnOk result (text.new.items ≡ text.old.items ++ said.result_text value) }
{
    match value {
        Ok(value) => put_number(text, b": ", value),
        Err(_) => Ok(()),
    }
}

/// Returns the operand on top of the others.
fn top(operands: &[i64]) -> Option<i64>
    ensures none { IfNone result (reverse operands.now ≡ []) }
    ensures some { IfSome result (λ v. (rest : List ℤ) × (reverse operands.now ≡ v ∷ rest)) }
{
    let count = operands.len();
    if count < 1 {
        return None;
    }
    Some(operands[count - 1])
}

/// Appends an operator on the last of the operands to a text, with what it comes to.
fn put_unary(text: &mut Vec<u8>, op: UnaryOp, operands: &[i64]) -> Result<(), NoMemory>
    ensures { OnOk result (text.new.items ≡ text.old.items ++ said.unary_words op (reverse operands.now)) }
{
    let Some(operand) = top(operands) else {
        return Ok(());
    };
    let value = apply_unary(op, operand);
    put_verb(text, value)?;
    put_before(text, unary_word(op), operands)?;
    put_result(text, value)
}

/// Appends an operator on the last two of the operands to a text, with what it comes to.
fn put_binary(text: &mut Vec<u8>, op: BinaryOp, operands: &[i64]) -> Result<(), NoMemory>
    ensures { OnOk result (text.new.items ≡ text.old.items ++ said.binary_words op (reverse operands.now)) }
{
    let count = operands.len();
    if count < 2 {
        return Ok(());
    }
    let value = apply(op, operands[count - 2], operands[count - 1]);
    put_verb(text, value)?;
    put_between(text, binary_word(op), operands)?;
    put_result(text, value)
}

/// Appends a number that is taken to a text.
pub(crate) fn put_pushed(text: &mut Vec<u8>, value: i64) -> Result<(), NoMemory>
    ensures { OnOk result (text.new.items ≡ text.old.items ++ said.pushed_words value) }
{
    put_number(text, b"takes the number ", value)
}

/// Returns the value of an integer of a process.
fn value_of(process: &Proc, integer: u8) -> i64
    ensures { result ≡ slice_index_or (proc_view process.now).vars integer (pos 0) }
{
    match process.vars().get(usize::from(integer)) {
        Some(value) => *value,
        None => 0,
    }
}

/// Appends an integer that is read to a text, with its value.
pub(crate) fn put_read(
    text: &mut Vec<u8>,
    labels: &ProcessLabels,
    process: &Proc,
    integer: u8,
) -> Result<(), NoMemory>
    ensures { OnOk result (text.new.items ≡ text.old.items
        ++ said.read_words (process_labels_view labels.now) (proc_view process.now) integer) }
{
    put_named(text, b"reads ", &labels.integers, usize::from(integer))?;
    put_number(text, b" (", value_of(process, integer))?;
    put(text, b")")
}

/// Appends the value of an integer before an assignment to a text.
fn put_was(text: &mut Vec<u8>, value: i64) -> Result<(), NoMemory>
    ensures { OnOk result (text.new.items ≡ text.old.items ++ said.was_text value) }
{
    put_number(text, b" (it was ", value)?;
    put(text, b")")
}

/// Appends an assignment of a value to a text, with the value before it.
fn put_assigns(
    text: &mut Vec<u8>,
    labels: &ProcessLabels,
    process: &Proc,
    integer: u8,
    value: i64,
) -> Result<(), NoMemory>
    ensures { OnOk result (text.new.items ≡ text.old.items ++ said.assigns_text
        (name_of (process_labels_view labels.now).integers integer) value
        (slice_index_or (proc_view process.now).vars integer (pos 0))) }
{
    put_number(text, b"assigns ", value)?;
    put_named(text, b" to ", &labels.integers, usize::from(integer))?;
    put_was(text, value_of(process, integer))
}

/// Appends an assignment of the last of the operands to a text, with the value before it.
pub(crate) fn put_assigned(
    text: &mut Vec<u8>,
    labels: &ProcessLabels,
    process: &Proc,
    integer: u8,
    operands: &[i64],
) -> Result<(), NoMemory>
    ensures { OnOk result (text.new.items ≡ text.old.items
        ++ said.assigned_words (process_labels_view labels.now) (proc_view process.now) integer (reverse operands.now)) }
{
    match top(operands) {
        Some(operand) => put_assigns(text, labels, process, integer, operand),
        None => Ok(()),
    }
}

/// Returns whether a value is false.
fn is_false(value: i64) -> bool
    ensures { result ≡ is_zero value }
{
    value == 0
}

/// Appends what a test of a value comes to, and where the arm goes on, to a text.
fn put_turn(
    text: &mut Vec<u8>,
    value: i64,
    if_false: Option<u32>,
    if_true: Option<u32>,
) -> Result<(), NoMemory>
    ensures { OnOk result (text.new.items ≡ text.old.items ++ said.turn_text (is_zero value) if_false if_true) }
{
    if is_false(value) {
        put(text, b", which is false, and ")?;
        return put_goes_on(text, if_false);
    }
    put(text, b", which is true, and ")?;
    put_goes_on(text, if_true)
}

/// Appends a test of a value to a text, and where the arm goes on.
fn put_test(
    text: &mut Vec<u8>,
    value: i64,
    if_false: Option<u32>,
    if_true: Option<u32>,
) -> Result<(), NoMemory>
    ensures { OnOk result (text.new.items ≡ text.old.items
        ++ (codes "tests " ++ signed_decimal value ++ said.turn_text (is_zero value) if_false if_true)) }
{
    put_number(text, b"tests ", value)?;
    put_turn(text, value, if_false, if_true)
}

/// Appends a test of the last of the operands to a text, and where the arm goes on.
pub(crate) fn put_tested(
    text: &mut Vec<u8>,
    if_false: Option<u32>,
    if_true: Option<u32>,
    operands: &[i64],
) -> Result<(), NoMemory>
    ensures { OnOk result (text.new.items ≡ text.old.items ++ said.tested_words if_false if_true (reverse operands.now)) }
{
    match top(operands) {
        Some(operand) => put_test(text, operand, if_false, if_true),
        None => Ok(()),
    }
}

/// Appends the last of the operands, which is printed, to a text.
pub(crate) fn put_printed(text: &mut Vec<u8>, operands: &[i64]) -> Result<(), NoMemory>
    ensures { OnOk result (text.new.items ≡ text.old.items ++ said.printed_words (reverse operands.now)) }
{
    match top(operands) {
        Some(operand) => put_number(text, b"prints ", operand),
        None => Ok(()),
    }
}

/// Appends the operator that an instruction is to a text, with its operands and what it comes to.
pub(crate) fn put_computed(
    text: &mut Vec<u8>,
    instr: Instr,
    operands: &[i64],
) -> Result<(), NoMemory>
    ensures { OnOk result ((bundles : List AnyBundle) → text.new.items
        ≡ text.old.items ++ said.computed_words (instr_view bundles instr) (reverse operands.now)) }
{
    if let Some(op) = unary_of(instr) {
        return put_unary(text, op, operands);
    }
    match binary_of(instr) {
        Some(op) => put_binary(text, op, operands),
        None => Ok(()),
    }
}

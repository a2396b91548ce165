//! The lines that a session answers.

ghost use Rattle.std.specs.Prelude.{◌≡◌, ◌<◌, ◌≤◌, ◌++◌, ℕ, length, map, codes, OnOk, All};
ghost use Rattle.pb_banker.specs.Lenders.{lender_state};
ghost use Rattle.pb_base.specs.Banker.{processes, resources, claim, loan, cash};
ghost use Rattle.pb_base.specs.Lines.{HasNames, each_below, names_view, name_of};
ghost use Rattle.pb_debug_texts.specs.Texts as said;
ghost use Rattle.pb_debug_texts.specs.Texts.{HasNamesOf};
ghost use Rattle.pb_machine.specs.Views.{proc_view, thread_view};

use crate::why::Why;
use itoa::Integer;
use pb_banker::Lender;
use pb_base::writing::{put, put_line, put_name, put_number, put_pick};
use pb_base::{Event, Names, NoMemory, Pick, event_line};
use pb_machine::{Proc, Thread, ThreadState};
use std::alloc::Global;

/// Appends words and a number to a text, and ends its line.
fn end_number<I: Integer>(text: &mut Vec<u8>, words: &[u8], number: I) -> Result<(), NoMemory>
    ensures { OnOk result (text.new.items ≡ text.old.items ++ said.line (words.now ++ I.text number)) }
{
    put_number(text, words, number)?;
    put(text, b"\n")
}

/// Appends words and a name to a text, and ends its line.
pub(crate) fn end_name(text: &mut Vec<u8>, words: &[u8], name: &[u8]) -> Result<(), NoMemory>
    ensures { OnOk result (text.new.items ≡ text.old.items ++ said.line (words.now ++ name.now)) }
{
    put_name(text, words, name)?;
    put(text, b"\n")
}

/// Appends the line of a position to a text.
pub fn put_at(text: &mut Vec<u8>, position: u32) -> Result<(), NoMemory>
    ensures { OnOk result (text.new.items ≡ text.old.items ++ said.at_text position) }
{
    end_number(text, b"at ", position)
}

/// Appends the line of a mark to a text.
pub fn put_mark(text: &mut Vec<u8>, number: u32) -> Result<(), NoMemory>
    ensures { OnOk result (text.new.items ≡ text.old.items ++ said.mark_text number) }
{
    end_number(text, b"mark ", number)
}

/// Appends the line of a position and of the event that led to it to a text.
pub fn put_event(
    text: &mut Vec<u8>,
    alloc: Global,
    names: &Names,
    position: u32,
    event: &Event,
) -> Result<(), NoMemory>
    requires { HasNames (names_view names.now) event.now }
    ensures { OnOk result (text.new.items
        ≡ text.old.items ++ said.event_text (names_view names.now) position event.now) }
{
    let said = event_line(alloc, names, event)?;
    put_number(text, b"at ", position)?;
    end_name(text, b" ", &said)
}

/// Appends the line that says that there is no event to a text.
pub fn put_no_event(text: &mut Vec<u8>) -> Result<(), NoMemory>
    ensures { OnOk result (text.new.items ≡ text.old.items ++ said.no_event_text) }
{
    put(text, b"no event\n")
}

/// Appends the line of a pick, the position just after it, and the line of its arm before it to a text.
pub fn put_wrote(
    text: &mut Vec<u8>,
    names: &Names,
    position: u32,
    pick: Pick,
    line: Option<u32>,
) -> Result<(), NoMemory>
    requires { pick.process < length (names_view names.now).processes }
    ensures { OnOk result (text.new.items
        ≡ text.old.items ++ said.wrote_text (names_view names.now) position pick line) }
{
    put_number(text, b"at ", position)?;
    put(text, b" ")?;
    put_pick(text, names, pick)?;
    match line {
        Some(line) => end_number(text, b" line ", line),
        None => put_line(text, b" line none"),
    }
}

/// Appends the line that says that nothing was written to a text.
pub fn put_never(text: &mut Vec<u8>) -> Result<(), NoMemory>
    ensures { OnOk result (text.new.items ≡ text.old.items ++ said.never_text) }
{
    put(text, b"never\n")
}

/// Appends the line that says that a line is not reached to a text.
pub fn put_not_reached(text: &mut Vec<u8>) -> Result<(), NoMemory>
    ensures { OnOk result (text.new.items ≡ text.old.items ++ said.not_reached_text) }
{
    put(text, b"not reached\n")
}

/// Appends the lines of all commands to a text.
pub fn put_help(text: &mut Vec<u8>) -> Result<(), NoMemory>
    ensures { OnOk result (text.new.items ≡ text.old.items ++ said.help_text) }
{
    put(
        text,
        b"to I\nstep N\nback N\nnext\nprev\nvars P\nwrote P X\nuntil P.a N\nthreads P\nfault P\nloans\nwho R\ncircle\narms\nline P.a\ntext P.a\ndoes P.a\nwhy P.a\nstack P.a\npick P.a\nmark N\nhelp\n",
    )
}

/// Appends the line of one integer to a text.
fn put_var(text: &mut Vec<u8>, name: &[u8], value: i64) -> Result<(), NoMemory>
    ensures { OnOk result (text.new.items ≡ text.old.items ++ said.var_text name.now value) }
{
    put(text, name)?;
    end_number(text, b" ", value)
}

/// Appends the lines of integers with these names to a text.
pub fn put_vars(text: &mut Vec<u8>, names: &[Vec<u8>], vars: &[i64]) -> Result<(), NoMemory>
    requires { length names.now ≡ length vars.now }
    ensures { OnOk result (text.new.items
        ≡ text.old.items ++ said.vars_text (map (λ name. name.items) names.now) vars.now) }
{
    for i in 0..vars.len() {
        put_var(text, &names[i], vars[i])?;
    }
    Ok(())
}

/// Appends the line of an arm to a text.
fn put_thread(text: &mut Vec<u8>, arm: usize, thread: &Thread) -> Result<(), NoMemory>
    ensures { OnOk result (text.new.items ≡ text.old.items ++ said.thread_text arm (thread_view thread.now)) }
{
    put_number(text, b"", arm)?;
    match thread.place() {
        Some(place) => end_number(text, b" at ", place),
        None => match thread.state() {
            ThreadState::Ended => put_line(text, b" ended"),
            ThreadState::Idle | ThreadState::Live => put_line(text, b" idle"),
        },
    }
}

/// Appends the lines of the arms of a process to a text.
pub fn put_threads(text: &mut Vec<u8>, process: &Proc) -> Result<(), NoMemory>
    ensures { OnOk result (text.new.items ≡ text.old.items ++ said.threads_text (proc_view process.now)) }
{
    if process.faulted() {
        return put(text, b"faulted\n");
    }
    for arm in 0..process.arms() {
        put_thread(text, arm, process.thread(arm))?;
    }
    Ok(())
}

/// Appends numbers to a text, each after a space.
fn put_values(text: &mut Vec<u8>, values: &[i64]) -> Result<(), NoMemory>
    ensures { OnOk result (text.new.items ≡ text.old.items ++ said.values_text values.now) }
{
    for i in 0..values.len() {
        put_number(text, b" ", values[i])?;
    }
    Ok(())
}

/// Appends the line of the operands of an arm to a text, the last one on top.
pub fn put_stack(text: &mut Vec<u8>, thread: &Thread) -> Result<(), NoMemory>
    ensures { OnOk result (text.new.items ≡ text.old.items ++ said.stack_text (thread_view thread.now)) }
{
    put(text, b"stack")?;
    put_values(text, thread.operands())?;
    put(text, b"\n")
}

/// Appends the line of a loan to a text.
pub(crate) fn put_loan(
    text: &mut Vec<u8>,
    names: &Names,
    bank: &Lender,
    p: usize,
    r: usize,
) -> Result<(), NoMemory>
    requires process { p < processes (lender_state bank.now) }
    requires resource { r < resources (lender_state bank.now) }
    requires process_name { p < length (names_view names.now).processes }
    requires resource_name { r < length (names_view names.now).resources }
    ensures { OnOk result (text.new.items ≡ text.old.items ++ said.loan_text (names_view names.now) (lender_state bank.now) p r) }
{
    put(text, &names.processes[p])?;
    put_number(text, b" holds ", bank.loan(p, r))?;
    put_name(text, b" ", &names.resources[r])?;
    end_number(text, b" claim ", bank.claim(p, r))
}

/// Appends the lines of the loans of a process to a text.
fn put_loans_of(text: &mut Vec<u8>, names: &Names, bank: &Lender, p: usize) -> Result<(), NoMemory>
    requires process { p < processes (lender_state bank.now) }
    requires process_names { length (names_view names.now).processes ≡ processes (lender_state bank.now) }
    requires resource_names { length (names_view names.now).resources ≡ resources (lender_state bank.now) }
    ensures { OnOk result (text.new.items ≡ text.old.items ++ said.loans_of (names_view names.now) (lender_state bank.now) p) }
{
    for r in 0..bank.resources() {
        put_loan(text, names, bank, p, r)?;
    }
    Ok(())
}

/// Appends the line of an amount of cash to a text.
pub(crate) fn put_cash(
    text: &mut Vec<u8>,
    names: &Names,
    amount: u32,
    r: usize,
) -> Result<(), NoMemory>
    requires { r < length (names_view names.now).resources }
    ensures { OnOk result (text.new.items ≡ text.old.items ++ said.cash_text (names_view names.now) amount r) }
{
    put_number(text, b"cash ", amount)?;
    end_name(text, b" ", &names.resources[r])
}

/// Appends the lines of all cash to a text.
fn put_all_cash(text: &mut Vec<u8>, names: &Names, bank: &Lender) -> Result<(), NoMemory>
    requires { length (names_view names.now).resources ≡ resources (lender_state bank.now) }
    ensures { OnOk result (text.new.items ≡ text.old.items
        ++ each_below (λ r. said.cash_text (names_view names.now) (cash (lender_state bank.now) r) r) (resources (lender_state bank.now))) }
{
    for r in 0..bank.resources() {
        put_cash(text, names, bank.cash(r), r)?;
    }
    Ok(())
}

/// Appends the lines of all loans and of the cash to a text.
pub fn put_loans(text: &mut Vec<u8>, names: &Names, bank: &Lender) -> Result<(), NoMemory>
    requires process_names { length (names_view names.now).processes ≡ processes (lender_state bank.now) }
    requires resource_names { length (names_view names.now).resources ≡ resources (lender_state bank.now) }
    ensures { OnOk result (text.new.items ≡ text.old.items ++ said.loans_text (names_view names.now) (lender_state bank.now)) }
{
    for p in 0..bank.processes() {
        put_loans_of(text, names, bank, p)?;
    }
    put_all_cash(text, names, bank)
}

/// Appends the line that tells a source line.
pub fn put_source_line(text: &mut Vec<u8>, line: Option<u32>) -> Result<(), NoMemory>
    ensures { OnOk result (text.new.items ≡ text.old.items ++ said.line_text line) }
{
    match line {
        Some(line) => end_number(text, b"line ", line),
        None => put_line(text, b"line none"),
    }
}

/// Appends a word and the names of processes to a text.
fn put_names(
    text: &mut Vec<u8>,
    words: &[u8],
    names: &Names,
    processes: &[u8],
) -> Result<(), NoMemory>
    requires { All (λ p. p < length (names_view names.now).processes) processes.now }
    ensures { OnOk result (text.new.items
        ≡ text.old.items ++ said.line (words.now ++ said.names_text (names_view names.now) processes.now)) }
{
    put(text, words)?;
    for k in 0..processes.len() {
        put_name(text, b" ", &names.processes[usize::from(processes[k])])?;
    }
    put(text, b"\n")
}

/// Appends the line of a reason to a text.
pub fn put_why(text: &mut Vec<u8>, names: &Names, why: &Why) -> Result<(), NoMemory>
    requires { HasNamesOf (names_view names.now) why.now }
    ensures { OnOk result (text.new.items ≡ text.old.items ++ said.why_text (names_view names.now) why.now) }
{
    match why {
        Why::NotAsking => put(text, b"not asking\n"),
        Why::Cash { resource, cash } => put_cash(text, names, *cash, usize::from(*resource)),
        Why::Order(order) => put_names(text, b"order", names, order),
        Why::Rest(rest) => put_names(text, b"rest", names, rest),
        Why::Granted => put(text, b"granted\n"),
    }
}

//! Who holds a resource, and who asks for it.

ghost use Rattle.std.specs.Prelude.{◌≡◌, ◌<◌, ◌++◌, ℕ, length, slice_get, Some, OnOk};
ghost use Rattle.pb_banker.specs.Lenders.{lender_state};
ghost use Rattle.pb_base.specs.Banker.{processes, resources};
ghost use Rattle.pb_base.specs.Lines.{names_view, each_below};
ghost use Rattle.pb_code.specs.View.{code_view, process_view};
ghost use Rattle.pb_code.specs.declared.code.ProcessCode.{ProcessCode as GivenProcess};
ghost use Rattle.pb_code.specs.Bundles.{NamesBundles};
ghost use Rattle.pb_debug_texts.specs.Resources as said;
ghost use Rattle.pb_machine.specs.Views.{machine_view, proc_view, thread_view};

use crate::text::{end_name, put_cash, put_loan};
use pb_banker::Lender;
use pb_base::writing::{put, put_number};
use pb_base::{Names, NoMemory};
use pb_circles::{amount_in, asked};
use pb_code::{Code, ProcessCode};
use pb_machine::{Machine, Proc, Thread};

/// Returns the amount of a resource for which an arm asks: 0 if it is not at a request.
fn amount_asked(code: &ProcessCode, thread: &Thread, r: usize) -> u64
    requires { NamesBundles code.now }
    ensures { result ≡ said.amount_asked (process_view code.now) (thread_view thread.now) r }
{
    match asked(code, thread) {
        Some(bundle) => amount_in(bundle, r),
        None => 0,
    }
}

/// Appends the line of an arm to a text, if it asks for some of a resource.
fn put_asker(
    text: &mut Vec<u8>,
    names: &Names,
    r: usize,
    p: usize,
    arm: usize,
    amount: u64,
) -> Result<(), NoMemory>
    requires process { p < length (names_view names.now).processes }
    requires resource { r < length (names_view names.now).resources }
    ensures { OnOk result (text.new.items
        ≡ text.old.items ++ said.asker_text (names_view names.now) r (record { process = p; arm = arm }) amount) }
{
    if amount == 0 {
        return Ok(());
    }
    put(text, &names.processes[p])?;
    put_number(text, b".", arm)?;
    put_number(text, b" asks ", amount)?;
    end_name(text, b" ", &names.resources[r])
}

/// Appends the lines of the arms of a process that ask for a resource to a text.
fn put_askers_in(
    text: &mut Vec<u8>,
    names: &Names,
    r: usize,
    p: usize,
    code: &ProcessCode,
    process: &Proc,
) -> Result<(), NoMemory>
    requires bundles { NamesBundles code.now }
    requires process { p < length (names_view names.now).processes }
    requires resource { r < length (names_view names.now).resources }
    ensures { OnOk result (text.new.items
        ≡ text.old.items ++ said.askers_in (names_view names.now) r p (process_view code.now) (proc_view process.now)) }
{
    for arm in 0..process.arms() {
        let amount = amount_asked(code, process.thread(arm), r);
        put_asker(text, names, r, p, arm, amount)?;
    }
    Ok(())
}

/// Appends the lines of all arms that ask for a resource to a text.
fn put_askers(text: &mut Vec<u8>, code: &Code, machine: &Machine, r: usize) -> Result<(), NoMemory>
    requires bundles { (p : ℕ) (process : GivenProcess)
        → slice_get (code_view code.now).processes p ≡ Some (process_view process) → NamesBundles process }
    requires processes { length (machine_view machine.now).processes ≡ length (code_view code.now).processes }
    requires process_names { length (code_view code.now).names.processes ≡ length (code_view code.now).processes }
    requires resource { r < length (code_view code.now).names.resources }
    ensures { OnOk result (text.new.items ≡ text.old.items
        ++ each_below (said.askers_at (code_view code.now) (machine_view machine.now) r)
        (length (machine_view machine.now).processes)) }
{
    for p in 0..machine.processes() {
        put_askers_in(text, &code.names, r, p, &code.processes[p], machine.proc(p))?;
    }
    Ok(())
}

/// Appends the line of the loan of a process to a text, if it holds some of a resource.
fn put_holder(
    text: &mut Vec<u8>,
    names: &Names,
    bank: &Lender,
    r: usize,
    p: usize,
) -> Result<(), NoMemory>
    requires process { p < processes (lender_state bank.now) }
    requires resource { r < resources (lender_state bank.now) }
    requires process_name { p < length (names_view names.now).processes }
    requires resource_name { r < length (names_view names.now).resources }
    ensures { OnOk result (text.new.items
        ≡ text.old.items ++ said.holder_text (names_view names.now) (lender_state bank.now) r p) }
{
    if bank.loan(p, r) == 0 {
        return Ok(());
    }
    put_loan(text, names, bank, p, r)
}

/// Appends the lines of all processes that hold a resource to a text.
fn put_holders(text: &mut Vec<u8>, names: &Names, bank: &Lender, r: usize) -> Result<(), NoMemory>
    requires resource { r < resources (lender_state bank.now) }
    requires process_names { length (names_view names.now).processes ≡ processes (lender_state bank.now) }
    requires resource_name { r < length (names_view names.now).resources }
    ensures { OnOk result (text.new.items ≡ text.old.items
        ++ each_below (said.holder_text (names_view names.now) (lender_state bank.now) r) (processes (lender_state bank.now))) }
{
    for p in 0..bank.processes() {
        put_holder(text, names, bank, r, p)?;
    }
    Ok(())
}

/// Appends the lines of a resource to a text: of those who hold it, of those who ask for it, and of the cash
/// of it.
pub fn put_who(text: &mut Vec<u8>, code: &Code, machine: &Machine, r: usize) -> Result<(), NoMemory>
    requires bundles { (p : ℕ) (process : GivenProcess)
        → slice_get (code_view code.now).processes p ≡ Some (process_view process) → NamesBundles process }
    requires processes { length (machine_view machine.now).processes ≡ length (code_view code.now).processes }
    requires process_names { length (code_view code.now).names.processes ≡ length (code_view code.now).processes }
    requires rows { processes (lender_state machine.now.bank) ≡ length (code_view code.now).processes }
    requires resource { r < resources (lender_state machine.now.bank) }
    requires resource_name { r < length (code_view code.now).names.resources }
    ensures { OnOk result (text.new.items ≡ text.old.items
        ++ said.who_text (code_view code.now) (machine_view machine.now) (lender_state machine.now.bank) r) }
{
    let bank = machine.lender();
    put_holders(text, &code.names, bank, r)?;
    put_askers(text, code, machine, r)?;
    put_cash(text, &code.names, bank.cash(r), r)
}

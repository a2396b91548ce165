//! The state at a position, as entries.

ghost use Rattle.std.specs.Prelude.{◌≡◌, ◌<◌, ◌++◌, ◌∷◌, [], ℕ, List, length, map, slice_index, IfOk, OnOk};
ghost use Rattle.std.specs.Fmt.{decimal};
ghost use Rattle.pb_banker.specs.Lenders.{lender_state, lending_by};
ghost use Rattle.pb_base.specs.Banker.{processes, resources};
ghost use Rattle.pb_base.specs.declared.lending.Lending.{Lending as LendingValue};
ghost use Rattle.pb_code.specs.View.{labels_view};
ghost use Rattle.pb_json.specs.Values.{comma, integer_text};
ghost use Rattle.pb_machine.specs.Views.{IsMachine, IsMachineBy, machine_view, proc_view};
ghost use Rattle.pb_page.specs.Parts.{ArePartsBelow, parts_below};
ghost use Rattle.pb_page.specs.States as spec;
ghost use Rattle.pb_page.specs.States.{AreWhysOf, AreWordsOf, IsOrderBy, IsStateBy};
ghost use Rattle.pb_page.specs.Texts.{texts};

use crate::arms::{add, add_operands, add_places, add_whys};
use pb_banker::Lender;
use pb_base::writing::{put, put_digits};
use pb_base::{Lending, NoMemory};
use pb_code::Labels;
use pb_json::{put_comma, put_integer};
use pb_machine::{Machine, Proc};
use pb_verifier::Verified;
use std::alloc::Global;

/// Adds the places of all arms.
fn add_all_places(
    alloc: Global,
    entries: &mut Vec<Vec<u8>>,
    machine: &Machine,
) -> Result<(), NoMemory>
    ensures { OnOk result (texts entries.new.items ≡ texts entries.old.items
        ++ parts_below (λ p. spec.places_of (spec.process_at (machine_view machine.now) p))
        (length (machine_view machine.now).processes)) }
{
    for p in 0..machine.processes() {
        add_places(alloc, entries, machine.proc(p))?;
    }
    Ok(())
}

/// Adds the operands of all arms.
fn add_all_operands(
    alloc: Global,
    entries: &mut Vec<Vec<u8>>,
    machine: &Machine,
) -> Result<(), NoMemory>
    ensures { OnOk result (texts entries.new.items ≡ texts entries.old.items
        ++ parts_below (λ p. spec.operands_of (spec.process_at (machine_view machine.now) p))
        (length (machine_view machine.now).processes)) }
{
    for p in 0..machine.processes() {
        add_operands(alloc, entries, machine.proc(p))?;
    }
    Ok(())
}

/// Adds why each arm of each process does not go on, or may, and to `words` what each does by its next pick.
fn add_all_whys(
    alloc: Global,
    entries: &mut Vec<Vec<u8>>,
    words: &mut Vec<Vec<u8>>,
    verified: &Verified,
    labels: &Labels,
    machine: &Machine,
) -> Result<(), NoMemory>
    requires { IsMachineBy (lending_by machine.now.bank) verified.now machine.now }
    ensures whys { OnOk result ((whys : List (List ℕ))
        × (texts entries.new.items ≡ texts entries.old.items ++ whys)
        × ArePartsBelow (λ p part. AreWhysOf (lending_by machine.now.bank) verified.now.code (machine_view machine.now) p
        (spec.process_at (machine_view machine.now) p) part)
        (length (machine_view machine.now).processes) whys) }
    ensures words { OnOk result ((said : List (List ℕ))
        × (texts words.new.items ≡ texts words.old.items ++ said)
        × ArePartsBelow (λ p part. AreWordsOf (lending_by machine.now.bank) verified.now.code (labels_view labels.now)
        (machine_view machine.now) p (spec.process_at (machine_view machine.now) p) part)
        (length (machine_view machine.now).processes) said) }
{
    for p in 0..machine.processes() {
        add_whys(alloc, entries, words, verified, labels, machine, p)?;
    }
    Ok(())
}

/// Returns the text of an integer.
fn integer_of(alloc: Global, value: i64) -> Result<Vec<u8>, NoMemory>
    ensures { IfOk result (λ text. text.items ≡ integer_text value) }
{
    let mut text = Vec::new(alloc);
    put_integer(&mut text, value)?;
    Ok(text)
}

/// Adds the integers of a process.
fn add_integers(alloc: Global, entries: &mut Vec<Vec<u8>>, process: &Proc) -> Result<(), NoMemory>
    ensures { OnOk result (texts entries.new.items
        ≡ texts entries.old.items ++ spec.integers_of (proc_view process.now)) }
{
    let values = process.vars();
    for x in 0..values.len() {
        let text = integer_of(alloc, values[x])?;
        add(entries, text)?;
    }
    Ok(())
}

/// Adds the integers of all processes.
fn add_all_integers(
    alloc: Global,
    entries: &mut Vec<Vec<u8>>,
    machine: &Machine,
) -> Result<(), NoMemory>
    ensures { OnOk result (texts entries.new.items ≡ texts entries.old.items
        ++ parts_below (λ p. spec.integers_of (spec.process_at (machine_view machine.now) p))
        (length (machine_view machine.now).processes)) }
{
    for p in 0..machine.processes() {
        add_integers(alloc, entries, machine.proc(p))?;
    }
    Ok(())
}

/// Returns the text of an amount.
fn amount_of(alloc: Global, amount: u32) -> Result<Vec<u8>, NoMemory>
    ensures { IfOk result (λ text. text.items ≡ decimal amount) }
{
    let mut text = Vec::new(alloc);
    put_digits(&mut text, amount)?;
    Ok(text)
}

/// Adds what a process holds of each resource.
fn add_loans(
    alloc: Global,
    entries: &mut Vec<Vec<u8>>,
    bank: &Lender,
    p: usize,
) -> Result<(), NoMemory>
    requires { p < processes (lender_state bank.now) }
    ensures { OnOk result (texts entries.new.items
        ≡ texts entries.old.items ++ spec.loans_of (lender_state bank.now) p) }
{
    for r in 0..bank.resources() {
        let text = amount_of(alloc, bank.loan(p, r))?;
        add(entries, text)?;
    }
    Ok(())
}

/// Adds what each process holds of each resource.
fn add_all_loans(alloc: Global, entries: &mut Vec<Vec<u8>>, bank: &Lender) -> Result<(), NoMemory>
    ensures { OnOk result (texts entries.new.items ≡ texts entries.old.items
        ++ parts_below (spec.loans_of (lender_state bank.now)) (processes (lender_state bank.now))) }
{
    for p in 0..bank.processes() {
        add_loans(alloc, entries, bank, p)?;
    }
    Ok(())
}

/// Appends a process of an order, with the comma before it.
fn put_next(out: &mut Vec<u8>, k: usize, process: u8) -> Result<(), NoMemory>
    ensures { OnOk result (out.new.items ≡ out.old.items ++ (comma k ++ decimal process)) }
{
    put_comma(out, k)?;
    put_digits(out, process)
}

/// Returns the text of an order.
fn order_text(alloc: Global, order: &[u8]) -> Result<Vec<u8>, NoMemory>
    ensures { IfOk result (λ text. text.items ≡ spec.order_text order.now) }
{
    let mut text = Vec::new(alloc);
    put(&mut text, b"[")?;
    for k in 0..order.len() {
        put_next(&mut text, k, order[k])?;
    }
    put(&mut text, b"]")?;
    Ok(text)
}

/// Returns the order in which the banker can finish; no process under the cash alone.
fn order_of(alloc: Global, machine: &Machine) -> Result<Vec<u8>, NoMemory>
    ensures { IfOk result (λ order.
        IsOrderBy (lending_by machine.now.bank) (lender_state machine.now.bank) order.items) }
{
    match machine.lending() {
        Lending::ByBanker => machine.banker().order(alloc),
        Lending::ByCash => Ok(Vec::new(alloc)),
    }
}

/// Adds the order in which the banker can finish.
fn add_order(alloc: Global, entries: &mut Vec<Vec<u8>>, machine: &Machine) -> Result<(), NoMemory>
    ensures { OnOk result ((order : List ℕ)
        × IsOrderBy (lending_by machine.now.bank) (lender_state machine.now.bank) order
        × (texts entries.new.items ≡ texts entries.old.items ++ spec.order_text order ∷ [])) }
{
    let order = order_of(alloc, machine)?;
    let text = order_text(alloc, &order)?;
    add(entries, text)
}

/// Adds further entries after those that are there.
fn add_more(entries: &mut Vec<Vec<u8>>, more: Vec<Vec<u8>>) -> Result<(), NoMemory>
    ensures { OnOk result (texts entries.new.items ≡ texts entries.old.items ++ texts more.items) }
{
    let mut more = more;
    entries.append(&mut more)?;
    Ok(())
}

/// Adds the entries of the state that a machine is in.
fn add_all(
    alloc: Global,
    entries: &mut Vec<Vec<u8>>,
    verified: &Verified,
    labels: &Labels,
    machine: &Machine,
) -> Result<(), NoMemory>
    requires machine { IsMachineBy (lending_by machine.now.bank) verified.now machine.now }
    requires none { entries.old.items ≡ [] }
    ensures { OnOk result (IsStateBy (lending_by machine.now.bank) verified.now.code (labels_view labels.now)
        (machine_view machine.now) (texts entries.new.items)) }
{
    let mut words = Vec::new(alloc);
    add_all_places(alloc, entries, machine)?;
    add_all_operands(alloc, entries, machine)?;
    add_all_whys(alloc, entries, &mut words, verified, labels, machine)?;
    add_all_integers(alloc, entries, machine)?;
    add_all_loans(alloc, entries, machine.lender())?;
    add_order(alloc, entries, machine)?;
    add_more(entries, words)
}

/// Returns the entries of the state that a machine is in, with the names of integers and the lines that the labels tell.
pub fn state_of(
    alloc: Global,
    verified: &Verified,
    labels: &Labels,
    machine: &Machine,
) -> Result<Vec<Vec<u8>>, NoMemory>
    requires { IsMachine verified.now machine.now }
    ensures { IfOk result (λ entries. (lending : LendingValue) → IsMachineBy lending verified.now machine.now
        → IsStateBy lending verified.now.code (labels_view labels.now) (machine_view machine.now) (texts entries.items)) }
{
    let mut entries = Vec::new(alloc);
    add_all(alloc, &mut entries, verified, labels, machine)?;
    Ok(entries)
}

//! Integers, loans and cash as variables.

ghost use Rattle.std.specs.Prelude.{◌≡◌, ◌<◌, ◌^◌, ◌∷◌, [], IfOk, codes, map, true};
ghost use Rattle.std.specs.Fmt.{decimal, signed_decimal};
ghost use Rattle.serde_json.specs.View.{view};
ghost use Rattle.pb_banker.specs.Lenders.{lender_state};
ghost use Rattle.pb_base.specs.Banker.{claim, loan, processes, resources};
ghost use Rattle.pb_base.specs.Lines.{name_of};
ghost use Rattle.pb_adapter_requests.specs.Responses.{list_below, listed};
ghost use Rattle.pb_adapter_values.specs.Values as spec;

use crate::names::{name_at, thread_number};
use pb_banker::Lender;
use pb_base::NoMemory;
use serde_json::{Value, json};
use std::alloc::{AllocError, Global};

/// Returns a value with a name.
fn variable(alloc: Global, name: &[u8], shown: &str) -> Result<Value, NoMemory>
    ensures { IfOk result (λ v. view v ≡ spec.variable_data name.now shown.now) }
{
    let name = String::from_utf8_lossy(alloc, name)?;
    Ok(json!(in alloc; {"name": name, "value": shown, "variablesReference": 0u64})?)
}

/// Returns an integer with its name.
fn integer(alloc: Global, name: &[u8], value: i64) -> Result<Value, NoMemory>
    ensures { IfOk result (λ v. view v ≡ spec.variable_data name.now (signed_decimal value)) }
{
    let shown = format!(in alloc; "{value}")?;
    variable(alloc, name, shown.as_str())
}

/// Returns integers with these names.
pub fn integers(alloc: Global, names: &[Vec<u8>], vars: &[i64]) -> Result<Vec<Value>, NoMemory>
    ensures { IfOk result (λ list. map view list.items ≡ spec.integers_list (map (λ name. name.items) names.now) vars.now) }
{
    let mut list = Vec::new(alloc);
    for i in 0..vars.len() {
        let item = integer(alloc, name_at(names, i), vars[i])?;
        list.push(item)?;
    }
    Ok(list)
}

/// Returns an operand with its number.
fn operand(alloc: Global, i: usize, value: i64) -> Result<Value, NoMemory>
    ensures { IfOk result (λ v. view v ≡ spec.variable_data (decimal i) (signed_decimal value)) }
{
    let name = format!(in alloc; "{i}")?;
    integer(alloc, name.as_bytes(), value)
}

/// Returns operands by their numbers.
pub fn operands(alloc: Global, values: &[i64]) -> Result<Vec<Value>, NoMemory>
    ensures { IfOk result (λ list. map view list.items ≡ spec.operands_list values.now) }
{
    let mut list = Vec::new(alloc);
    for i in 0..values.len() {
        let item = operand(alloc, i, values[i])?;
        list.push(item)?;
    }
    Ok(list)
}

/// Returns `K of claim C`.
fn loan_words(alloc: Global, held: u32, claimed: u32) -> Result<String, NoMemory>
    ensures { IfOk result (λ s. s.bytes.items ≡ spec.loan_words held claimed) }
{
    Ok(format!(in alloc; "{held} of claim {claimed}")?)
}

/// Returns a loan with the claim.
fn loan(alloc: Global, name: &[u8], held: u32, claimed: u32) -> Result<Value, NoMemory>
    ensures { IfOk result (λ v. view v ≡ spec.variable_data name.now (spec.loan_words held claimed)) }
{
    let shown = loan_words(alloc, held, claimed)?;
    variable(alloc, name, shown.as_str())
}

/// Returns the loans of a process.
fn loans(
    alloc: Global,
    names: &[Vec<u8>],
    lender: &Lender,
    p: usize,
) -> Result<Vec<Value>, NoMemory>
    requires { p < processes (lender_state lender.now) }
    ensures { IfOk result (λ list. map view list.items
        ≡ list_below (λ r. spec.variable_data (name_of (map (λ name. name.items) names.now) r)
        (spec.loan_words (loan (lender_state lender.now) p r) (claim (lender_state lender.now) p r))) (resources (lender_state lender.now))) }
{
    let mut list = Vec::new(alloc);
    for r in 0..lender.resources() {
        let item = loan(
            alloc,
            name_at(names, r),
            lender.loan(p, r),
            lender.claim(p, r),
        )?;
        list.push(item)?;
    }
    Ok(list)
}

/// Returns the loans of a process; none if there is no such process.
pub fn loans_at(
    alloc: Global,
    names: &[Vec<u8>],
    lender: &Lender,
    p: usize,
) -> Result<Vec<Value>, NoMemory>
    ensures { IfOk result (λ list. map view list.items ≡ spec.loans_list (map (λ name. name.items) names.now) (lender_state lender.now) p) }
{
    if p < lender.processes() {
        loans(alloc, names, lender, p)
    } else {
        Ok(Vec::new(alloc))
    }
}

/// Returns an amount of cash.
fn amount(alloc: Global, name: &[u8], cash: u32) -> Result<Value, NoMemory>
    ensures { IfOk result (λ v. view v ≡ spec.variable_data name.now (decimal cash)) }
{
    let shown = format!(in alloc; "{cash}")?;
    variable(alloc, name, shown.as_str())
}

/// Returns the cash of each resource.
pub fn all_cash(alloc: Global, names: &[Vec<u8>], lender: &Lender) -> Result<Vec<Value>, NoMemory>
    ensures { IfOk result (λ list. map view list.items ≡ spec.cash_list (map (λ name. name.items) names.now) (lender_state lender.now)) }
{
    let mut list = Vec::new(alloc);
    for r in 0..lender.resources() {
        let item = amount(alloc, name_at(names, r), lender.cash(r))?;
        list.push(item)?;
    }
    Ok(list)
}

/// Returns the list of variables.
pub fn variables_body(alloc: Global, list: Vec<Value>) -> Result<Value, AllocError>
    ensures { IfOk result (λ v. view v ≡ listed (codes "variables") (map view list.items)) }
{
    json!(in alloc; {"variables": list})
}

/// Returns what can be shown under a name.
fn scope(alloc: Global, name: &str, reference: u64) -> Result<Value, AllocError>
    ensures { IfOk result (λ v. view v ≡ spec.scope_data name.now reference) }
{
    json!(in alloc; {"name": name, "variablesReference": reference, "expensive": false})
}

/// Returns the list of scopes.
fn scopes_body(
    alloc: Global,
    first: Value,
    second: Value,
    third: Value,
    fourth: Value,
) -> Result<Value, AllocError>
    ensures { IfOk result (λ v. view v ≡ listed (codes "scopes") (view first ∷ view second ∷ view third ∷ view fourth ∷ [])) }
{
    json!(in alloc; {"scopes": [first, second, third, fourth]})
}

/// Returns what can be shown of an arm: the integers of its process, its operands, the loans and the cash.
pub fn scopes(alloc: Global, p: usize, arm: usize) -> Result<Value, NoMemory>
    requires process { p < 2 ^ 32 }
    requires arm { arm < 2 ^ 32 }
    ensures { IfOk result (λ v. view v ≡ spec.scopes_data true p arm) }
{
    let number = p as u64;
    let integers = scope(alloc, "Integers", number + 1)?;
    let operands = scope(alloc, "Operands", thread_number(p, arm) + 129)?;
    let loans = scope(alloc, "Loans", number + 65)?;
    let cash = scope(alloc, "Cash", 129)?;
    Ok(scopes_body(alloc, integers, operands, loans, cash)?)
}

/// Returns the list of no scopes.
pub fn no_scopes(alloc: Global) -> Result<Value, AllocError>
    ensures { IfOk result (λ v. view v ≡ listed (codes "scopes") []) }
{
    let none: Vec<Value> = Vec::new(alloc);
    json!(in alloc; {"scopes": none})
}

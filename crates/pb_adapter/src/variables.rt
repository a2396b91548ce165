//! The integers, operands, loans and cash at the position.

ghost use Rattle.std.specs.Prelude.{◌≡◌, IfOk, map, slice_get};
ghost use Rattle.serde_json.specs.View.{view};
ghost use Rattle.pb_code.specs.View.{labels_view};
ghost use Rattle.pb_adapter.specs.Values as spec;

use pb_adapter_requests::{Place, place_of};
use pb_adapter_values::{all_cash, integers, loans_at, operands, variables_body};
use pb_base::NoMemory;
use pb_code::Labels;
use pb_debug::Debugger;
use serde_json::Value;
use std::alloc::Global;

/// Returns the names of the integers of a process.
fn names_of(labels: &Labels, p: usize) -> &[Vec<u8>]
    ensures { map (λ name. name.items) result.now ≡ spec.integers_of (slice_get (labels_view labels.now) p) }
{
    match labels.processes.get(p) {
        Some(process) => process.integers.as_slice(),
        None => &[],
    }
}

/// Returns the integers of a process at the position.
fn integers_at(alloc: Global, debugger: &Debugger<'_>, p: usize) -> Result<Vec<Value>, NoMemory>
    ensures { IfOk result (λ list. map view list.items ≡ spec.integers_at debugger.now p) }
{
    let names = names_of(debugger.labels(), p);
    match debugger.vars(p) {
        Ok(vars) => integers(alloc, names, vars),
        Err(_) => Ok(Vec::new(alloc)),
    }
}

/// Returns the operands of an arm at the position.
fn operands_at(alloc: Global, debugger: &Debugger<'_>, at: Place) -> Result<Vec<Value>, NoMemory>
    ensures { IfOk result (λ list. map view list.items ≡ spec.operands_at debugger.now (record { process = at.process; arm = at.arm })) }
{
    match debugger.threads(at.process) {
        Ok(process) => {
            if at.arm < process.arms() {
                operands(alloc, process.thread(at.arm).operands())
            } else {
                Ok(Vec::new(alloc))
            }
        }
        Err(_) => Ok(Vec::new(alloc)),
    }
}

/// Returns what a reference names at the position.
fn variables_of(
    alloc: Global,
    debugger: &Debugger<'_>,
    reference: u64,
) -> Result<Vec<Value>, NoMemory>
    ensures { IfOk result (λ list. map view list.items ≡ spec.variables_list debugger.now reference) }
{
    let names = &debugger.verified().names().resources;
    match reference {
        0 => Ok(Vec::new(alloc)),
        1..=64 => integers_at(alloc, debugger, (reference - 1) as usize),
        65..=128 => loans_at(alloc, names, debugger.loans(), (reference - 65) as usize),
        129 => all_cash(alloc, names, debugger.loans()),
        _ => operands_at(alloc, debugger, place_of(Some(reference - 129))),
    }
}

/// Returns the integers, the operands, the loans or the cash at the position that a reference names.
pub fn variables(
    alloc: Global,
    debugger: &Debugger<'_>,
    reference: Option<u64>,
) -> Result<Value, NoMemory>
    ensures { IfOk result (λ v. view v ≡ spec.variables_data debugger.now reference) }
{
    let list = variables_of(alloc, debugger, reference.unwrap_or(0))?;
    Ok(variables_body(alloc, list)?)
}

//! How much parts take together, and which of two lists takes more.

ghost use Rattle.std.specs.Prelude.{◌≡◌, ◌++◌, IfOk};
ghost use Rattle.pb_plan.specs.Parts.{heavier, hold_part, weight};

use crate::part::Part;
use pb_base::NoMemory;
use std::alloc::Global;

/// Returns how much the parts take together.
fn weight(parts: &Vec<Part>) -> u128
    ensures { result ≡ weight parts.now.items }
{
    let mut total = 0u128;
    for part in parts {
        total += u128::from(part.amount);
    }
    total
}

/// Returns the list of parts that takes more, the first if both take as much.
pub(crate) fn heavier(a: Vec<Part>, b: Vec<Part>) -> Vec<Part>
    ensures { result.items ≡ heavier a.items b.items }
{
    if weight(&a) < weight(&b) { b } else { a }
}

/// Returns the parts of a hold with this amount: its own, if it takes anything, and those of its body.
pub(crate) fn with_hold(
    alloc: Global,
    line: u32,
    amount: u64,
    body: Vec<Part>,
) -> Result<Vec<Part>, NoMemory>
    ensures { IfOk result (λ parts. parts.items ≡ hold_part line amount ++ body.items) }
{
    if amount == 0 {
        return Ok(body);
    }
    let mut parts = Vec::new(alloc);
    parts.push(Part { line, amount })?;
    parts.extend_from_slice(&body)?;
    Ok(parts)
}

//! The claims of a program.

ghost use Rattle.std.specs.Prelude.{◌≡◌, ◌<◌, ◌≤◌, IfOk, length, map};
ghost use Rattle.pb_base.specs.Tables.{HasWidth, width_of};
ghost use Rattle.pb_claims.specs.Inferred.{AreCappedClaims, HaveSmallClaims, capped_peaks};
ghost use Rattle.pb_names.specs.Meaning.{AreClaims};
ghost use Rattle.pb_names.specs.View.{block_view, resolved_view};

use crate::peaks::peak_of_list;
use pb_base::limits::{MAX_PROCESSES, MAX_RESOURCES};
use pb_base::{Claims, NoMemory};
use pb_names::{Process, Resolved, Stmt};
use std::alloc::{Allocator, Global};

/// Returns the claim of each process on each resource: the greatest amount that the process holds in any run
/// in which tests go either way and no banker refuses. A hold counts even if its branch never runs. This
/// is the claim of Dijkstra's banker (EWD123), found here and not declared by the customer.
///
/// It is found by one pass over the body for each resource: a hold adds its amount to the most that its body
/// holds, of lists and branches the greatest counts, the arms of a parbegin are summed. A claim beyond 64
/// bits is returned as the greatest `u64`; no program of at most 16,384 nodes has one. The error comes only
/// if `alloc` is out of memory.
pub fn infer<A: Allocator>(alloc: Global, program: &Resolved<A>) -> Result<Claims, NoMemory>
    requires some_processes { 1 ≤ length (resolved_view program.now).processes }
    requires few_processes { length (resolved_view program.now).processes ≤ MAX_PROCESSES }
    requires few_resources { length (resolved_view program.now).resources ≤ MAX_RESOURCES }
    ensures exact { HaveSmallClaims (resolved_view program.now)
        → IfOk result (AreClaims (resolved_view program.now)) }
    ensures capped { IfOk result (AreCappedClaims (resolved_view program.now)) }
{
    let rows = rows_of(alloc, &program.processes, program.resources.len())?;
    claims_with(alloc, &rows)
}

/// Returns for each process the row of its claims.
fn rows_of<A: Allocator>(
    alloc: Global,
    processes: &Vec<Process<A>, A>,
    resources: usize,
) -> Result<Vec<Vec<u64>>, NoMemory>
    requires { resources ≤ MAX_RESOURCES }
    ensures { IfOk result (λ rows. map (λ row. row.items) rows.items
        ≡ map (λ process. capped_peaks resources (block_view process.body.items)) processes.now.items) }
{
    let mut rows = Vec::new(alloc);
    for process in processes {
        rows.push(row_of(alloc, &process.body, resources)?)?;
    }
    Ok(rows)
}

/// Returns the most that a body holds of each resource.
fn row_of<A: Allocator>(
    alloc: Global,
    body: &Vec<Stmt<A>, A>,
    resources: usize,
) -> Result<Vec<u64>, NoMemory>
    requires { resources ≤ MAX_RESOURCES }
    ensures { IfOk result (λ row. row.items ≡ capped_peaks resources (block_view body.now.items)) }
{
    let mut row = Vec::new(alloc);
    for r in 0..resources {
        row.push(peak_of_list(body, r as u8))?;
    }
    Ok(row)
}

/// Returns the claims with these rows.
fn claims_with(alloc: Global, rows: &Vec<Vec<u64>>) -> Result<Claims, NoMemory>
    requires some { 0 < length rows.now.items }
    requires few_processes { length rows.now.items ≤ MAX_PROCESSES }
    requires few_resources { width_of (map (λ row. row.items) rows.now.items) ≤ MAX_RESOURCES }
    requires one_length { HasWidth (width_of (map (λ row. row.items) rows.now.items))
        (map (λ row. row.items) rows.now.items) }
    ensures { IfOk result (λ claims. claims ≡ map (λ row. row.items) rows.now.items) }
{
    let mut slices: Vec<&[u64]> = Vec::new(alloc);
    for row in rows {
        slices.push(row)?;
    }
    Claims::new(alloc, &slices)
}

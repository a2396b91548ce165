//! The holds that make up a claim.

ghost use Rattle.std.specs.Prelude.{◌≡◌, ◌==◌, cond, IfOk};
ghost use Rattle.pb_base.specs.Bundle.{amount_in};
ghost use Rattle.pb_names.specs.View.{arms_view, block_view, process_view, stmt_view};
ghost use Rattle.pb_plan.specs.Parts.{arms_parts, parts, stmt_parts};

use crate::part::Part;
use crate::weight::{heavier, with_hold};
use pb_base::{Bundle, NoMemory, Pair};
use pb_names::{Process, Stmt};
use std::alloc::{Allocator, Global};

/// Returns the holds that make up the claim of a process on a resource, in the order of the text: together they
/// take what the process claims. Of several ways to hold as much the first of the text is taken. The error comes
/// only if `alloc` is out of memory.
pub fn claim_parts<A: Allocator>(
    alloc: Global,
    process: &Process<A>,
    resource: usize,
) -> Result<Vec<Part>, NoMemory>
    ensures { IfOk result (λ found. found.items ≡ parts resource (process_view process.now).body) }
{
    parts_of_list(alloc, &process.body, resource)
}

/// Returns the amount of a pair, if it is of this resource, else 0.
fn share(pair: Pair, resource: usize) -> u32
    ensures { result ≡ cond (pair.resource == resource) pair.amount 0 }
{
    if usize::from(pair.resource) == resource {
        pair.amount
    } else {
        0
    }
}

/// Returns the amount of a resource in a bundle, 0 if it is not there.
fn amount_of(bundle: &Bundle, resource: usize) -> u64
    ensures { result ≡ amount_in bundle.now resource }
{
    let mut amount = 0;
    for i in 0..bundle.len() {
        amount += u64::from(share(bundle.get(i), resource));
    }
    amount
}

/// Returns the parts of a statement.
#[cycle(parts)]
#[tactic(auto, using(pb_names::proofs::Views::stmt_views))]
fn parts_of_stmt<A: Allocator>(
    alloc: Global,
    stmt: &Stmt<A>,
    resource: usize,
) -> Result<Vec<Part>, NoMemory>
    ensures { IfOk result (λ found. found.items ≡ stmt_parts resource (stmt_view stmt.now)) }
{
    match stmt {
        Stmt::Assign { .. } | Stmt::Print { .. } => Ok(Vec::new(alloc)),
        Stmt::If {
            on_true,
            on_false,
            ..
        } => {
            let first = parts_of_list(alloc, on_true, resource)?;
            let second = parts_of_list(alloc, on_false, resource)?;
            Ok(heavier(first, second))
        }
        Stmt::While { body, .. } => parts_of_list(alloc, body, resource),
        Stmt::Hold { line, bundle, body } => {
            let inside = parts_of_list(alloc, body, resource)?;
            with_hold(alloc, *line, amount_of(bundle, resource), inside)
        }
        Stmt::Parbegin { arms, .. } => parts_of_arms(alloc, arms, resource),
    }
}

/// Returns the parts of a list: those of its first statement that takes most.
#[cycle(parts)]
#[tactic(auto, using(pb_names::proofs::Views::stmt_views))]
fn parts_of_list<A: Allocator>(
    alloc: Global,
    stmts: &Vec<Stmt<A>, A>,
    resource: usize,
) -> Result<Vec<Part>, NoMemory>
    ensures { IfOk result (λ found. found.items ≡ parts resource (block_view stmts.now.items)) }
{
    let mut greatest = Vec::new(alloc);
    for stmt in stmts {
        let next = parts_of_stmt(alloc, stmt, resource)?;
        greatest = heavier(greatest, next);
    }
    Ok(greatest)
}

/// Returns the parts of arms side by side: those of each arm.
#[cycle(parts)]
#[tactic(auto, using(pb_names::proofs::Views::stmt_views))]
fn parts_of_arms<A: Allocator>(
    alloc: Global,
    arms: &Vec<Vec<Stmt<A>, A>, A>,
    resource: usize,
) -> Result<Vec<Part>, NoMemory>
    ensures { IfOk result (λ found. found.items ≡ arms_parts resource (arms_view arms.now.items)) }
{
    let mut all = Vec::new(alloc);
    for arm in arms {
        let next = parts_of_list(alloc, arm, resource)?;
        all.extend_from_slice(&next)?;
    }
    Ok(all)
}

//! The most that a part of a process ever holds of a resource.

ghost use Rattle.std.specs.Prelude.{◌≡◌};
ghost use Rattle.pb_base.specs.Bundle.{amount_in};
ghost use Rattle.pb_tree.specs.Measure.{saturated};
ghost use Rattle.pb_names.specs.Claims.{arms_peak, peak, stmt_peak};
ghost use Rattle.pb_names.specs.View.{arms_view, block_view, stmt_view};

use pb_base::Bundle;
use pb_names::Stmt;
use std::alloc::Allocator;

/// Returns the amount of a resource in a bundle, 0 if it is not there.
fn amount_of(bundle: &Bundle, resource: u8) -> u64
    ensures { result ≡ amount_in bundle.now resource }
{
    let mut total = 0u64;
    for i in 0..bundle.len() {
        let pair = bundle.get(i);
        if pair.resource == resource {
            total += u64::from(pair.amount);
        }
    }
    total
}

/// Returns the most that a statement holds of a resource, or the greatest `u64` if it is more. A hold adds
/// its amount to the most that its body holds; of the lists of an `if` the greater counts.
#[cycle(peaks)]
#[tactic(auto, using(pb_names::proofs::Views::stmt_views))]
fn peak_of_stmt<A: Allocator>(stmt: &Stmt<A>, resource: u8) -> u64
    ensures { result ≡ saturated (stmt_peak resource (stmt_view stmt.now)) }
{
    match stmt {
        Stmt::Assign { .. } | Stmt::Print { .. } => 0,
        Stmt::If {
            on_true,
            on_false,
            ..
        } => peak_of_list(on_true, resource).max(peak_of_list(on_false, resource)),
        Stmt::While { body, .. } => peak_of_list(body, resource),
        Stmt::Hold { bundle, body, .. } => {
            amount_of(bundle, resource).saturating_add(peak_of_list(body, resource))
        }
        Stmt::Parbegin { arms, .. } => peak_of_arms(arms, resource),
    }
}

/// Returns the most that a list holds of a resource, that of its greatest statement. It stays at the greatest
/// `u64`.
#[cycle(peaks)]
#[tactic(auto, using(pb_names::proofs::Views::stmt_views))]
pub(crate) fn peak_of_list<A: Allocator>(stmts: &Vec<Stmt<A>, A>, resource: u8) -> u64
    ensures { result ≡ saturated (peak resource (block_view stmts.now.items)) }
{
    let mut greatest = 0u64;
    for stmt in stmts {
        greatest = greatest.max(peak_of_stmt(stmt, resource));
    }
    greatest
}

/// Returns the most that arms hold of a resource side by side, the sum over them. It stays at the greatest
/// `u64`.
#[cycle(peaks)]
#[tactic(auto, using(pb_names::proofs::Views::stmt_views))]
fn peak_of_arms<A: Allocator>(arms: &Vec<Vec<Stmt<A>, A>, A>, resource: u8) -> u64
    ensures { result ≡ saturated (arms_peak resource (arms_view arms.now.items)) }
{
    let mut total = 0u64;
    for arm in arms {
        total = total.saturating_add(peak_of_list(arm, resource));
    }
    total
}

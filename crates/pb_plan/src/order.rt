//! An order of the resources that the processes follow.

ghost use Rattle.std.specs.Prelude.{◌≡◌, ℕ, IfNone, IfOk, IfSome, List, map};
ghost use Rattle.std.specs.List.{range_with_len};
ghost use Rattle.std.specs.List.Sorted.{IsPermutation};
ghost use Rattle.pb_names.specs.View.{process_view};
ghost use Rattle.pb_plan.specs.Nests.{AskBelow, IsAmong, IsBegun, IsFreeAt, IsInside, IsOrder};
ghost use Rattle.pb_plan.specs.Orders.{IsFollowed};
ghost use Rattle.pb_plan.specs.Scarce.{IsFollowedAmong};
ghost use Rattle.pb_plan.specs.declared.nest.Nest.{Nest as NestValue};

use crate::nest::Nest;
use crate::nests::find_nest;
use pb_base::NoMemory;
use pb_names::Process;
use std::alloc::{Allocator, Global};

/// Returns the numbers below a count.
fn numbers(alloc: Global, count: usize) -> Result<Vec<usize>, NoMemory>
    ensures { IfOk result (λ numbers. numbers.items ≡ range_with_len 0 count) }
{
    let mut numbers = Vec::new(alloc);
    for r in 0..count {
        numbers.push(r)?;
    }
    Ok(numbers)
}

/// Returns a hold of a resource inside one that asks for one of these, if there is one.
fn nest_into<A: Allocator>(
    processes: &[Process<A>],
    resources: usize,
    among: &[usize],
    inner: usize,
) -> Option<Nest>
    requires { AskBelow resources (map process_view processes.now) }
    ensures some { IfSome result (IsInside (map process_view processes.now) among.now inner) }
    ensures none { IfNone result ((found : NestValue)
        → IsInside (map process_view processes.now) among.now inner found → ⊥) }
{
    for k in 0..among.len() {
        if let Some(found) = find_nest(processes, among[k], inner) {
            return Some(found);
        }
    }
    None
}

/// Returns where the first of these resources is that no hold asks for inside one that asks for one of them.
fn first_free<A: Allocator>(
    processes: &[Process<A>],
    resources: usize,
    among: &[usize],
) -> Option<usize>
    requires { AskBelow resources (map process_view processes.now) }
    ensures some { IfSome result (IsFreeAt (map process_view processes.now) among.now) }
    ensures none { IfNone result ((r : ℕ) → IsAmong among.now r
        → (found : NestValue) × IsInside (map process_view processes.now) among.now r found) }
{
    for i in 0..among.len() {
        if nest_into(processes, resources, among, among[i]).is_none() {
            return Some(i);
        }
    }
    None
}

/// Resources in order, and those that are left.
#[derive(Drop)]
pub(crate) struct Sorted {
    pub(crate) order: Vec<usize>,
    pub(crate) left: Vec<usize>,
}

/// Puts resources into an order, one after another, until each of those that are left is asked for inside a hold of
/// another one of them.
pub(crate) fn sort<A: Allocator>(
    alloc: Global,
    processes: &[Process<A>],
    resources: usize,
    among: &[usize],
) -> Result<Sorted, NoMemory>
    requires { AskBelow resources (map process_view processes.now) }
    ensures begun { IfOk result (λ it.
        IsBegun (map process_view processes.now) among.now it.order.items it.left.items) }
    ensures left { IfOk result (λ it. (r : ℕ) → IsAmong it.left.items r
        → (found : NestValue) × IsInside (map process_view processes.now) it.left.items r found) }
{
    let mut left = Vec::from_slice(alloc, among)?;
    let mut order = Vec::new(alloc);
    while let Some(i) = first_free(processes, resources, &left) {
        let r = left.remove(i);
        order.push(r)?;
    }
    Ok(Sorted { order, left })
}

/// Returns an order of some of the resources that the processes follow, if there is one, whatever they ask for of the
/// others. The processes ask only for as many resources as `resources` says. The error comes only if `alloc` is out
/// of memory.
pub fn find_order_among<A: Allocator>(
    alloc: Global,
    processes: &[Process<A>],
    resources: usize,
    among: &[usize],
) -> Result<Option<Vec<usize>>, NoMemory>
    requires { AskBelow resources (map process_view processes.now) }
    ensures some { IfOk result (λ found. IfSome found (λ order. IsPermutation among.now order.items)) }
    ensures followed { IfOk result (λ found. IfSome found
        (λ order. IsFollowedAmong among.now order.items (map process_view processes.now))) }
    ensures none { IfOk result (λ found. IfNone found
        ((order : List ℕ) → IsFollowedAmong among.now order (map process_view processes.now) → ⊥)) }
{
    let sorted = sort(alloc, processes, resources, among)?;
    if sorted.left.is_empty() {
        return Ok(Some(sorted.order));
    }
    Ok(None)
}

/// Returns an order of the resources that the processes follow, if there is one. The processes ask only for these
/// many resources. The error comes only if `alloc` is out of memory.
pub fn find_order<A: Allocator>(
    alloc: Global,
    processes: &[Process<A>],
    resources: usize,
) -> Result<Option<Vec<usize>>, NoMemory>
    requires { AskBelow resources (map process_view processes.now) }
    ensures some { IfOk result (λ found. IfSome found (λ order. IsOrder resources order.items)) }
    ensures followed { IfOk result (λ found. IfSome found
        (λ order. IsFollowed order.items (map process_view processes.now))) }
    ensures none { IfOk result (λ found. IfNone found
        ((order : List ℕ) → IsFollowed order (map process_view processes.now) → ⊥)) }
{
    let all = numbers(alloc, resources)?;
    find_order_among(alloc, processes, resources, &all)
}

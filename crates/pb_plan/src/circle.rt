//! A circle of nested holds.

ghost use Rattle.std.specs.Prelude.{◌≡◌, ◌<◌, ℕ, All, IfNone, IfOk, IfSome, List, None, Some, length, map, slice_get};
ghost use Rattle.pb_names.specs.View.{process_view};
ghost use Rattle.pb_plan.specs.Circles.{IsBelow, IsCircleAmong, IsEdgeInto, IsEdgeOf, IsOnPath};
ghost use Rattle.pb_plan.specs.Nests.{AskBelow, IsAmong, IsInside, nest_among};
ghost use Rattle.pb_plan.specs.Scarce.{IsFollowedAmong};
ghost use Rattle.pb_plan.specs.declared.edge.Edge.{Edge as EdgeValue};
ghost use Rattle.pb_plan.specs.declared.nest.Nest.{Nest as NestValue};

use crate::edge::Edge;
use crate::nests::nest_in;
use crate::order::sort;
use pb_base::NoMemory;
use pb_names::Process;
use std::alloc::{Allocator, Global};

/// Returns an edge from one resource to another: the first in the processes.
fn edge_between<A: Allocator>(processes: &[Process<A>], outer: usize, inner: usize) -> Option<Edge>
    ensures some { IfSome result (IsEdgeOf (map process_view processes.now) outer inner) }
    ensures none { IfNone result (nest_among outer inner (map process_view processes.now) ≡ None) }
{
    for p in 0..processes.len() {
        if let Some(nest) = nest_in(&processes[p], outer, inner) {
            return Some(Edge { process: p, nest });
        }
    }
    None
}

/// Returns an edge to a resource from one of these, if there is one.
fn edge_into<A: Allocator>(
    processes: &[Process<A>],
    resources: usize,
    among: &[usize],
    inner: usize,
) -> Option<Edge>
    requires { AskBelow resources (map process_view processes.now) }
    ensures some { IfSome result (IsEdgeInto (map process_view processes.now) among.now inner) }
    ensures none { IfNone result ((found : NestValue)
        → IsInside (map process_view processes.now) among.now inner found → ⊥) }
{
    for k in 0..among.len() {
        if let Some(edge) = edge_between(processes, among[k], inner) {
            return Some(edge);
        }
    }
    None
}

/// Returns where a number is in a list.
fn place_in(numbers: &[usize], number: usize) -> Option<usize>
    ensures some { IfSome result (λ k. slice_get numbers.now k ≡ Some number) }
    ensures none { IfNone result ((k : ℕ) → slice_get numbers.now k ≡ Some number → ⊥) }
{
    for k in 0..numbers.len() {
        if numbers[k] == number {
            return Some(k);
        }
    }
    None
}

/// Returns where the edge to a resource is on a path.
fn place_on(path: &[Edge], r: usize) -> Option<usize>
    ensures some { IfSome result (λ k. (edge : EdgeValue) × (slice_get path.now k ≡ Some edge) × (edge.nest.inner ≡ r)) }
    ensures none { IfNone result (IsOnPath path.now r → ⊥) }
{
    for k in 0..path.len() {
        if path[k].nest.inner == r {
            return Some(k);
        }
    }
    None
}

/// Returns a circle among resources each of which is asked for inside a hold of one of them: the edges to one after
/// another are followed back, up to a resource that was there before.
fn follow<A: Allocator>(
    alloc: Global,
    processes: &[Process<A>],
    resources: usize,
    among: &[usize],
) -> Result<Vec<Edge>, NoMemory>
    requires below { AskBelow resources (map process_view processes.now) }
    requires some { 0 < length among.now }
    requires inside { (r : ℕ) → IsAmong among.now r
        → (found : NestValue) × IsInside (map process_view processes.now) among.now r found }
    ensures { IfOk result (λ circle. IsCircleAmong among.now (map process_view processes.now) circle.items) }
{
    let mut rest = Vec::from_slice(alloc, among)?;
    let mut path = Vec::new(alloc);
    let mut at = among[0];
    loop {
        if let Some(k) = place_on(&path, at) {
            return Ok(Vec::from_slice(alloc, &path[..k + 1])?);
        }
        let Some(i) = place_in(&rest, at) else {
            unreachable!()
        };
        rest.remove(i);
        let Some(edge) = edge_into(processes, resources, among, at) else {
            unreachable!()
        };
        path.insert(0, edge)?;
        at = edge.nest.outer;
    }
}

/// Returns a circle of nested holds of some of the resources, if there is no order of these that the processes follow:
/// the inner resource of each is the outer one of the next, and that of the last the outer one of the first. The processes
/// ask only for as many resources as `resources` says. The error comes only if `alloc` is out of memory.
pub fn find_circle<A: Allocator>(
    alloc: Global,
    processes: &[Process<A>],
    resources: usize,
    among: &[usize],
) -> Result<Option<Vec<Edge>>, NoMemory>
    requires { AskBelow resources (map process_view processes.now) }
    ensures circle { IfOk result (λ found. IfSome found
        (λ circle. IsCircleAmong among.now (map process_view processes.now) circle.items)) }
    ensures below { IfOk result (λ found. IfSome found
        (λ circle. All (IsBelow (length processes.now) resources) circle.items)) }
    ensures none { IfOk result (λ found. IfNone found
        ((order : List ℕ) × IsFollowedAmong among.now order (map process_view processes.now))) }
{
    let sorted = sort(alloc, processes, resources, among)?;
    if sorted.left.is_empty() {
        return Ok(None);
    }
    Ok(Some(follow(alloc, processes, resources, &sorted.left)?))
}

//! Finds a circular wait.

ghost use Rattle.std.specs.Prelude.{◌≡◌, ◌<◌, ℕ, List, length, All, IfOk, IfSome, IfNone, slice_get, Some, None};
ghost use Rattle.pb_circles.specs.Circles.{IsCircle, EachLinks, IsFreeAt, IsOnPath};
ghost use Rattle.pb_circles.specs.Links.{HasNamesOf, IsAmong};
ghost use Rattle.pb_circles.specs.declared.link.Link.{Link as LinkValue};
ghost use Rattle.pb_machine.specs.Views.{machine_view, IsMachine};

use crate::link::{Link, link_to};
use pb_base::NoMemory;
use pb_machine::Machine;
use pb_verifier::Verified;
use std::alloc::Global;

/// Returns the numbers below a count.
fn numbers(alloc: Global, count: usize) -> Result<Vec<usize>, NoMemory>
    ensures all { IfOk result (λ numbers. (p : ℕ) → p < count → IsAmong numbers.items p) }
    ensures below { IfOk result (λ numbers. All (λ p. p < count) numbers.items) }
{
    let mut numbers = Vec::with_capacity(alloc, count)?;
    for p in 0..count {
        numbers.push(p)?;
    }
    Ok(numbers)
}

/// Returns where a number is in a list.
fn place_in(numbers: &[usize], number: usize) -> Option<usize>
    ensures some { IfSome result (λ k. slice_get numbers.now k ≡ Some number) }
    ensures none { IfNone result ((k : ℕ) → slice_get numbers.now k ≡ Some number → ⊥) }
{
    for k in 0..numbers.len() {
        if numbers[k] == number {
            return Some(k);
        }
    }
    None
}

/// Returns where the link of a process is on a path.
fn place_on(path: &[Link], p: usize) -> Option<usize>
    ensures some { IfSome result (λ k. (link : LinkValue) × (slice_get path.now k ≡ Some link) × (link.process ≡ p)) }
    ensures none { IfNone result (IsOnPath path.now p → ⊥) }
{
    for k in 0..path.len() {
        if path[k].process == p {
            return Some(k);
        }
    }
    None
}

/// Returns where the first of these processes is that waits for none of them.
fn first_free(verified: &Verified, machine: &Machine, among: &[usize]) -> Option<usize>
    requires machine { IsMachine verified.now machine.now }
    requires among { All (λ q. q < length (machine_view machine.now).processes) among.now }
    ensures some { IfSome result (IsFreeAt verified.now.code (machine_view machine.now) among.now) }
    ensures none { IfNone result (EachLinks verified.now.code (machine_view machine.now) among.now) }
{
    for i in 0..among.len() {
        if link_to(verified, machine, among, among[i]).is_none() {
            return Some(i);
        }
    }
    None
}

/// Returns a circle among processes each of which waits for one of them: the links from one to the next are
/// followed up to a process that was there before.
fn follow(
    alloc: Global,
    verified: &Verified,
    machine: &Machine,
    among: &[usize],
) -> Result<Vec<Link>, NoMemory>
    requires machine { IsMachine verified.now machine.now }
    requires among { All (λ q. q < length (machine_view machine.now).processes) among.now }
    requires some { 0 < length among.now }
    requires links { EachLinks verified.now.code (machine_view machine.now) among.now }
    ensures { IfOk result (λ circle. IsCircle verified.now.code (machine_view machine.now) circle.items) }
{
    let mut rest = Vec::from_slice(alloc, among)?;
    let mut path = Vec::new(alloc);
    let mut at = among[0];
    loop {
        if let Some(k) = place_on(&path, at) {
            return Ok(Vec::from_slice(alloc, &path[k..])?);
        }
        let Some(i) = place_in(&rest, at) else {
            unreachable!()
        };
        rest.remove(i);
        let Some(link) = link_to(verified, machine, among, at) else {
            unreachable!()
        };
        path.push(link)?;
        at = link.holder;
    }
}

/// Returns a circular wait of a machine, if there is one: each process waits for a resource of which the next
/// one holds some, and the last for one of which the first does. The machine was made from this code. The
/// error comes only if out of memory.
pub fn find_circle(
    alloc: Global,
    verified: &Verified,
    machine: &Machine,
) -> Result<Option<Vec<Link>>, NoMemory>
    requires { IsMachine verified.now machine.now }
    ensures circle { IfOk result (λ found. IfSome found
        (λ circle. IsCircle verified.now.code (machine_view machine.now) circle.items)) }
    ensures names { IfOk result (λ found. IfSome found
        (λ circle. All (HasNamesOf verified.now.code.names) circle.items)) }
    ensures none { IfOk result (λ found. IfNone found
        ((circle : List LinkValue) → IsCircle verified.now.code (machine_view machine.now) circle → ⊥)) }
{
    let mut left = numbers(alloc, machine.processes())?;
    while let Some(i) = first_free(verified, machine, &left) {
        left.remove(i);
    }
    if left.is_empty() {
        return Ok(None);
    }
    Ok(Some(follow(alloc, verified, machine, &left)?))
}

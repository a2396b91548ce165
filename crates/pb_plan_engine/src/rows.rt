//! The parts of a plan.

ghost use Rattle.std.specs.Prelude.{◌≡◌, ◌<◌, ◌≤◌, ◌++◌, ◌∷◌, ℕ, [], All, IfOk, OnOk, IfSome, length, map, option_map, slice_index_or};
ghost use Rattle.pb_base.specs.Banker.{row_of};
ghost use Rattle.pb_base.specs.Tables.{width_of};
ghost use Rattle.pb_joint.specs.View.{full_name};
ghost use Rattle.pb_names.specs.View.{block_view};
ghost use Rattle.pb_plan.specs.Circles.{IsBelow};
ghost use Rattle.pb_plan.specs.Parts.{parts};
ghost use Rattle.pb_plan_engine.specs.Plans.{bottleneck_said, nest_said, unnamed, order_said, resource_name, said_of_circle};
ghost use Rattle.pb_plan_engine.specs.Plans.{said_of_row, said_of_resources};
ghost use Rattle.pb_plan_engine.specs.Sayings as saying;
ghost use Rattle.pb_plan_engine.specs.View.{said_view};
ghost use Rattle.pb_plan_engine.specs.declared.said.Said.TheVariants as given;

use crate::said::{Claim, Need, Nested, Said};
use pb_base::{Capital, Claims, NoMemory};
use pb_joint::FullName;
use pb_names::{Process, Resource};
use pb_plan::{Edge, claim_parts, free_capital, least_capital};
use std::alloc::{Allocator, Global};

/// Adds one thing after others.
pub(crate) fn add(said: &mut Vec<Said>, one: Said) -> Result<(), NoMemory>
    ensures { OnOk result (map said_view said.new.items ≡ map said_view said.old.items ++ said_view one ∷ []) }
{
    said.push(one)?;
    Ok(())
}

/// Returns the name of a resource.
fn name_of<A: Allocator>(resources: &[Resource<A>], r: usize) -> &[u8]
    requires { r < length resources.now }
    ensures { result.now ≡ resource_name (map (λ r. r.name.items) resources.now) r }
{
    &resources[r].name
}

/// Returns a copy of the name of a resource.
fn copy_of<A: Allocator>(
    alloc: Global,
    resources: &[Resource<A>],
    r: usize,
) -> Result<Vec<u8>, NoMemory>
    requires { r < length resources.now }
    ensures { IfOk result (λ copy. copy.items ≡ resource_name (map (λ r. r.name.items) resources.now) r) }
{
    Ok(Vec::from_slice(alloc, name_of(resources, r))?)
}

/// Returns a copy of what a process is called.
fn copy_name(alloc: Global, called: &FullName) -> Result<FullName, NoMemory>
    ensures { IfOk result (λ copy. full_name copy ≡ full_name called.now) }
{
    Ok(FullName {
        name: Vec::from_slice(alloc, &called.name)?,
        text: called.text,
    })
}

/// Returns what is said of the claim of a process, which is called so, on a resource.
fn claim_of<A: Allocator, B: Allocator>(
    alloc: Global,
    called: &FullName,
    process: &Process<A>,
    amount: u64,
    resources: &[Resource<B>],
    r: usize,
) -> Result<Said, NoMemory>
    requires { r < length resources.now }
    ensures { IfOk result (λ said. said_view said ≡ saying.Claim (full_name called.now) amount
        (resource_name (map (λ r. r.name.items) resources.now) r) (parts r (block_view process.now.body.items))) }
{
    let process_called = copy_name(alloc, called)?;
    let resource = copy_of(alloc, resources, r)?;
    let parts = claim_parts(alloc, process, r)?;
    Ok(Said::Claim(Claim {
        process: process_called,
        amount,
        resource,
        parts,
    }))
}

/// Adds the claims of process p, which is called so.
pub(crate) fn add_process<A: Allocator>(
    alloc: Global,
    said: &mut Vec<Said>,
    called: &FullName,
    process: &Process<A>,
    claims: &Claims,
    p: usize,
    resources: &[Resource<A>],
) -> Result<(), NoMemory>
    requires process { p < length claims.now }
    requires width { (q : ℕ) → q < length claims.now → length (row_of claims.now q) ≡ length resources.now }
    ensures { OnOk result (map said_view said.new.items ≡ map said_view said.old.items
        ++ said_of_row (map (λ r. r.name.items) resources.now) (full_name called.now)
        (block_view process.now.body.items) (row_of claims.now p)) }
{
    for r in 0..resources.len() {
        let amount = claims.get(p, r);
        let claim = claim_of(alloc, called, process, amount, resources, r)?;
        add(said, claim)?;
    }
    Ok(())
}

/// Adds what there is of each resource, and what is needed.
pub(crate) fn add_resources<A: Allocator>(
    alloc: Global,
    said: &mut Vec<Said>,
    resources: &[Resource<A>],
    capital: &Capital,
    claims: &Claims,
) -> Result<(), NoMemory>
    requires capital { length capital.now ≡ length resources.now }
    requires width { width_of claims.now ≡ length resources.now }
    ensures { OnOk result (map said_view said.new.items ≡ map said_view said.old.items
        ++ said_of_resources (map (λ r. r.name.items) resources.now) capital.now claims.now) }
{
    for r in 0..resources.len() {
        let least = least_capital(claims, r);
        let free = free_capital(claims, r);
        let name = copy_of(alloc, resources, r)?;
        let there = capital.get(r);
        add(
            said,
            Said::Resource(Need {
                name,
                capital: there,
                least,
                free,
            }),
        )?;
    }
    Ok(())
}

/// Returns what is said of the bottleneck.
pub(crate) fn bottleneck_of<A: Allocator>(
    alloc: Global,
    resources: &[Resource<A>],
    found: Option<usize>,
) -> Result<Said, NoMemory>
    requires { IfSome found (λ r. r < length resources.now) }
    ensures { IfOk result (λ said. said_view said ≡ bottleneck_said (map (λ r. r.name.items) resources.now) found) }
{
    match found {
        Some(r) => Ok(Said::Bottleneck(copy_of(alloc, resources, r)?)),
        None => Ok(Said::NoRequestWaits),
    }
}

/// Returns the names of the resources of an order.
fn names_in<A: Allocator>(
    alloc: Global,
    resources: &[Resource<A>],
    order: &[usize],
) -> Result<Vec<Vec<u8>>, NoMemory>
    requires { All (λ r. r < length resources.now) order.now }
    ensures { IfOk result (λ names. map (λ name. name.items) names.items
        ≡ map (resource_name (map (λ r. r.name.items) resources.now)) order.now) }
{
    let mut names = Vec::new(alloc);
    for r in order {
        names.push(copy_of(alloc, resources, *r)?)?;
    }
    Ok(names)
}

/// Returns what is said of an order of the resources, or that there is none.
pub(crate) fn order_said<A: Allocator>(
    alloc: Global,
    resources: &[Resource<A>],
    found: &Option<Vec<usize>>,
) -> Result<Said, NoMemory>
    requires { IfSome found.now (λ order. All (λ r. r < length resources.now) order.items) }
    ensures { IfOk result (λ said. said_view said
        ≡ order_said (map (λ r. r.name.items) resources.now) (option_map (λ order. order.items) found.now)) }
{
    match found {
        Some(order) => Ok(Said::Order(names_in(alloc, resources, order)?)),
        None => Ok(Said::NoOrder),
    }
}

/// Returns what a process is called.
pub(crate) fn process_name(processes: &[FullName], p: usize) -> &FullName
    requires { p < length processes.now }
    ensures { full_name result.now ≡ slice_index_or (map full_name processes.now) p unnamed }
{
    &processes[p]
}

/// Returns what is said of a hold inside another one.
fn nest_of<A: Allocator>(
    alloc: Global,
    processes: &[FullName],
    resources: &[Resource<A>],
    edge: &Edge,
) -> Result<Said, NoMemory>
    requires { IsBelow (length processes.now) (length resources.now) edge.now }
    ensures { IfOk result (λ said. said_view said
        ≡ nest_said (map full_name processes.now) (map (λ r. r.name.items) resources.now) edge.now) }
{
    let process = copy_name(alloc, process_name(processes, edge.process))?;
    let outer = copy_of(alloc, resources, edge.nest.outer)?;
    let inner = copy_of(alloc, resources, edge.nest.inner)?;
    Ok(Said::Nest(Nested {
        process,
        outer,
        outer_line: edge.nest.outer_line,
        inner,
        inner_line: edge.nest.inner_line,
    }))
}

/// Adds a circle of nested holds.
pub(crate) fn add_circle<A: Allocator>(
    alloc: Global,
    said: &mut Vec<Said>,
    processes: &[FullName],
    resources: &[Resource<A>],
    circle: &[Edge],
) -> Result<(), NoMemory>
    requires { All (IsBelow (length processes.now) (length resources.now)) circle.now }
    ensures { OnOk result (map said_view said.new.items ≡ map said_view said.old.items
        ++ said_of_circle (map full_name processes.now) (map (λ r. r.name.items) resources.now) circle.now) }
{
    for edge in circle {
        let nest = nest_of(alloc, processes, resources, edge)?;
        add(said, nest)?;
    }
    Ok(())
}

//! The trees of texts joined to one.

ghost use Rattle.std.specs.Prelude.{◌≡◌, ◌↔◌, ◌⊎◌, ◌≤◌, ◌++◌, [], ◌∷◌, IsTrue, List, OnOk, length, map, take};
ghost use Rattle.pb_joint.specs.Joined.{AddsResources, IsDeclared, IsSame, Joins};
ghost use Rattle.pb_tree.specs.Syntax.{ResourceSyntax};
ghost use Rattle.pb_tree.specs.View.{process_view, program_view, resource_view};

use pb_base::NoMemory;
use pb_tree::{Process, Program, Resource};
use std::alloc::Allocator;

/// Adds a tree after others that are joined: all its processes, and those of its resources that are not declared
/// there with the same capital. The error comes only if out of memory.
pub(crate) fn join<A: Allocator>(whole: &mut Program<A>, tree: Program<A>) -> Result<(), NoMemory>
    ensures { OnOk result (Joins (program_view whole.old) (program_view tree) (program_view whole.new)) }
{
    let Program {
        resources,
        processes,
    } = tree;
    add_resources(&mut whole.resources, resources)?;
    add_processes(&mut whole.processes, processes)
}

/// Returns whether two resources have the same name and the same capital.
fn is_same<A: Allocator>(resource: &Resource<A>, other: &Resource<A>) -> bool
    ensures { IsTrue result ↔ IsSame (resource_view resource.now) (resource_view other.now) }
{
    resource.capital.value == other.capital.value && resource.name.text == other.name.text
}

/// Returns whether a resource is declared there too, with the same capital.
fn is_declared<A: Allocator>(resource: &Resource<A>, there: &[Resource<A>]) -> bool
    ensures { IsTrue result ↔ IsDeclared (resource_view resource.now) (map resource_view there.now) }
{
    for other in there {
        if is_same(resource, other) {
            return true;
        }
    }
    false
}

/// Adds a resource after others, unless it is declared among the first `count`.
fn add_resource<A: Allocator>(
    all: &mut Vec<Resource<A>, A>,
    count: usize,
    resource: Resource<A>,
) -> Result<(), NoMemory>
    requires { count ≤ length all.old.items }
    ensures { OnOk result
        ((IsDeclared (resource_view resource) (map resource_view (take count all.old.items)) × (all.new.items ≡ all.old.items))
        ⊎ ((¬ IsDeclared (resource_view resource) (map resource_view (take count all.old.items)))
        × (all.new.items ≡ all.old.items ++ resource ∷ []))) }
{
    if !is_declared(&resource, &all[..count]) {
        all.push(resource)?;
    }
    Ok(())
}

/// Adds the resources of a tree after those of others: those that are not declared there.
fn add_resources<A: Allocator>(
    all: &mut Vec<Resource<A>, A>,
    resources: Vec<Resource<A>, A>,
) -> Result<(), NoMemory>
    ensures { OnOk result ((added : List ResourceSyntax)
        × AddsResources (map resource_view all.old.items) (map resource_view resources.items) added
        × (map resource_view all.new.items ≡ map resource_view all.old.items ++ added)) }
{
    let count = all.len();
    for resource in resources {
        add_resource(all, count, resource)?;
    }
    Ok(())
}

/// Adds the processes of a tree after those of others.
fn add_processes<A: Allocator>(
    all: &mut Vec<Process<A>, A>,
    processes: Vec<Process<A>, A>,
) -> Result<(), NoMemory>
    ensures { OnOk result (map process_view all.new.items
        ≡ map process_view all.old.items ++ map process_view processes.items) }
{
    for process in processes {
        all.push(process)?;
    }
    Ok(())
}

//! Copies of the names of a program.

ghost use Rattle.std.specs.Prelude.{◌≡◌, [], ◌∷◌, ◌++◌, IfOk, OnOk, map};
ghost use Rattle.pb_base.specs.Lines.{names_view};
ghost use Rattle.pb_generator.specs.Generate.{names_of};
ghost use Rattle.pb_names.specs.View.{resolved_view};

use pb_base::{Names, NoMemory};
use pb_names::{Process, Resolved, Resource};
use std::alloc::{Allocator, Global};

/// Adds a copy of a name.
fn add_name(alloc: Global, name: &[u8], copy: &mut Vec<Vec<u8>>) -> Result<(), NoMemory>
    ensures { OnOk result (map (λ name. name.items) copy.new.items
        ≡ map (λ name. name.items) copy.old.items ++ name.now ∷ []) }
{
    copy.push(Vec::from_slice(alloc, name)?)?;
    Ok(())
}

/// Returns a copy of each name.
pub(crate) fn copy_names<A: Allocator>(
    alloc: Global,
    names: &Vec<Vec<u8, A>, A>,
) -> Result<Vec<Vec<u8>>, NoMemory>
    ensures { IfOk result (λ copy. map (λ name. name.items) copy.items ≡ map (λ name. name.items) names.now.items) }
{
    let mut copy = Vec::new(alloc);
    for name in names {
        add_name(alloc, name, &mut copy)?;
    }
    Ok(copy)
}

fn process_names<A: Allocator>(
    alloc: Global,
    processes: &Vec<Process<A>, A>,
) -> Result<Vec<Vec<u8>>, NoMemory>
    ensures { IfOk result (λ copy. map (λ name. name.items) copy.items
        ≡ map (λ process. process.name.items) processes.now.items) }
{
    let mut copy = Vec::new(alloc);
    for process in processes {
        add_name(alloc, &process.name, &mut copy)?;
    }
    Ok(copy)
}

fn resource_names<A: Allocator>(
    alloc: Global,
    resources: &Vec<Resource<A>, A>,
) -> Result<Vec<Vec<u8>>, NoMemory>
    ensures { IfOk result (λ copy. map (λ name. name.items) copy.items
        ≡ map (λ resource. resource.name.items) resources.now.items) }
{
    let mut copy = Vec::new(alloc);
    for resource in resources {
        add_name(alloc, &resource.name, &mut copy)?;
    }
    Ok(copy)
}

/// Returns the names of the processes and of the resources.
pub(crate) fn program_names<A: Allocator>(
    alloc: Global,
    program: &Resolved<A>,
) -> Result<Names, NoMemory>
    ensures { IfOk result (λ names. names_view names ≡ names_of (resolved_view program.now)) }
{
    let processes = process_names(alloc, &program.processes)?;
    let resources = resource_names(alloc, &program.resources)?;
    Ok(Names {
        processes,
        resources,
    })
}

//! Capitals that stand in place of those of a program.

ghost use Rattle.std.specs.Prelude.{◌≡◌, option_map};
ghost use Rattle.std.specs.List.{list_any};
ghost use Rattle.std.specs.Str.{bytes_eq};
ghost use Rattle.pb_capitals.specs.Changes.{changes_in};
ghost use Rattle.pb_names.specs.View.{resolved_view};
ghost use Rattle.pb_plan_engine.specs.Changed.{is_declared, undeclared, with_changes};

use pb_capitals::{Change, Changes};
use pb_names::{Resolved, Resource};
use std::alloc::Allocator;

/// Returns whether one of these resources has this name.
fn is_among<A: Allocator>(resources: &[Resource<A>], name: &str) -> bool
    ensures { result ≡ list_any (λ resource. bytes_eq resource.name.items name.now) resources.now }
{
    resources
        .iter()
        .any(|resource| resource.name.as_slice() == name.as_bytes())
}

/// Returns whether a resource of a program has this name.
fn is_declared<A: Allocator>(program: &Resolved<A>, name: &str) -> bool
    ensures { result ≡ is_declared (resolved_view program.now) name.now }
{
    is_among(&program.resources, name)
}

/// Returns the first change that names no resource of a program.
pub fn undeclared<'c, A: Allocator>(
    program: &Resolved<A>,
    changes: &'c [Change],
) -> Option<&'c Change>
    ensures { option_map (λ change. change.now) result ≡ undeclared changes.now (resolved_view program.now) }
{
    changes
        .iter()
        .find(|change| !is_declared(program, change.resource.as_str()))
}

/// Gives the resources of a program the capitals that changes name.
pub(crate) fn change_capitals<A: Allocator>(program: &mut Resolved<A>, changes: &Changes)
    ensures program { resolved_view program.new ≡ with_changes (changes_in changes.now) (resolved_view program.old) }
    ensures processes { program.new.processes ≡ program.old.processes }
{
    for resource in program.resources.iter_mut() {
        resource.capital = changes.capital_under(&resource.name, resource.capital);
    }
}

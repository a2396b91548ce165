//! Which names may stand at an offset.

ghost use Rattle.std.specs.Prelude.{◌≡◌, ◌++◌, ◌∷◌, [], IfOk, OnOk, filter, map};
ghost use Rattle.pb_outline.specs.Places as spec;
ghost use Rattle.pb_outline.specs.Scopes as scope;

use crate::outline::Outline;
use crate::place::{Kind, Place};
use pb_base::NoMemory;
use std::alloc::Global;

/// Returns whether a place declares a process, at the offset or before it.
fn begins_process(offset: usize, place: &Place<'_>) -> bool
    ensures { result ≡ scope.begins_process offset (spec.place place.now) }
{
    match place.kind {
        Kind::Process => place.at <= offset,
        Kind::Resource | Kind::Integer(_) => false,
    }
}

/// Returns whether names of a kind may stand in a process.
fn may_stand(process: Option<usize>, kind: Kind) -> bool
    ensures { result ≡ scope.may_stand process kind }
{
    match (process, kind) {
        (Some(_), Kind::Resource) => true,
        (Some(p), Kind::Integer(q)) => p == q,
        _ => false,
    }
}

/// Appends a place, if it declares a name that may stand in a process.
fn keep_in_scope<'t>(
    out: &mut Vec<Place<'t>>,
    process: Option<usize>,
    place: &Place<'t>,
) -> Result<(), NoMemory>
    ensures { OnOk result (map spec.place out.new.items
        ≡ map spec.place out.old.items ++ filter (scope.is_in_scope process) (spec.place place.now ∷ [])) }
{
    if place.declares && may_stand(process, place.kind) {
        out.push(*place)?;
    }
    Ok(())
}

impl<'t> Outline<'t> {
    /// Returns the number of the process in which an offset is: of the last one whose name begins at it or before it.
    pub fn process_at(&self, offset: usize) -> Option<usize>
        ensures { result ≡ scope.process_at offset (spec.places self.now) }
    {
        let mut count = 0usize;
        for place in &self.places {
            count += usize::from(begins_process(offset, place));
        }
        count.checked_sub(1)
    }

    /// Returns the declarations of the names that may stand at an offset: of the resources, and of the integers of its
    /// process; none before the first process. The error comes only if `alloc` is out of memory.
    pub fn names_at(&self, alloc: Global, offset: usize) -> Result<Vec<Place<'t>>, NoMemory>
        ensures { IfOk result (λ found. map spec.place found.items
            ≡ filter (scope.is_in_scope (scope.process_at offset (spec.places self.now))) (spec.places self.now)) }
    {
        let process = self.process_at(offset);
        let mut found = Vec::new(alloc);
        for place in &self.places {
            keep_in_scope(&mut found, process, place)?;
        }
        Ok(found)
    }
}

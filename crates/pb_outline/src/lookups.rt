//! The name at an offset, and where else it stands.

ghost use Rattle.std.specs.Prelude.{◌≡◌, ◌++◌, ◌∷◌, [], IfOk, OnOk, filter, map, option_map};
ghost use Rattle.std.specs.List.{find};
ghost use Rattle.pb_outline.specs.Places as spec;

use crate::outline::Outline;
use crate::place::{Place, declares_name, is_at, is_same_name};
use pb_base::NoMemory;
use std::alloc::Global;

/// Appends the other place, if it is one of the same name.
fn keep_same<'t>(
    out: &mut Vec<Place<'t>>,
    one: &Place<'_>,
    other: &Place<'t>,
) -> Result<(), NoMemory>
    ensures { OnOk result (map spec.place out.new.items
        ≡ map spec.place out.old.items ++ filter (spec.is_same_name (spec.place one.now)) (spec.place other.now ∷ [])) }
{
    if is_same_name(one, other) {
        out.push(*other)?;
    }
    Ok(())
}

impl<'t> Outline<'t> {
    /// Returns the name in which an offset is, or right after which it is.
    pub fn place_at(&self, offset: usize) -> Option<Place<'t>>
        ensures { option_map spec.place result ≡ find (spec.is_at offset) (spec.places self.now) }
    {
        for place in &self.places {
            if is_at(offset, place) {
                return Some(*place);
            }
        }
        None
    }

    /// Returns the first place that declares the name of this one.
    pub fn declaration_of(&self, one: &Place<'_>) -> Option<Place<'t>>
        ensures { option_map spec.place result
            ≡ find (spec.declares_name (spec.place one.now)) (spec.places self.now) }
    {
        for place in &self.places {
            if declares_name(one, place) {
                return Some(*place);
            }
        }
        None
    }

    /// Returns all places of the name of this one, in the order of the text. The error comes only if `alloc` is out of
    /// memory.
    #[tactic(auto, using(crate::proofs::Walks::kept_rest))]
    pub fn places_of(&self, alloc: Global, one: &Place<'_>) -> Result<Vec<Place<'t>>, NoMemory>
        ensures { IfOk result (λ found. map spec.place found.items
            ≡ filter (spec.is_same_name (spec.place one.now)) (spec.places self.now)) }
    {
        let mut found = Vec::new(alloc);
        for place in &self.places {
            keep_same(&mut found, one, place)?;
        }
        Ok(found)
    }
}

//! New names for names.

ghost use Rattle.std.specs.Prelude.{◌≡◌, IfErr, IfOk, OnOk, filter, map, true, false};
ghost use Rattle.pb_code.specs.Limits.{IsName};
ghost use Rattle.pb_outline.specs.Places as spec;
ghost use Rattle.pb_outline.specs.Scopes as scope;
ghost use Rattle.pb_outline.specs.declared.rename.RenameFault.TheVariants.{NoMemory as no_memory};

use crate::outline::Outline;
use crate::place::{Place, same_kind};
use pb_base::NoMemory;
use pb_code::is_name;
use std::alloc::Global;

/// Why a name cannot get a new one.
#[derive(Clone, Copy, Debug, PartialEq, Eq, thiserror::Error)]
pub enum RenameFault {
    /// The new name is not a name of the language, or it is a reserved word.
    #[error("not a name: a letter, then letters, digits or _, at most 32, and no reserved word")]
    NotAName,
    /// Something else of the same kind has the new name.
    #[error("that name is taken")]
    Taken,
    /// The allocator is out of memory.
    #[error("out of memory")]
    NoMemory,
}

impl From<NoMemory> for RenameFault {
    ghost from_gives = { λ _ e. e ≡ no_memory };

    fn from(_e: NoMemory) -> RenameFault {
        RenameFault::NoMemory
    }
}

/// Returns whether the other place has this name and another one than this place, of the same kind.
fn takes(one: &Place<'_>, name: &[u8], other: &Place<'_>) -> bool
    ensures { result ≡ scope.takes (spec.place one.now) name.now (spec.place other.now) }
{
    same_kind(one.kind, other.kind) && (name == other.text && one.text != other.text)
}

impl<'t> Outline<'t> {
    /// Returns whether something else of the kind of this place has the name.
    fn is_taken(&self, one: &Place<'_>, name: &[u8]) -> bool
        ensures { result ≡ scope.is_taken (spec.place one.now) name.now (spec.places self.now) }
    {
        for place in &self.places {
            if takes(one, name, place) {
                return true;
            }
        }
        false
    }

    /// Returns the places at which to write another name, so that the name of this place becomes that one: all places
    /// of the name. It is refused if the other name is not a name of the language, or if something else of the same kind
    /// has it, of the same process for an integer. `NoMemory` comes only if `alloc` is out of memory.
    pub fn rename(
        &self,
        alloc: Global,
        one: &Place<'_>,
        name: &[u8],
    ) -> Result<Vec<Place<'t>>, RenameFault>
        ensures places { IfOk result (λ found. map spec.place found.items
            ≡ filter (spec.is_same_name (spec.place one.now)) (spec.places self.now)) }
        ensures name { OnOk result (IsName name.now) }
        ensures free { OnOk result (scope.is_taken (spec.place one.now) name.now (spec.places self.now) ≡ false) }
        ensures refused { IfErr result (scope.Refuses (spec.place one.now) name.now (spec.places self.now)) }
    {
        if !is_name(name) {
            return Err(RenameFault::NotAName);
        }
        if self.is_taken(one, name) {
            return Err(RenameFault::Taken);
        }
        Ok(self.places_of(alloc, one)?)
    }
}

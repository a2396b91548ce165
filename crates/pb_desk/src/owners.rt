//! Whose job each is.

ghost use Rattle.std.specs.Prelude.{◌≡◌, ◌<◌, length, map, slice_index_or, IfOk, IfSome};
ghost use Rattle.pb_base.specs.Lines.{name_of};
ghost use Rattle.pb_bank.specs.Desks as desk;
ghost use Rattle.pb_desk.specs.Services as spec;

use pb_base::NoMemory;
use std::alloc::Global;

/// Returns the session whose job has a slot, 0 if no job has it.
pub(crate) fn owner_at(owners: &[u64], p: usize) -> u64
    ensures { result ≡ slice_index_or owners.now p 0 }
{
    if p < owners.len() { owners[p] } else { 0 }
}

/// Returns whose job a slot is after a command of a session.
fn owner_after(name: &[u8], owner: u64, id: u64) -> u64
    ensures { result ≡ spec.owner_after name.now owner id }
{
    if name.is_empty() {
        return 0;
    }
    if owner == 0 { id } else { owner }
}

/// Returns whose jobs the slots are after a command of a session.
pub(crate) fn owners_after(
    alloc: Global,
    names: &[Vec<u8>],
    owners: &[u64],
    id: u64,
) -> Result<Vec<u64>, NoMemory>
    ensures { IfOk result (λ all. all.items
        ≡ spec.owners_below (map (λ name. name.items) names.now) owners.now id (length names.now)) }
{
    let mut all = Vec::new(alloc);
    for p in 0..names.len() {
        all.push(owner_after(names[p].as_slice(), owner_at(owners, p), id))?;
    }
    Ok(all)
}

/// Returns the slot of the job of this name.
pub(crate) fn slot_of(names: &[Vec<u8>], word: &[u8]) -> Option<usize>
    ensures { result ≡ desk.place_of (map (λ name. name.items) names.now) word.now }
{
    for p in 0..names.len() {
        if names[p].as_slice() == word {
            return Some(p);
        }
    }
    None
}

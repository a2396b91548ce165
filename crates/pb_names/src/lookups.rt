//! The number of each name that is declared.

ghost use Rattle.std.specs.Prelude.{◌≡◌, ◌<◌, ◌≤◌, get_or, length, map, IfOk};
ghost use Rattle.pb_tree.specs.View.{name_view, process_view, resource_view};
ghost use Rattle.pb_names.specs.Index.{IsFirstNumber, slot};
ghost use Rattle.pb_names.specs.Resolves.{texts};
ghost use Rattle.pb_names.specs.Search.{names_in};

use crate::declared::Declared;
use pb_base::NoMemory;
use pb_tree::{Name, Process, Resource};
use std::alloc::Allocator;

impl<'t, A: Allocator + Clone> Declared<'t, A> {
    /// Returns the names of the integers of a process.
    pub fn integers<B: Allocator>(
        alloc: &A,
        integers: &'t Vec<Name<B>, B>,
    ) -> Result<Declared<'t, A>, NoMemory>
        ensures { IfOk result (λ names. names_in names ≡ texts (map name_view integers.now.items)) }
    {
        let mut texts = Vec::with_capacity(alloc.clone()?, integers.len())?;
        for name in integers {
            texts.push(name.text.as_slice())?;
        }
        index(alloc, texts)
    }

    /// Returns the names of resources.
    pub fn resources<B: Allocator>(
        alloc: &A,
        resources: &'t Vec<Resource<B>, B>,
    ) -> Result<Declared<'t, A>, NoMemory>
        ensures { IfOk result (λ names.
            names_in names ≡ texts (map (λ r. r.name) (map resource_view resources.now.items))) }
    {
        let mut texts = Vec::with_capacity(alloc.clone()?, resources.len())?;
        for resource in resources {
            texts.push(resource.name.text.as_slice())?;
        }
        index(alloc, texts)
    }

    /// Returns the names of processes.
    pub fn processes<B: Allocator>(
        alloc: &A,
        processes: &'t Vec<Process<B>, B>,
    ) -> Result<Declared<'t, A>, NoMemory>
        ensures { IfOk result (λ names.
            names_in names ≡ texts (map (λ p. p.name) (map process_view processes.now.items))) }
    {
        let mut texts = Vec::with_capacity(alloc.clone()?, processes.len())?;
        for process in processes {
            texts.push(process.name.text.as_slice())?;
        }
        index(alloc, texts)
    }
}

impl<'t, A: Allocator> Declared<'t, A> {
    /// Returns the least number of a name.
    pub fn number_of(&self, name: &[u8]) -> Option<usize>
        ensures { IsFirstNumber (names_in self.now) name.now result }
    {
        let greatest = self.first_of.len() - 1;
        let mut i = self.first_of[slot_of(name, greatest)];
        while i < self.texts.len() {
            if self.texts[i] == name {
                return Some(i);
            }
            i = self.next_of[i];
        }
        None
    }
}

/// Returns the byte of a name with this number.
fn byte_at(name: &[u8], i: usize) -> usize
    requires { i < length name.now }
    ensures value { result ≡ get_or name.now i 0 }
    ensures small { result < 256 }
{
    usize::from(name[i])
}

/// Returns the slot of a name, from 0 to the greatest one.
fn slot_of(name: &[u8], greatest: usize) -> usize
    ensures value { result ≡ slot greatest name.now }
    ensures few { result ≤ greatest }
{
    let len = name.len();
    if len == 0 {
        return 0;
    }
    if len == 1 {
        return (1 + 19 * byte_at(name, 0)) & greatest;
    }
    (len + 7 * byte_at(name, 0) + 11 * byte_at(name, len - 2) + byte_at(name, len - 1)) & greatest
}

/// Returns the greatest slot in an index of `count` names. The names of one slot are looked through one after
/// the other.
fn greatest_slot(count: usize) -> usize
    ensures { result < 64 }
{
    if count > 8 { 63 } else { 7 }
}

/// Returns an index of names.
fn index<'t, A: Allocator + Clone>(
    alloc: &A,
    texts: Vec<&'t [u8], A>,
) -> Result<Declared<'t, A>, NoMemory>
    ensures { IfOk result (λ names. names_in names ≡ map (λ text. text.now) texts.entry.items) }
{
    let count = texts.len();
    let greatest = greatest_slot(count);
    let mut first_of = vec![in alloc.clone()?; count; greatest + 1]?;
    let mut next_of = vec![in alloc.clone()?; count; count]?;
    for i in (0..count).rev() {
        let slot = slot_of(texts[i], greatest);
        next_of[i] = first_of[slot];
        first_of[slot] = i;
    }
    Ok(Declared {
        texts,
        first_of,
        next_of,
    })
}

//! Resources, processes and programs.

ghost use Rattle.std.specs.Prelude.{◌≡◌, ◌↔◌, IfOk, IsTrue, map};
ghost use Rattle.pb_tree.specs.Measure.{saturated, processes_nodes, processes_height, program_nodes};
ghost use Rattle.pb_tree.specs.Measure.{program_height};
ghost use Rattle.pb_tree.specs.View.{name_view, resource_view, process_view, program_view};

use crate::expr::{Name, Number};
use crate::stmt::Stmt;
use pb_base::NoMemory;
use std::alloc::Allocator;

/// A resource and how much of it there is.
#[derive(Drop)]
pub struct Resource<A: Allocator> {
    /// Its name, where it is declared.
    pub name: Name<A>,
    /// How much of it there is.
    pub capital: Number,
}

/// A process.
#[derive(Drop)]
pub struct Process<A: Allocator> {
    /// Its name, where it is declared.
    pub name: Name<A>,
    /// The names of its integers, in the order of their declaration.
    pub integers: Vec<Name<A>, A>,
    /// Its statements. A `skip` leaves none.
    pub body: Vec<Stmt<A>, A>,
}

/// A program, all of which is in memory of `A`.
#[derive(Drop)]
pub struct Program<A: Allocator> {
    /// The resources, in the order of their declaration.
    pub resources: Vec<Resource<A>, A>,
    /// The processes, in the order of their declaration.
    pub processes: Vec<Process<A>, A>,
}

impl<A: Allocator> Resource<A> {
    /// Returns the same resource in memory of `alloc`. The error comes only if `alloc` is out of memory.
    pub fn copy_into<B: Allocator + Clone>(&self, alloc: &B) -> Result<Resource<B>, NoMemory>
        ensures { IfOk result (λ copy. resource_view copy ≡ resource_view self.now) }
    {
        Ok(Resource {
            name: self.name.copy_into(alloc)?,
            capital: self.capital,
        })
    }

    /// Returns whether the other resource is the same, offsets included.
    pub fn same<B: Allocator>(&self, other: &Resource<B>) -> bool
        ensures { IsTrue result ↔ (resource_view self.now ≡ resource_view other.now) }
    {
        self.capital == other.capital && self.name.same(&other.name)
    }
}

impl<A: Allocator> Process<A> {
    /// Returns the same process in memory of `alloc`. The error comes only if `alloc` is out of memory.
    pub fn copy_into<B: Allocator + Clone>(&self, alloc: &B) -> Result<Process<B>, NoMemory>
        ensures { IfOk result (λ copy. process_view copy ≡ process_view self.now) }
    {
        let name = self.name.copy_into(alloc)?;
        let integers = copy_names(&self.integers, alloc)?;
        let body = Stmt::copy_list(&self.body, alloc)?;
        Ok(Process {
            name,
            integers,
            body,
        })
    }

    /// Returns whether the other process is the same, offsets and lines included, in whatever memory it is.
    pub fn same<B: Allocator>(&self, other: &Process<B>) -> bool
        ensures { IsTrue result ↔ (process_view self.now ≡ process_view other.now) }
    {
        self.name.same(&other.name)
            && same_names(&self.integers, &other.integers)
            && Stmt::same_list(&self.body, &other.body)
    }
}

impl<A: Allocator> Program<A> {
    /// Returns the same program in memory of `alloc`. The error comes only if `alloc` is out of memory.
    pub fn copy_into<B: Allocator + Clone>(&self, alloc: B) -> Result<Program<B>, NoMemory>
        ensures { IfOk result (λ copy. program_view copy ≡ program_view self.now) }
    {
        let resources = copy_resources(&self.resources, &alloc)?;
        let processes = copy_processes(&self.processes, &alloc)?;
        Ok(Program {
            resources,
            processes,
        })
    }

    /// Returns whether the other program is the same, offsets and lines included, in whatever memory it is.
    pub fn same<B: Allocator>(&self, other: &Program<B>) -> bool
        ensures { IsTrue result ↔ (program_view self.now ≡ program_view other.now) }
    {
        same_resources(&self.resources, &other.resources)
            && same_processes(&self.processes, &other.processes)
    }

    /// Returns the number of its nodes, or the greatest `u64` if there are more. Nodes are expressions,
    /// statements and processes.
    pub fn nodes(&self) -> u64
        ensures { result ≡ saturated (program_nodes (program_view self.now)) }
    {
        let mut total = 0u64;
        for process in &self.processes {
            total = total.saturating_add(Stmt::list_nodes(&process.body).saturating_add(1));
        }
        total
    }

    /// Returns its height, that of its highest statement, and 0 if it has none. It stays at the greatest
    /// `u64`.
    pub fn height(&self) -> u64
        ensures { result ≡ saturated (program_height (program_view self.now)) }
    {
        let mut highest = 0u64;
        for process in &self.processes {
            highest = highest.max(Stmt::list_height(&process.body));
        }
        highest
    }
}

fn copy_names<A: Allocator, B: Allocator + Clone>(
    items: &Vec<Name<A>, A>,
    alloc: &B,
) -> Result<Vec<Name<B>, B>, NoMemory>
    ensures { IfOk result (λ copy. map name_view copy.items ≡ map name_view items.now.items) }
{
    let mut copy = Vec::new(alloc.clone()?);
    for item in items {
        copy.push(item.copy_into(alloc)?)?;
    }
    Ok(copy)
}

fn same_names<A: Allocator, B: Allocator>(items: &Vec<Name<A>, A>, others: &Vec<Name<B>, B>) -> bool
    ensures { IsTrue result ↔ (map name_view items.now.items ≡ map name_view others.now.items) }
{
    if items.len() != others.len() {
        return false;
    }
    for (i, item) in items.iter().enumerate() {
        if !item.same(&others[i]) {
            return false;
        }
    }
    true
}

fn copy_resources<A: Allocator, B: Allocator + Clone>(
    items: &Vec<Resource<A>, A>,
    alloc: &B,
) -> Result<Vec<Resource<B>, B>, NoMemory>
    ensures { IfOk result (λ copy. map resource_view copy.items ≡ map resource_view items.now.items) }
{
    let mut copy = Vec::new(alloc.clone()?);
    for item in items {
        copy.push(item.copy_into(alloc)?)?;
    }
    Ok(copy)
}

fn same_resources<A: Allocator, B: Allocator>(
    items: &Vec<Resource<A>, A>,
    others: &Vec<Resource<B>, B>,
) -> bool
    ensures { IsTrue result ↔ (map resource_view items.now.items ≡ map resource_view others.now.items) }
{
    if items.len() != others.len() {
        return false;
    }
    for (i, item) in items.iter().enumerate() {
        if !item.same(&others[i]) {
            return false;
        }
    }
    true
}

fn copy_processes<A: Allocator, B: Allocator + Clone>(
    items: &Vec<Process<A>, A>,
    alloc: &B,
) -> Result<Vec<Process<B>, B>, NoMemory>
    ensures { IfOk result (λ copy. map process_view copy.items ≡ map process_view items.now.items) }
{
    let mut copy = Vec::new(alloc.clone()?);
    for item in items {
        copy.push(item.copy_into(alloc)?)?;
    }
    Ok(copy)
}

fn same_processes<A: Allocator, B: Allocator>(
    items: &Vec<Process<A>, A>,
    others: &Vec<Process<B>, B>,
) -> bool
    ensures { IsTrue result ↔ (map process_view items.now.items ≡ map process_view others.now.items) }
{
    if items.len() != others.len() {
        return false;
    }
    for (i, item) in items.iter().enumerate() {
        if !item.same(&others[i]) {
            return false;
        }
    }
    true
}

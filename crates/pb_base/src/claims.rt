//! The claims of each process.

ghost use Rattle.std.specs.Prelude.{◌≡◌, ◌<◌, ◌≤◌, length, map, All, IfOk};
ghost use Rattle.pb_base.specs.Tables.{HasWidth, width_of};
ghost use Rattle.pb_base.specs.Banker.{cell};

use crate::limits::{MAX_PROCESSES, MAX_RESOURCES};
use crate::memory::NoMemory;
use std::alloc::Global;
use std::marker::Model;

/// For each process a row with its claim on each resource.
#[derive(Drop)]
pub struct Claims {
    rows: Vec<Vec<u64>>,
}

impl Model for Claims {
    ghost use Rattle.std.specs.Prelude.{ℕ, ◌<◌, ◌≤◌, List, length, map};

    ghost Value = { List (List ℕ) };

    ghost use Rattle.pb_base.specs.Tables.{HasWidth, width_of};
    ghost use Rattle.pb_base.specs.declared.limits.TheConstants.{MAX_PROCESSES, MAX_RESOURCES};

    ghost view = { λ c. map (λ row. row.items) c.rows.items };

    ghost invariant = { λ c. (0 < length c.rows.items)
        × (length c.rows.items ≤ MAX_PROCESSES)
        × (width_of (map (λ row. row.items) c.rows.items) ≤ MAX_RESOURCES)
        × HasWidth (width_of (map (λ row. row.items) c.rows.items)) (map (λ row. row.items) c.rows.items) };
}

impl Claims {
    /// Returns the claims with these rows.
    pub fn new(alloc: Global, rows: &[&[u64]]) -> Result<Self, NoMemory>
        requires some { 0 < length rows.now }
        requires few_processes { length rows.now ≤ MAX_PROCESSES }
        requires few_resources { width_of (map (λ row. row.now) rows.now) ≤ MAX_RESOURCES }
        requires one_length { HasWidth (width_of (map (λ row. row.now) rows.now))
            (map (λ row. row.now) rows.now) }
        ensures { IfOk result (λ c. c ≡ map (λ row. row.now) rows.now) }
    {
        let mut copies = Vec::new(alloc);
        for row in rows {
            copies.push(row.to_vec(alloc)?)?;
        }
        Ok(Claims { rows: copies })
    }

    /// Returns the same claims again. The error comes only if `alloc` is out of memory.
    pub fn copy(&self, alloc: Global) -> Result<Claims, NoMemory>
        ensures { IfOk result (λ c. c ≡ self.now) }
    {
        let mut rows = Vec::new(alloc);
        for row in &self.rows {
            rows.push(Vec::from_slice(alloc, row)?)?;
        }
        Ok(Claims { rows })
    }

    /// Returns the number of processes.
    pub fn processes(&self) -> usize
        ensures number { result ≡ length self.now }
        ensures some { 0 < result }
        ensures few { result ≤ MAX_PROCESSES }
        ensures one_length { HasWidth (width_of self.now) self.now }
    {
        self.rows.len()
    }

    /// Returns the number of resources.
    pub fn resources(&self) -> usize
        ensures number { result ≡ width_of self.now }
    {
        self.rows[0].len()
    }

    /// Returns what a process may hold of a resource at most.
    pub fn get(&self, p: usize, r: usize) -> u64
        requires process { p < length self.now }
        requires resource { r < width_of self.now }
        ensures { result ≡ cell self.now p r }
    {
        let row = &self.rows[p];
        row[r]
    }
}

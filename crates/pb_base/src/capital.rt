//! The type of a capital.

ghost use Rattle.std.specs.Prelude.{◌≡◌, ◌<◌, ◌≤◌, length, All, IfOk, slice_index};

use crate::limits::{MAX_AMOUNT, MAX_RESOURCES};
use crate::memory::NoMemory;
use std::alloc::Global;
use std::marker::Model;

/// The capital of each resource, by its number.
#[derive(Drop)]
pub struct Capital {
    amounts: Vec<u32>,
}

impl Model for Capital {
    ghost use Rattle.std.specs.Prelude.{ℕ, ◌≤◌, List, length, All};

    ghost Value = { List ℕ };

    ghost use Rattle.pb_base.specs.declared.limits.TheConstants.{MAX_AMOUNT, MAX_RESOURCES};

    ghost view = { λ c. c.amounts.items };

    ghost invariant = { λ c. (length c.amounts.items ≤ MAX_RESOURCES) × All (λ n. n ≤ MAX_AMOUNT) c.amounts.items };
}

impl Capital {
    /// Returns the capital with these amounts.
    pub fn new(alloc: Global, amounts: &[u32]) -> Result<Self, NoMemory>
        requires few { length amounts.now ≤ MAX_RESOURCES }
        requires small { All (λ n. n ≤ MAX_AMOUNT) amounts.now }
        ensures { IfOk result (λ c. c ≡ amounts.now) }
    {
        let amounts = amounts.to_vec(alloc)?;
        Ok(Capital { amounts })
    }

    /// Returns the number of resources.
    pub fn resources(&self) -> usize
        ensures number { result ≡ length self.now }
        ensures few { result ≤ MAX_RESOURCES }
        ensures small { All (λ n. n ≤ MAX_AMOUNT) self.now }
    {
        self.amounts.len()
    }

    /// Returns the capital of a resource.
    pub fn get(&self, r: usize) -> u32
        requires { r < length self.now }
        ensures { result ≡ slice_index self.now r }
    {
        self.amounts[r]
    }
}

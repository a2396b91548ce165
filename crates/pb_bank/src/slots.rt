//! Lists of slots.

ghost use Rattle.std.specs.Prelude.{◌≡◌, ◌<◌, ◌++◌, ◌∷◌, [], length};

use pb_base::limits::MAX_PROCESSES;
use std::marker::Model;

/// Up to 64 slots, in an order.
#[derive(Drop)]
pub struct Slots {
    slots: [u8; MAX_PROCESSES],
    len: usize,
}

impl Model for Slots {
    ghost use Rattle.std.specs.Prelude.{ℕ, List, take, ◌≤◌};

    ghost Value = { List ℕ };

    ghost view = { λ s. take s.len s.slots };

    ghost invariant = { λ s. s.len ≤ 64 };
}

impl Slots {
    /// Returns a list of no slots.
    pub fn new() -> Slots
        ensures { result ≡ [] }
    {
        Slots {
            slots: [0; MAX_PROCESSES],
            len: 0,
        }
    }

    /// Adds a slot after the others.
    pub fn push(&mut self, slot: u8)
        requires { length self.old < MAX_PROCESSES }
        ensures { self.new ≡ self.old ++ slot ∷ [] }
    {
        self.slots[self.len] = slot;
        self.len += 1;
    }

    /// Returns the slots.
    pub fn as_slice(&self) -> &[u8]
        ensures { result.now ≡ self.now }
    {
        let slots = &self.slots;
        &slots[..self.len]
    }
}

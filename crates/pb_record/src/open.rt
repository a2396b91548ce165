//! The gate of a run that nobody watches.

use pb_workers::Gate;

/// A gate at which no worker waits, and none gives a stretch back.
pub struct Open;

impl Gate for Open {
    fn is_open(&self) -> bool {
        true
    }

    fn between(&self, _worker: usize, _turn: u64) {}
}

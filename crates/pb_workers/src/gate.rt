//! What workers call between a stretch's run and its return to the book.

/// What a worker calls after it has run a stretch and before it brings it home, with no lock held. The turns
/// of each worker count from 0.
pub trait Gate: Sync {
    /// Returns whether both other calls may be left out, since `between` does nothing and `give_back` always
    /// returns false. Then picks may also be made with the lock held, or with no lock and no thread.
    fn is_open(&self) -> bool {
        false
    }

    /// Waits after a run, or returns at once.
    fn between(&self, worker: usize, turn: u64);

    /// Returns whether the worker is to give the stretch back in place of its commit. It is asked after
    /// `between`.
    fn give_back(&self, _worker: usize, _turn: u64) -> bool {
        false
    }
}

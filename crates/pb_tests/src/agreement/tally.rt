//! How often each result came: a comparison says nothing of results that never came.

use crate::agreement::sides::Seen;

#[derive(Clone, Copy)]
pub(super) struct Tally {
    pub(super) skipped: u64,
    pub(super) silent: u64,
    pub(super) not_enabled: u64,
    pub(super) granted: u64,
    pub(super) returned: u64,
    pub(super) printed: u64,
    pub(super) faulted: u64,
    pub(super) finished: u64,
}

impl Tally {
    pub(super) fn new() -> Tally {
        Tally {
            skipped: 0,
            silent: 0,
            not_enabled: 0,
            granted: 0,
            returned: 0,
            printed: 0,
            faulted: 0,
            finished: 0,
        }
    }

    /// Returns whether each result came more often than this.
    pub(super) fn has_more_than(&self, times: u64) -> bool {
        self.skipped > times
            && self.silent > times
            && self.not_enabled > times
            && self.granted > times
            && self.returned > times
            && self.printed > times
            && self.faulted > times
            && self.finished > times
    }

    /// Counts what a pick showed.
    pub(super) fn count(&mut self, seen: Seen) {
        let number = match seen {
            Seen::Skipped => &mut self.skipped,
            Seen::Silent => &mut self.silent,
            Seen::Waits(..) => &mut self.not_enabled,
            Seen::Granted(..) => &mut self.granted,
            Seen::Returned(..) => &mut self.returned,
            Seen::Printed(..) => &mut self.printed,
            Seen::Faulted(..) => &mut self.faulted,
            Seen::Finished(..) => &mut self.finished,
            Seen::Differ(..) => return,
        };
        *number = number.saturating_add(1);
    }
}

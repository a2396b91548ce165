//! What workers report.

use pb_history::Trace;
use pb_shared::Outcome;

/// The picks that were made, and how the run ended.
#[derive(Drop)]
pub struct Report {
    pub trace: Trace,
    pub outcome: Outcome,
}

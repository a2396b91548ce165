//! Whether two results are the same.

use pb_base::Step;

/// Returns whether two steps show the same.
pub(super) fn same_step(one: &Step, other: &Step) -> bool {
    match (one, other) {
        (Step::Silent, Step::Silent) => true,
        (Step::Did(event), Step::Did(others)) => event == others,
        (Step::NotEnabled, Step::NotEnabled) => true,
        _ => false,
    }
}

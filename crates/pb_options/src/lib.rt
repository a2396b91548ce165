//! What the words of a call become: the options of each command, and the codes of refusals for `explain`. The
//! words are read into these by pb_words, and the engines take them, so that neither of the two depends on the
//! other.
#![tactic(auto)]

mod code;
mod options;

pub use code::{Code, UnknownCode};
pub use options::{
    CheckOptions, DebugOptions, DrawOptions, EmitOptions, Lend, MAX_HEAP, MAX_ROWS, MAX_SCALE,
    MAX_WIDTH, MIN_HEAP, MIN_SCALE, MIN_WIDTH, OutcomesOptions, PlanOptions, RecordOptions,
    ReplayOptions, RunOptions, StatesOptions, UnknownLend,
};

//! Positions along the picks of a run: machines that walk from one to another, checkpoints, and searches.
#![tactic(auto)]

mod checkpoints;
mod search;
mod walker;

pub use checkpoints::{Replaying, keep, replay_counted_picks, replay_picks};
pub use search::{Watch, first_in, last_in, line_of_arm, value_of};
pub use walker::Walker;

//! The picks of a run that is recorded: drawn with a seed, or as workers make them; and counted.
#![tactic(auto)]

mod choice;
mod open;
mod picks;
mod schedule;

pub use open::Open;
pub use picks::{draw_picks, report_picks};

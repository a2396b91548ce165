//! The claim of each process on each resource: the most that it may ever hold, found by one pass over its
//! body, and whether the capital is enough for every claim.
#![tactic(auto)]

mod inference;
pub mod laws;
mod over_capital;
mod peaks;

pub use inference::infer;
pub use over_capital::{OverCapital, fits};

//! The command `explain`: for each code of a refusal or a warning what it means, an example and what to do.
#![tactic(auto)]

mod entries;
mod explain;

pub use entries::{Entry, Example, ExampleInput, entry_for};
pub use explain::explain_engine;

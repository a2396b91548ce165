//! The engines after the data of a page in a browser: the states of a run, and all schedules of a text.
#![tactic(auto)]

mod document;
mod object;
mod schedules;
mod states;
mod written;

pub use schedules::schedules_engine;
pub use states::states_engine;
pub use written::{write_schedules, write_states};

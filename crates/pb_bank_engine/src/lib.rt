//! The command `bank`, over any input and output.
#![tactic(auto)]

mod bank;
pub mod laws;
mod line;
mod sayings;
mod session;

pub use bank::bank_engine;

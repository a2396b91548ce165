//! Mistakes that the tokens of a text show, each with what is usually meant, and what a message says in words.
#![tactic(auto)]

pub mod closing;
pub mod foreign;
mod meanings;
pub mod open;
pub mod parts;
mod repair;
pub mod resources;
pub mod signs;
pub mod statements;
pub mod tokens;
pub mod values;
mod wording;

pub use repair::Repair;
pub use wording::{Shown, Spot, Told, Wording, telling, usual};

//! What a language server shows of a text beside the names: what stands at a position, and the claims of each process
//! after its name.
#![tactic(auto)]

mod hints;
mod hover;
mod named;
mod numbered;
mod reading;
mod requests;
mod said;
mod words;

pub use requests::{answer_hints, answer_hover};

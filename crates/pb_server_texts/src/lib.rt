//! Requests of editors over the text of a document: its symbols, where the name at a position is declared and used, what
//! a new name changes, and what may be written.
#![tactic(auto)]

mod reading;
mod requests;

pub use reading::{tokens_of, tree_of};
pub use requests::{
    answer_completion, answer_definition, answer_references, answer_rename, answer_symbols,
};

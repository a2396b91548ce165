//! What a person is told, in words, of a text whose characters or syntax are refused.
#![tactic(auto)]

pub mod characters;
mod comments;
pub mod misspelt;
mod mistakes;
pub mod syntax;

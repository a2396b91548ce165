//! Edits that mend a text: a word that is misspelt, a semicolon that is missing, an integer that is not declared, a capital
//! that is too small. What is proposed is what the message of the text says, and was tried: with the edit the text is accepted, or refused further on, and all tokens
//! but one are as they were.
#![tactic(auto)]

mod candidates;
mod further;
mod kept;
mod mend;
mod propose;

pub use mend::Mend;
pub use propose::propose_mends;

//! The parser: from the tokens of a text to the tree of its program, within the limits.
#![tactic(auto)]

mod measure;
mod measures;
mod nesting;
mod parser;
mod trees;

pub use parser::parse;
pub use pb_grammar::ParseFault;

//! From the bytes of a text to its tokens: names, numbers, symbols and reserved words, each the longest that
//! begins at its offset, with blanks and comments between them.
#![tactic(auto)]

mod fault;
pub mod laws;
mod lexer;
mod scan;
mod token;
mod words;

pub use fault::LexFault;
pub use lexer::lex;
pub use token::{Kind, Mark, Token};

//! Reads the words of a call of the program: the command and its options, as clap takes them; and says which tool
//! answers the command.
#![tactic(auto)]

mod read;
mod together;
mod tool;
mod words;

pub use read::options;
pub use tool::{Tool, tool_of};
pub use words::{Options, WordsFault};

//! The commands of a debugging session: their words, the lines of bytes, and the buffer of the line being read.
#![tactic(auto)]

mod buffer;
mod command;
pub mod laws;
mod lines;
mod words;

pub use buffer::LineBuffer;
pub use command::{Command, read_command};
pub use lines::line_numbered;
pub use words::{ArmWord, IntegerWord, StopWord};

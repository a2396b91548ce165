//! The grammar: which tokens are which program, and the reading of them by recursive descent, with any builder.
#![tactic(auto)]

mod builder;
mod fault;
pub mod laws;
mod level;
mod operators;
mod parser;
mod programs;
mod statements;

pub use builder::Builder;
pub use fault::ParseFault;
pub use programs::read;

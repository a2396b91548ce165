//! The compiler: from a text to code, and the proof that the text's program and its code make the same
//! events.
#![tactic(auto)]

mod compiled;
mod compiler;
mod fault;
pub mod laws;

pub use compiled::Compiled;
pub use compiler::{Analysis, analyze, compile};
pub use fault::{ClaimsFault, CompileFault};

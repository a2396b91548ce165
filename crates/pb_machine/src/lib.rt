//! The machine: it does with each pick what the code does.
#![tactic(auto)]

mod advance;
mod advance_count;
mod advance_singly;
mod alone;
mod arms;
mod execute;
pub mod laws;
mod look;
mod machine;
mod process;
mod set_to;
mod stack;
mod thread;
mod turn;
mod visible;

pub use look::Look;
pub use machine::Machine;
pub use process::Proc;
pub use thread::{Thread, ThreadState};

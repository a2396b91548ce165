//! The Debug Adapter Protocol over a debugger: what is answered to each request, and how it moves the run.
//!
//! Pinned by contract are the values of all messages, and the state at a position that they are made of; the
//! text of a message is that of serde_json, members in the order of their names.
#![tactic(auto)]

mod answer;
mod arms;
mod continues;
mod evaluate;
mod moves;
mod session;
mod tries;
mod variables;

pub use answer::Client;
pub use evaluate::without_last;
pub use session::Session;

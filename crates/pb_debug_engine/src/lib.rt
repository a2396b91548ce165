//! The engines behind the command `debug`: sessions of commands over the picks of a text or of an object.
#![tactic(auto)]

mod debug;
mod live;
mod part;
mod parts;
mod session;

pub use debug::debug_engine;
pub use live::debug_live_engine;

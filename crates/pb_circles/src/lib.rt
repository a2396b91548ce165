//! Circular waits: processes each of which waits for a resource that the next one holds.
#![tactic(auto)]

mod asking;
mod circle;
pub mod laws;
mod link;

pub use asking::{amount_in, asked};
pub use circle::find_circle;
pub use link::Link;

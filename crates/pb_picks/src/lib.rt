//! Pick lines, which say the picks of a run.
#![tactic(auto)]

mod count;
mod fault;
pub mod laws;
mod reader;
mod write;

pub use count::count_pick;
pub use fault::PickFault;
pub use reader::read_picks;
pub use write::write_picks;

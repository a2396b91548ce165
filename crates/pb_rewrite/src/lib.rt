//! One step of the source: what is left of a program, as trees that are rewritten in place.
#![tactic(auto)]

mod arm;
mod choosing;
mod copies;
mod expression;
mod item;
pub mod laws;
mod lists;
mod looping;
mod process;
mod source;
mod stepping;

pub use arm::Arm;
pub use item::Item;
pub use process::SourceProcess;
pub use source::Source;

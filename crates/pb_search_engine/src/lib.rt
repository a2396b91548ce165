//! The engine behind the command `outcomes`: every way in which a small program can end, and every deadlock.
#![tactic(auto)]

mod all;
mod answer;
mod asked;
mod counts;
mod endless;
mod expect;
mod item;
mod item_lines;
mod item_objects;
mod items;
mod judged;
pub mod laws;
mod lines;
mod names;
mod one_run;
mod other;
mod outcomes;
mod part;
mod part_objects;
mod parts;
mod pick_lines;
mod print_lines;
mod requirements;
mod said;
mod sought;
mod teller;
mod wanted;

pub use asked::{Asked, read_asked};
pub use outcomes::outcomes_engine;
pub use print_lines::PrintFault;
pub use requirements::{Part, Requirement, requirement_of};

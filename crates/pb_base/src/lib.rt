//! What all crates share: picks, bundles, events and their lines, arithmetic, capital and claims, input and
//! output, and the definitions of the banker and of runs.
#![tactic(auto)]

mod arithmetic;
mod bundle;
mod capital;
mod claims;
mod device;
mod event;
pub mod laws;
mod lending;
pub mod limits;
mod lines;
mod memory;
mod names;
mod operators;
mod pair;
mod pick;
mod step;
pub mod writing;

pub use arithmetic::{apply, apply_unary};
pub use bundle::Bundle;
pub use capital::Capital;
pub use claims::Claims;
pub use device::{
    DeviceFault, FaultyInput, FaultyOutput, Input, MemoryInput, MemoryOutput, Output, ReadFault,
    StandardInput, StandardOutput, read_whole, write_all,
};
pub use event::Event;
pub use lending::Lending;
pub use lines::event_line;
pub use memory::NoMemory;
pub use names::Names;
pub use operators::{BinaryOp, FaultKind, UnaryOp};
pub use pair::Pair;
pub use pick::Pick;
pub use step::Step;

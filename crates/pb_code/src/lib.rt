//! Code: the instructions of a program, and the definitions of what they do.
#![tactic(auto)]

mod bundles;
mod code;
mod format;
mod instr;
mod labels;
mod names;
mod numerals;
mod same;

pub use bundles::{pair_at, pairs};
pub use code::{Code, ProcessCode};
pub use format::Format;
pub use instr::Instr;
pub use labels::{Labels, ProcessLabels};
pub use names::{are_name_bytes, is_name};
pub use numerals::is_numeral;

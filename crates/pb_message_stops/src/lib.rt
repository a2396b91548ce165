//! What a person is told of pick lines: of one that is none, of too many, and of a pick that is not enabled.
#![tactic(auto)]

mod ends;
mod lines;
mod stops;

pub use ends::{Ends, Form};
pub use lines::{Lines, bad_print_line, fault_wording};
pub use stops::{stop_of, stop_wording};

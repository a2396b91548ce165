//! Where a person stops along the picks of a run: after a pick that moves an arm to another line, or that brings
//! one to a line with a breakpoint.
#![tactic(auto)]

mod stops;

pub use stops::{first_arrival, first_move, last_arrival, last_move};

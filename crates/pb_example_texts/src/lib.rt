//! The programs, objects and recorded runs of `examples/` as constants, for the tests of other crates, which read
//! no file beside their own.
#![tactic(auto)]

pub mod arms;
pub mod bank;
pub mod banker;
pub mod claims;
pub mod deadlock;
pub mod first;
pub mod grading;
pub mod limits;
pub mod objects;
pub mod outcomes;
pub mod plan;
pub mod solutions;
pub mod updates;

//! The generator: the code of a numbered program, and the labels of its places.
#![tactic(auto)]

mod arms;
mod expression;
mod generator;
mod names;
mod operators;
mod process;
mod statement;
mod writer;

pub use generator::{Generated, generate};

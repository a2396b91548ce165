//! The resolver: how a syntax tree becomes a program in which names are numbers.
#![tactic(auto)]

mod resolver;

pub use resolver::resolve;

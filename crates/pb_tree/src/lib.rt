//! The syntax tree of a program, in the memory of any allocator.
#![tactic(auto)]

mod expr;
pub mod laws;
mod program;
mod stmt;

pub use expr::{Expr, Name, Number};
pub use program::{Process, Program, Resource};
pub use stmt::{Demand, Stmt, line_of};

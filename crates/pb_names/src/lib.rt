//! Programs after names became numbers, what they do, and what can be wrong with the names of a syntax tree.
#![tactic(auto)]

mod causes;
mod complete;
mod declared;
mod fault;
pub mod laws;
pub mod limits;
mod lookups;
mod resolved;

pub use causes::{amount_from, fault_of, first_cause};
pub use complete::is_complete;
pub use declared::Declared;
pub use fault::{Kind, NameFault};
pub use resolved::{Expr, Process, Resolved, Resource, Stmt};

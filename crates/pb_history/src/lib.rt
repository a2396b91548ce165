//! The history of a run: which picks were made and what each showed, kept in little room; and picks made once
//! more.
#![tactic(auto)]

mod counted;
mod events;
mod fault;
pub mod laws;
pub mod replay;
mod span;
mod spans;
mod trace;

pub use counted::CountedPick;
pub use fault::ReplayFault;
pub use span::Span;
pub use trace::Trace;

//! The diagnostics of a text and the edits that mend it, as values of the Language Server Protocol.
#![tactic(auto)]

mod act;
mod diagnostic;
mod range;
mod related;

pub use act::actions;
pub use diagnostic::diagnostics;
pub use range::range_at;

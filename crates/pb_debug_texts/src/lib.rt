//! What a debugging session says of the state of a run: its lines of text, and why an arm does not go on.
#![tactic(auto)]

mod circle;
mod does;
mod fault;
pub mod laws;
mod listed;
mod next;
mod operators;
mod source;
mod text;
mod values;
mod who;
mod why;

pub use circle::put_circle;
pub use does::{Labelled, put_does};
pub use fault::{put_fault, put_no_fault};
pub use next::put_next_words;
pub use source::put_source;
pub use text::{
    put_at, put_event, put_help, put_loans, put_mark, put_never, put_no_event, put_not_reached,
    put_source_line, put_stack, put_threads, put_vars, put_why, put_wrote,
};
pub use who::put_who;
pub use why::{Why, asked, reason};

//! The conversation of a language server: messages, documents that are open, and what is said to each message, for
//! any language that can tell the diagnostics of a text and what else is asked of it.
#![tactic(auto)]

mod answer;
mod conversation;
mod documents;
mod found;
mod hear;
mod language;
mod message;
mod method;
mod params;
mod query;
mod response;
mod session;
mod writer;

pub use answer::answer_content;
pub use conversation::converse;
pub use found::Found;
pub use language::Language;
pub use query::Query;
pub use response::{Fault, capabilities};
pub use session::{Phase, Session};

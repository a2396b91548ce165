//! Conversations over any input and output: each message is answered before the next is read.
//!
//! Pinned by contract are the bytes that are written, as the framed compact texts of messages; which messages
//! answer a content is what the implementation of `Adapter` says.
#![tactic(auto)]

mod conversation;
mod said;
mod writer;

pub use conversation::{Adapter, MAX_MESSAGES, Stop, answer_content, converse};
pub use said::Said;

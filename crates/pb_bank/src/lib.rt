//! A bank for any language: jobs and resources by name, and the commands about them.
#![tactic(auto)]

mod answer;
mod ask;
mod capital;
mod claim;
mod come;
mod desk;
mod kind;
pub mod laws;
mod lines;
mod objects;
mod order;
mod queue;
mod reason;
mod refusal;
mod request;
mod said;
mod serve;
mod slots;
mod state;
mod want;
mod words;

pub use answer::MAX_COMMAND;
pub use desk::Desk;
pub use kind::Kind;
pub use lines::put_line_of;
pub use objects::put_object_of;
pub use refusal::Refusal;
pub use request::Request;
pub use said::{Jobs, Said, Share, Stock};
pub use slots::Slots;
pub use words::{after_command, is_blank};

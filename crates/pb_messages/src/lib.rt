//! Messages for a person: what a refused input has wrong, where, and what is usually meant.
#![tactic(auto)]

mod first_format;
mod live;
mod message;
mod objects;
mod picks;
mod texts;
pub mod worded;

pub use live::live_message;
pub use message::{Reading, long_message, message_of};
pub use texts::text_message;

//! What a person is told of each fault, in words: what is wrong, other places that have to do with it, and
//! what is usually meant.
#![tactic(auto)]

mod first_format;
mod holds;
mod names;
mod objects;
mod said;
mod texts;

pub use first_format::unsaid_wording;
pub use objects::{unread_wording, unsafe_wording};
pub use said::{Advice, advice_of};
pub use texts::text_wording;

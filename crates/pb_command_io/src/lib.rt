//! The input and the output of a command: what it reads, the page that it writes, its reply and its exit status.
#![tactic(auto)]

mod input;
mod page;
mod parts;
mod reply;
mod status;

pub use input::read_input;
pub use page::Page;
pub use parts::{first_part, is_mark_at, two_parts};
pub use reply::{Reply, refused, tell};
pub use status::Status;

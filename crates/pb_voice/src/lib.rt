//! One voice: engines tell what they have found as data, one thing after another, and a voice writes each in its form.
#![tactic(auto)]

mod form;
mod integer;
pub mod laws;
mod pieces;
mod text;
mod voice;

pub use form::Form;
pub use integer::say_integer;
pub use pieces::{say_escaped, say_pieces};
pub use text::{say_lines, say_memory, say_text};
pub use voice::Voice;

//! What a command writes, as JSON lines: an object for each line of a text, and one for each outcome and each
//! deadlock. What they say is defined over the lines of the text, whichever command wrote it.
#![tactic(auto)]

mod alone;
mod dialect;
mod form;
mod gathered;
pub mod laws;
mod lines;
mod list;
mod live_output;
mod marker;
mod members;
mod program_forms;
mod session_forms;
mod telling;
mod text;
mod text_forms;

pub use dialect::{comes_live, dialect_of};
pub use form::Dialect;
pub use gathered::{Gathered, tell_json};
pub use live_output::LiveOutput;
pub use telling::Telling;
pub use text::json_lines;

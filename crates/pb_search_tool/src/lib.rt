//! The tool that answers `outcomes`, `plan` and `states`.
#![tactic(auto)]

mod changed;
mod expected;
pub mod plan;
mod prints;
mod required;
mod search_tool;
pub mod states;
mod together;

pub use expected::expected_message;
pub use search_tool::SearchTool;
pub use together::together_message;

//! The tool that answers `findings` and `lsp`.
#![tactic(auto)]

mod edit_tool;

pub use edit_tool::EditTool;

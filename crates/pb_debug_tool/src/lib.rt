//! The tool that answers `dap`, `debug` and `draw`.
#![tactic(auto)]

pub mod debug;
mod debug_tool;

pub use debug_tool::DebugTool;

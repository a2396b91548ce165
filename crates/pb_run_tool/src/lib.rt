//! The tool that answers `check`, `claims`, `emit`, `exec`, `explain`, `migrate`, `record`, `replay` and `run`.
#![tactic(auto)]

mod run_tool;

pub use run_tool::RunTool;

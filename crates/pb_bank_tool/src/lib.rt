//! The tool that answers `bank`.
#![tactic(auto)]

mod bank_tool;

pub use bank_tool::BankTool;

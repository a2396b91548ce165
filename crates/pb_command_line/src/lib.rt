//! The command line as clap reads it: the commands with their options, ranges, defaults and help.
#![tactic(auto)]

pub mod command_line;

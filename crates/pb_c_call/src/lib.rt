//! The commands for callers that are not Rattle: C functions over words and bytes in memory. A static library
//! starts no threads, so `run`, `exec`, and `record` without a seed are not here.
#![tactic(auto)]

mod alone;
mod exports;
mod reply;
mod word;

pub use word::Word;

//! The banker for callers that are not Rattle: C functions over a bank in the caller's memory.
//!
//! A bank is a plain struct. It is made by `pb_bank_new`, and is copied, moved, saved or forgotten as any bytes
//! are: nothing of it is on a heap, and the library keeps nothing between calls.
#![tactic(auto)]

mod bank;
mod exports;
mod flags;
mod open;
mod said;
mod seated;
mod sound;

pub use bank::{Bank, Why};

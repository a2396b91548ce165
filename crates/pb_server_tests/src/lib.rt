//! Tests of the language server: conversations by their bytes.
#![tactic(auto)]

mod conversations;
mod mends;

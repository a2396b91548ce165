//! The engine behind the command `lsp`: the Language Server Protocol over any input and output.
#![tactic(auto)]

mod parbegin;
mod server;

pub use server::server_engine;

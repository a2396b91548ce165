//! The desk of a served bank: sessions over one bank, whose job each is, and which requests were carried out. It is a machine over
//! the entries of a journal, without clock or chance.
#![tactic(auto)]

mod answers;
mod apply;
mod begin;
mod commands;
mod end;
mod entry;
mod kept;
pub mod laws;
mod notices;
mod owners;
mod refusal;
mod service;
mod session;
mod sessions;
mod told;
mod words;

pub use entry::{Entry, entry_in};
pub use refusal::Refusal;
pub use service::Service;
pub use session::Session;
pub use told::{Message, Told};

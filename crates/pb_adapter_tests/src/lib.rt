//! Tests of the debug adapter: messages, requests and conversations.
#![tactic(auto)]

mod conversations;
mod frames;
mod requests;
mod values;

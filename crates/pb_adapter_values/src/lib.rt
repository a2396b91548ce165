//! What an adapter tells of a state: arms, frames, integers, operands, loans and cash, as values of the protocol.
#![tactic(auto)]

mod arms;
mod names;
mod told;
mod variables;

pub use arms::{frame, frames_body, list_arms, threads_body};
pub use names::{arm_name, name_at, thread_number};
pub use told::{capabilities, result_body, saying_body, stopped_body};
pub use variables::{all_cash, integers, loans_at, no_scopes, operands, scopes, variables_body};

//! The requests of a client of the Debug Adapter Protocol, and the responses and events that answer them.
#![tactic(auto)]

mod breakpoints;
mod counting;
mod kind;
mod request;
mod response;

pub use breakpoints::{asked_lines, asks_events, breakpoints_body, is_of_text};
pub use counting::Counting;
pub use kind::{Kind, kind_of};
pub use request::{Place, Request, is_given, number_of, place_of, request_of, text_of};
pub use response::{Reply, alone, answered, done, event, failed, refused, with_event};

//! All tools as one: each call has one answer, by the tool that has its command.
#![tactic(auto)]

pub mod answer;

//! Tests of what is shown of a text.
#![tactic(auto)]

mod requests;

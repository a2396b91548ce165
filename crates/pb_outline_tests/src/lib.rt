//! Tests of what editors ask of the names of a text.
#![tactic(auto)]

mod names;
mod requests;

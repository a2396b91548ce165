//! Tests of the data of a page, by public calls: JSON, documents of runs, and documents of all schedules. The rows of
//! the first run and the documents of all schedules are those that a second implementation wrote; the others are
//! written by hand.
#![tactic(auto)]

#[cfg(test)]
mod json;
#[cfg(test)]
mod schedules;
#[cfg(test)]
mod states;

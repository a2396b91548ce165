//! Tests of the engines that have crates of their own, of the search for every outcome, of the words of a call, of
//! the whole program over any words, of the messages for a person, and of the programs of `examples/`, by their
//! public calls: in a crate of their own, so that none of those is proved again with them.
#![tactic(auto)]

#[cfg(test)]
mod calls;
#[cfg(test)]
mod capitals;
#[cfg(test)]
mod codes;
#[cfg(test)]
mod debug;
#[cfg(test)]
mod draw;
#[cfg(test)]
mod endless;
#[cfg(test)]
mod examples;
#[cfg(test)]
mod expected;
#[cfg(test)]
mod explore;
#[cfg(test)]
mod fair;
#[cfg(test)]
mod findings;
#[cfg(test)]
mod graph;
#[cfg(test)]
mod live;
#[cfg(test)]
mod messages;
#[cfg(test)]
mod one_run;
#[cfg(test)]
mod outcome_objects;
#[cfg(test)]
mod outcomes;
#[cfg(test)]
mod places;
#[cfg(test)]
mod plan;
#[cfg(test)]
mod required;
#[cfg(test)]
mod tools;
#[cfg(test)]
mod words;

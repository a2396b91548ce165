//! Tests of the crates by their public calls alone, in one crate, so that none of them is proved again with
//! its tests.
#![tactic(auto)]

#[cfg(test)]
mod agreement;
#[cfg(test)]
mod banker;
#[cfg(test)]
mod base;
#[cfg(test)]
mod calls;
#[cfg(test)]
mod claims;
#[cfg(test)]
mod code;
#[cfg(test)]
mod codegen;
#[cfg(test)]
mod engines;
#[cfg(test)]
mod lenders;
#[cfg(test)]
mod lexer;
#[cfg(test)]
mod machine;
#[cfg(test)]
mod names;
#[cfg(test)]
mod object_limits;
#[cfg(test)]
mod objects;
#[cfg(test)]
mod parser;
#[cfg(test)]
mod texts;
#[cfg(test)]
mod tree;
#[cfg(test)]
mod trees;
#[cfg(test)]
mod verifier;

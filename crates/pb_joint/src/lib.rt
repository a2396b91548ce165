//! Texts whose processes run beside one another, read as one program.
#![tactic(auto)]

mod joining;
mod texts;

pub use texts::{FullName, Joint, TextFault, read_texts};

//! What a language server answers of the names of a text: where each is declared and used, what a new name changes, which
//! symbols there are, and what may be written, as values of the protocol.
#![tactic(auto)]

mod asked;
mod completions;
mod places;
mod symbols;
mod values;

pub use asked::{asked_name, asked_offset, asked_place, asks_declaration};
pub use completions::{completions_value, items_value};
pub use places::{definition_value, references_value, rename_value};
pub use symbols::symbols_value;
pub use values::{end_of_name, range_value};

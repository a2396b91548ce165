//! What an accepted program is warned of: a parbegin has one arm, an integer is never read, a capital cannot be used.
#![tactic(auto)]

mod arms;
mod claimed;
mod integers;
mod reads;
mod warning;
mod warnings;

pub use warning::Warning;
pub use warnings::warnings_of;

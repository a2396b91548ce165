//! Capitals that a call names in place of those of a text, such as `tape=2`: read, and looked up by name.
#![tactic(auto)]

mod change;
mod changes;
mod reading;

pub use change::Change;
pub use changes::Changes;
pub use reading::changes_of;

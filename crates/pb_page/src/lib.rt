//! What a page in a browser shows of a run: the state at each position, as entries, and rows of what each
//! pick changes, written as a document of JSON.
#![tactic(auto)]

mod arms;
mod lend;
mod row;
mod run;
mod state;

pub use lend::put_lend;
pub use row::{put_changes, put_shown};
pub use run::{Shown, put_state, run_document};
pub use state::state_of;

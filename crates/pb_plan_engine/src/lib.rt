//! The engine behind the command `plan`: where the claims of a text come from, and how much of each resource they
//! need.
#![tactic(auto)]

mod changing;
mod lines;
mod objects;
mod plan;
mod rows;
mod said;
mod teller;
mod texts;
mod written;

pub use changing::undeclared;
pub use plan::plan_engine;
pub use said::{Claim, Need, Nested, Refusal, Said};
pub use teller::Teller;
pub use texts::texts_of;
pub use written::write_plan;

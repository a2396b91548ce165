//! The book of a machine that workers share, the stretches that it lends, and its lock.
#![tactic(auto)]

mod answer;
mod book;
mod brand;
mod commit;
mod desk;
mod fault;
pub mod laws;
mod marks;
mod outcome;
mod ready;
mod shared;
mod slip;
mod spare;
mod stretch;
mod take;
mod taken;
mod turn;
mod visible;

pub use answer::Answer;
pub use book::Book;
pub use brand::CodeBrand;
pub use fault::{CommitFault, HomeFault};
pub use outcome::Outcome;
pub use shared::Shared;
pub use stretch::Stretch;
pub use taken::Taken;

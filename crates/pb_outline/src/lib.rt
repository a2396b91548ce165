//! The names of a text, as editors ask for them: which name stands at an offset, where else it stands, what may stand
//! there, and what it may be renamed to.
#![tactic(auto)]

mod extent;
mod lookups;
mod outline;
mod place;
mod position;
mod reading;
mod rename;
mod scopes;
mod walk;

pub use extent::{Extent, extent_of};
pub use outline::Outline;
pub use place::{Kind, Place};
pub use position::{Position, offset_at, position_of};
pub use rename::RenameFault;

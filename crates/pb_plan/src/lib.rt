//! What a checker of resource plans asks of a program: where each claim comes from, how much of each resource is
//! needed, and which resource is the bottleneck.
#![tactic(auto)]

mod circle;
mod edge;
pub mod laws;
mod needs;
mod nest;
mod nests;
mod order;
mod part;
mod parts;
mod weight;

pub use circle::find_circle;
pub use edge::Edge;
pub use needs::{bottleneck, free_capital, least_capital, scarce};
pub use nest::Nest;
pub use order::{find_order, find_order_among};
pub use part::Part;
pub use parts::claim_parts;

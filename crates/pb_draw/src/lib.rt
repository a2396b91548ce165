//! What runs show over their picks: events, holds, the state of each arm, and the cash of each resource.
#![tactic(auto)]

mod accesses;
mod bars;
mod cash;
mod drawing;
mod lanes;
mod marks;
mod walk;

pub use accesses::MAX_ACCESSES;
pub use drawing::{
    Bar, CashCurve, CashStep, Drawing, Happening, Integers, Lane, LaneStep, Mark, Standing, draw,
};

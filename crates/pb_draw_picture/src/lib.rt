//! The picture of what a run shows: its shapes, where each of them is, and the picture written as SVG.
#![tactic(auto)]

mod axis;
mod captions;
mod curves;
mod grid;
mod grounds;
mod heads;
mod holds;
mod knot;
mod lanes;
mod layout;
mod marks;
mod picture;
mod row;
mod rows;
mod shapes;
mod sizes;
mod svg;
mod waits;

pub use layout::lay_out;
pub use picture::{Picture, Size};
pub use svg::write_svg;

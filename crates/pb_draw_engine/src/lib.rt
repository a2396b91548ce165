//! The engine behind the command `draw`: a picture of the run that pick lines make.
#![tactic(auto)]

mod draw;
mod written;

pub use draw::{MAX_PICTURE, draw_engine};
pub use written::write_drawing;

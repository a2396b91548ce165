//! The type of what a pick did.

use crate::event::Event;

/// What a pick did.
#[derive(Clone, Copy)]
pub enum Step {
    /// A step that shows nothing.
    Silent,
    /// A step that shows this.
    Did(Event),
    /// Nothing, for the pick is not enabled.
    NotEnabled,
}

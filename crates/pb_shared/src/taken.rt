//! What a book lends.

use crate::brand::CodeBrand;
use crate::outcome::Outcome;
use crate::stretch::Stretch;

/// A stretch to run, nothing to lend for now, or the outcome.
pub enum Taken<'v, C: CodeBrand> {
    /// A process with an arm to step.
    Work(Stretch<'v, C>),
    /// Nothing can be lent until a stretch comes home.
    Idle,
    /// The run is over.
    Over(Outcome),
}

//! A hold inside another one, in a process.

use crate::nest::Nest;

/// A process, by number, and a hold inside another one in it. It leads from the resource of the outer hold to that
/// of the inner one.
#[derive(Clone, Copy, Debug, PartialEq, Eq)]
pub struct Edge {
    pub process: usize,
    pub nest: Nest,
}

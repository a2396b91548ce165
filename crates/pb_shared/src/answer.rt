//! What a commit comes to.

/// What became of the visible pick of a commit.
#[derive(Clone, Copy, Debug, PartialEq, Eq)]
pub enum Answer {
    /// It was made.
    Did,
    /// It asks for what is not allowed now, and its arm is marked.
    Refused,
    /// None was tried.
    Silent,
}

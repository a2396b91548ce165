//! What is found in files.

use crate::refusal::Refusal;
use crate::warned::Warned;

/// What comes of a text.
#[derive(Drop)]
pub enum Verdict {
    /// It is accepted, and warned of these.
    Accepted(Vec<Warned>),
    /// It is refused.
    Refused(Refusal),
}

/// A text of a file.
#[derive(Drop)]
pub struct Found {
    /// The number of the text, from 1.
    pub number: usize,
    /// What comes of it.
    pub verdict: Verdict,
}

/// A file, by the name that a report has for it.
#[derive(Drop)]
pub enum Report {
    /// A file whose texts were looked at.
    Texts { name: Vec<u8>, found: Vec<Found> },
    /// A file that cannot be read, and why.
    Unread { name: Vec<u8>, reason: Vec<u8> },
}

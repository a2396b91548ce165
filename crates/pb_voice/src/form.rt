//! How things are written.

/// The form in which things that are told are written.
#[derive(Clone, Copy, Debug, PartialEq, Eq)]
pub enum Form {
    /// As lines.
    Lines,
    /// As JSON, an object on a line.
    Objects,
}

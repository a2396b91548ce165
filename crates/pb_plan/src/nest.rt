//! A hold inside another one.

/// A hold inside another one: the line of each, and a resource that each asks for, by number.
#[derive(Clone, Copy, Debug, PartialEq, Eq)]
pub struct Nest {
    pub outer_line: u32,
    pub outer: usize,
    pub inner_line: u32,
    pub inner: usize,
}

//! What a debugger shows in place of numbers.

/// The labels of one process.
#[derive(Drop)]
pub struct ProcessLabels {
    /// The source line of each place of the code, from 1; none if nothing but the end of an arm follows.
    pub lines: Vec<Option<u32>>,
    /// The name of each integer, by its number.
    pub integers: Vec<Vec<u8>>,
}

/// The labels of each process, by its number.
#[derive(Drop)]
pub struct Labels {
    pub processes: Vec<ProcessLabels>,
}

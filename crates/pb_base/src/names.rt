//! What processes and resources are called.

/// The names of processes and of resources, each by its number. A name is ASCII.
#[derive(Drop)]
pub struct Names {
    pub processes: Vec<Vec<u8>>,
    pub resources: Vec<Vec<u8>>,
}

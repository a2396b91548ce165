//! What workers met that ended them.

/// What some worker met that ended it.
#[derive(Clone, Copy)]
pub struct Met {
    pub no_memory: bool,
    pub stranger: bool,
}

/// A worker went on to the end of the run.
pub const NOTHING: Met = Met {
    no_memory: false,
    stranger: false,
};

/// A worker is out of memory.
pub const NO_MEMORY: Met = Met {
    no_memory: true,
    stranger: false,
};

/// A stretch of a worker was a stranger to the book.
pub const STRANGER: Met = Met {
    no_memory: false,
    stranger: true,
};

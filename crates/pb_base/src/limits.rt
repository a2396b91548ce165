//! The bounds of programs, of code, of inputs and of runs. Contracts and definitions cite them by these
//! names.

/// The most bytes of a program's text.
pub const MAX_TEXT: usize = 65_536;
/// The most bytes of a name.
pub const MAX_NAME: usize = 32;
/// The greatest number in a text, which is also the greatest integer.
pub const MAX_NUMBER: u64 = 9_223_372_036_854_775_807;
/// The most brackets and statements that are open at once.
pub const MAX_OPEN: usize = 256;
/// The most signs, `-` or `not`, in a row.
pub const MAX_SIGNS: usize = 256;
/// The greatest height of a program's tree.
pub const MAX_HEIGHT: u64 = 200;
/// The most nodes of a program's tree: its expressions, statements and processes.
pub const MAX_NODES: u64 = 16_384;

/// The most processes of a program.
pub const MAX_PROCESSES: usize = 64;
/// The most processes of an object in the first format.
pub const MAX_FIRST_PROCESSES: usize = 32;
/// The most resources of a program.
pub const MAX_RESOURCES: usize = 16;
/// The most integers of a process.
pub const MAX_INTEGERS: usize = 64;
/// The most arms of a process, its body counted as one.
pub const MAX_ARMS: usize = 64;
/// The most arms of one parbegin.
pub const MAX_FORK: usize = 16;
/// The most pairs of a bundle.
pub const MAX_PAIRS: usize = 16;
/// The greatest amount of a pair, the greatest claim of code and the greatest capital of a resource.
pub const MAX_AMOUNT: u32 = 1_000_000;

/// The most instructions of a process.
pub const MAX_PLACES: usize = 40_000;
/// The most operands of an arm.
pub const MAX_DEPTH: u16 = 256;
/// The most bundles that an arm holds at once.
pub const MAX_HOLDS: u16 = 256;
/// The greatest number of a source line.
pub const MAX_LINE: u32 = 65_536;

/// The most bytes of an input: texts, an object, or a text with the picks of a run.
pub const MAX_INPUT: usize = 4_194_304;
/// The most picks of a run.
pub const MAX_PICKS: u32 = 10_000_000;
/// The most workers of a run.
pub const MAX_WORKERS: usize = 16;
/// The most silent picks that a worker makes before others have their turn.
pub const MAX_QUANTUM: u32 = 4_096;
/// The most configurations that a search keeps.
pub const MAX_STATES: u32 = 4_000_000;

//! The edit that a message says.

/// The edit by which a message says that a mistake is mended.
#[derive(Clone, Copy)]
pub enum Repair<'t> {
    /// None: the message says what is meant, and no edit of one token.
    Unsaid,
    /// A word or symbol is written before the token that cannot be where it is.
    Insert(&'static str),
    /// The token with this number is left out.
    Remove(usize),
    /// Another word is written in the place of a token.
    Replace {
        /// The number of the token.
        number: usize,
        /// What is written.
        word: &'t [u8],
        /// What is written after that and a blank; nothing if it is empty.
        rest: &'t [u8],
    },
    /// The name that is not declared becomes an integer of its process.
    Declare,
}

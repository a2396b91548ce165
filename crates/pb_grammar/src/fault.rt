//! Why tokens are not a program, or one over a limit.

ghost use Rattle.std.specs.Prelude.{◌≡◌};
ghost use Rattle.pb_grammar.specs.declared.fault.ParseFault.TheVariants.{NoMemory};

use pb_base::NoMemory;

/// Why no tree was made of some tokens. Offsets count bytes of the text from 0.
#[derive(Clone, Copy, Debug, PartialEq, Eq, thiserror::Error)]
pub enum ParseFault {
    /// The tokens are not a program. At this offset begins the first token with which the tokens so far begin
    /// none; if they only end too early, the last token ends there (0 if there is none).
    #[error("syntax error at {0}")]
    Syntax(usize),
    /// The tokens open more than 256 brackets and statements in one another, or have more than 256 signs
    /// in a row, or
    /// their tree is higher than 200.
    #[error("nested too deep")]
    TooDeep,
    /// The tree has more than 16,384 nodes.
    #[error("tree too large")]
    TooLarge,
    /// The allocator is out of memory for the tree.
    #[error("out of memory")]
    NoMemory,
}

impl From<NoMemory> for ParseFault {
    ghost from_gives = { λ _ e. e ≡ NoMemory };

    fn from(_e: NoMemory) -> ParseFault {
        ParseFault::NoMemory
    }
}

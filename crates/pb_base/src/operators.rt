//! The operators of the language, and the faults of its arithmetic.

/// Why an operator has no result.
#[derive(Clone, Copy, Debug, PartialEq, Eq, thiserror::Error)]
pub enum FaultKind {
    /// The divisor of `div` or `mod` is zero.
    #[error("divide")]
    Divide,
    /// The result does not fit in 64 bits.
    #[error("overflow")]
    Overflow,
}

/// An operator on one number.
// To add one: as in BinaryOp.
#[derive(Clone, Copy, Debug, PartialEq, Eq)]
pub enum UnaryOp {
    /// `-`
    Negate,
    /// `not`
    Not,
}

/// An operator on two numbers.
// To add one: specs/Arithmetic, arithmetic.rt, pb_lexer, pb_grammar, an Instr, pb_generator; docs/CHANGING.md.
#[derive(Clone, Copy, Debug, PartialEq, Eq)]
pub enum BinaryOp {
    /// `+`
    Add,
    /// `-`
    Subtract,
    /// `*`
    Multiply,
    /// `div`, cut toward zero
    Quotient,
    /// `mod`, with the sign of the dividend
    Remainder,
    /// `=`
    Equal,
    /// `<>`
    Unequal,
    /// `<`
    Less,
    /// `<=`
    AtMost,
    /// `>`
    Greater,
    /// `>=`
    AtLeast,
    /// `and`, of which both sides are evaluated
    And,
    /// `or`, of which both sides are evaluated
    Or,
}

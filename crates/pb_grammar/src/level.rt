//! The type of the levels of expressions.

/// The levels of expressions, from the loosest to the tightest.
#[derive(Clone, Copy, Debug, PartialEq, Eq)]
pub enum Level {
    /// Conjunctions joined by `or`.
    Disjunction,
    /// Negations joined by `and`.
    Conjunction,
    /// A comparison after any number of `not`.
    Negation,
    /// One sum, or two joined by a relation.
    Comparison,
    /// Terms joined by `+` and `-`.
    Sum,
    /// Factors joined by `*`, `div` and `mod`.
    Term,
    /// A number, a name or an expression in brackets, after any number of `-`.
    Factor,
}

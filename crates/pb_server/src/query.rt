//! What a request asks of the text of a document.

/// What a request asks of the text of a document.
#[derive(Clone, Copy, Debug, PartialEq, Eq)]
pub enum Query {
    /// The diagnostics of the text.
    Diagnostic,
    /// Where the name at a position is declared.
    Definition,
    /// Where the name at a position stands.
    References,
    /// The edits that give the name at a position another one.
    Rename,
    /// What is declared.
    Symbols,
    /// What may be written at a position.
    Completion,
    /// Edits that mend the text.
    Actions,
    /// What stands at a position, in words.
    Hover,
    /// What is shown after names of the text.
    Hints,
}

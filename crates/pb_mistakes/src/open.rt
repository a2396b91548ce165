//! The statements that are open at a token.

use crate::tokens::{closes, mark_at, opens};
use pb_base::NoMemory;
use pb_lexer::{Mark, Token};
use std::alloc::Global;

/// A statement that is open, or the body of a process.
#[derive(Clone, Copy)]
pub struct Open {
    /// The number of the token that opens it.
    pub number: usize,
    /// The word that opens it.
    pub word: Mark,
    /// The last `then`, `else` or `do` of it, if there was one.
    pub part: Option<Mark>,
}

impl Open {
    /// Returns whether the token with a number closes it.
    pub fn is_closed_by(&self, tokens: &[Token], number: usize) -> bool {
        mark_at(tokens, number) == Some(closer(self.word))
    }
}

/// Returns the word that closes what a word opens.
pub fn closer(word: Mark) -> Mark {
    match word {
        Mark::If => Mark::Fi,
        Mark::While | Mark::Hold => Mark::Od,
        Mark::Parbegin => Mark::Parend,
        _ => Mark::End,
    }
}

/// Returns a word that opens or closes a statement as it is spelled.
pub fn spelled(word: Mark) -> &'static str {
    match word {
        Mark::If => "if",
        Mark::While => "while",
        Mark::Hold => "hold",
        Mark::Parbegin => "parbegin",
        Mark::Begin => "begin",
        Mark::Fi => "fi",
        Mark::Od => "od",
        Mark::Parend => "parend",
        _ => "end",
    }
}

/// Returns what is open before the token with a number, the innermost last.
pub fn open_before(alloc: Global, tokens: &[Token], number: usize) -> Result<Vec<Open>, NoMemory> {
    let mut open = Vec::new(alloc);
    for i in 0..number.min(tokens.len()) {
        follow(tokens, i, &mut open)?;
    }
    Ok(open)
}

/// Goes on by a token.
fn follow(tokens: &[Token], number: usize, open: &mut Vec<Open>) -> Result<(), NoMemory> {
    let Some(word) = mark_at(tokens, number) else {
        return Ok(());
    };
    if opens(tokens, number) {
        open.push(Open {
            number,
            word,
            part: None,
        })?;
    } else if closes(tokens, number) {
        let _ = open.pop();
    } else if matches!(word, Mark::Then | Mark::Else | Mark::Do) {
        if let Some(last) = open.last_mut() {
            last.part = Some(word);
        }
    }
    Ok(())
}

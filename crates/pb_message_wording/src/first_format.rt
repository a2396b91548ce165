//! The wording of what the first format of objects cannot say.

use pb_base::NoMemory;
use pb_base::limits::MAX_FIRST_PROCESSES;
use pb_lexer::{Mark, Token, lex};
use pb_mistakes::Wording;
use pb_mistakes::tokens::is_at;
use std::alloc::Global;

/// Returns the wording of what the first format can't say of a text: its first process that is too many, or
/// else its first hold of several resources.
pub fn unsaid_wording(alloc: Global, text: &[u8]) -> Result<Wording, NoMemory> {
    let Ok(tokens) = lex(alloc, text) else {
        return Err(NoMemory);
    };
    if let Some(number) = process_past(&tokens) {
        let summary = "the first format has at most 32 processes";
        return Ok(pointing(alloc, summary, tokens.get(number)));
    }
    let summary = "the first format has no hold of several resources";
    let number = joint_hold(&tokens).unwrap_or(tokens.len());
    Ok(pointing(alloc, summary, tokens.get(number)))
}

/// Returns the wording that points at a token.
fn pointing(alloc: Global, summary: &str, token: Option<&Token<'_>>) -> Wording {
    let mut wording = Wording::of(alloc, summary);
    wording.spot_token(alloc, "", token);
    wording.note_text(
        alloc,
        "hint: the second format has it: emit --object 2, or emit with no option",
    );
    wording
}

/// Returns the number of the word `process` before the first process that is too many.
fn process_past(tokens: &[Token]) -> Option<usize> {
    let mut count = 0usize;
    for number in 0..tokens.len() {
        if is_at(tokens, number, Mark::Process) {
            count = count.saturating_add(1);
            if count > MAX_FIRST_PROCESSES {
                return Some(number);
            }
        }
    }
    None
}

/// Returns the number of the first token of the first hold of several resources.
fn joint_hold(tokens: &[Token]) -> Option<usize> {
    let mut hold = None;
    for number in 0..tokens.len() {
        if is_at(tokens, number, Mark::Hold) {
            hold = Some(number);
        } else if is_at(tokens, number, Mark::Do) {
            hold = None;
        } else if is_at(tokens, number, Mark::Comma) && hold.is_some() {
            return hold;
        }
    }
    None
}

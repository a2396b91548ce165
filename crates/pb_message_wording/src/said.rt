//! The edit that the message of a fault says.

use crate::names::unknown;
use pb_base::NoMemory;
use pb_codegen::CompileFault;
use pb_lexer::{LexFault, Token, lex};
use pb_message_syntax::syntax::syntax_mistake;
use pb_mistakes::tokens::token_at;
use pb_mistakes::{Repair, Told};
use pb_names::NameFault;
use pb_parser::ParseFault;
use std::alloc::{AllocError, Global};

/// The edit that a message says.
#[derive(Drop)]
pub enum Advice {
    /// None.
    Unsaid,
    /// A word or symbol is missing at the offset of the fault, of those that the message lists.
    Expected,
    /// Bytes are replaced.
    Edit {
        /// The offset of the first byte that is replaced.
        start: usize,
        /// The offset after the last byte that is replaced.
        end: usize,
        /// The bytes in their place.
        bytes: Vec<u8>,
    },
    /// The name at the offset of the fault becomes an integer of its process.
    Declare,
}

/// Returns the edit that the message of a fault of a text says.
pub fn advice_of(alloc: Global, text: &[u8], fault: &CompileFault) -> Result<Advice, NoMemory> {
    let tokens = match lex(alloc, text) {
        Ok(tokens) => tokens,
        Err(LexFault::NoMemory) => return Err(NoMemory),
        Err(_) => return Ok(Advice::Unsaid),
    };
    match fault {
        CompileFault::Parse(ParseFault::Syntax(at)) => {
            let number = token_at(&tokens, *at).unwrap_or(tokens.len());
            match syntax_mistake(alloc, text, &tokens, *at)? {
                Some(told) => said(alloc, &tokens, number, &told),
                None => Ok(Advice::Expected),
            }
        }
        CompileFault::Names(NameFault::Unknown(at)) => match token_at(&tokens, *at) {
            Some(number) => {
                let told = unknown(alloc, &tokens, number)?;
                said(alloc, &tokens, number, &told)
            }
            None => Ok(Advice::Unsaid),
        },
        _ => Ok(Advice::Unsaid),
    }
}

/// Returns the edit that is said of a mistake, for a fault at the token with a number.
fn said(
    alloc: Global,
    tokens: &[Token],
    number: usize,
    told: &Told<'_>,
) -> Result<Advice, NoMemory> {
    match told.repair {
        Repair::Unsaid => Ok(Advice::Unsaid),
        Repair::Declare => Ok(Advice::Declare),
        Repair::Insert(word) => {
            let bytes = inserted(alloc, word)?;
            let at = end_before(tokens, number);
            Ok(Advice::Edit {
                start: at,
                end: at,
                bytes,
            })
        }
        Repair::Remove(number) => Ok(replacing(tokens, number, Vec::new(alloc))),
        Repair::Replace { number, word, rest } => {
            let bytes = two_words(alloc, word, rest)?;
            Ok(replacing(tokens, number, bytes))
        }
    }
}

/// Returns the edit that writes bytes in the place of the token with a number.
fn replacing(tokens: &[Token], number: usize, bytes: Vec<u8>) -> Advice {
    let Some(token) = tokens.get(number) else {
        return Advice::Unsaid;
    };
    Advice::Edit {
        start: token.start(),
        end: token.end(),
        bytes,
    }
}

/// Returns the offset after the token before the one with a number.
fn end_before(tokens: &[Token], number: usize) -> usize {
    match number.checked_sub(1) {
        Some(before) => match tokens.get(before) {
            Some(token) => token.end(),
            None => 0,
        },
        None => 0,
    }
}

/// Returns a word or symbol as it is inserted: with a blank before it, unless it is a symbol that needs none.
fn inserted(alloc: Global, word: &str) -> Result<Vec<u8>, AllocError> {
    let mut bytes = Vec::new(alloc);
    if !matches!(word, ";" | "," | ")") {
        bytes.push(b' ')?;
    }
    bytes.extend_from_slice(word.as_bytes())?;
    Ok(bytes)
}

/// Returns a word, with another one and a blank before that, if it is not empty.
fn two_words(alloc: Global, word: &[u8], rest: &[u8]) -> Result<Vec<u8>, AllocError> {
    let mut bytes = Vec::from_slice(alloc, word)?;
    if !rest.is_empty() {
        bytes.push(b' ')?;
        bytes.extend_from_slice(rest)?;
    }
    Ok(bytes)
}

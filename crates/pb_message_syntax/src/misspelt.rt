//! Words that are probably misspelt: a reserved word, an integer or a resource is near, and fits there.

use pb_base::NoMemory;
use pb_lexer::{LexFault, Mark, Token, lex};
use pb_message_excerpts::{is_near, nearest};
use pb_mistakes::tokens::{RESERVED, is_at, is_declared, is_name, process_before, text_at};
use pb_mistakes::{Told, telling};
use pb_parser::{ParseFault, parse};
use std::alloc::{AllocError, Global};
use std::str;

/// A word of a text that is probably misspelt, and what is probably meant.
#[derive(Clone, Copy)]
pub struct Misspelt<'t> {
    /// The number of its token.
    pub number: usize,
    /// The word that is meant.
    pub word: &'t [u8],
    /// What is meant after that word and a blank; nothing if it is empty.
    pub rest: &'t [u8],
}

impl<'t> Misspelt<'t> {
    /// Returns the mistake in words, for a fault at the token with a number.
    pub fn told(&self, tokens: &[Token<'t>], number: usize) -> Told<'t> {
        let summary = "`@1` is not a word of the language";
        let hint = if self.rest.is_empty() {
            "did you mean `@2`?"
        } else {
            "did you mean `@2 @3`, with a blank between them?"
        };
        let told = telling(summary, hint)
            .with_words(text_at(tokens, self.number), self.word, self.rest)
            .replacing_by_two(self.number, self.word, self.rest);
        if self.number == number {
            told
        } else {
            told.placed("`@1`: ", tokens.get(self.number))
        }
    }
}

/// Returns the word that is probably misspelt, if the token with a number cannot come where it is: that token or the one
/// before it, if with another word the fault is gone or further on.
pub fn misspelt_word<'t>(
    alloc: Global,
    text: &'t [u8],
    tokens: &[Token<'t>],
    number: usize,
) -> Result<Option<Misspelt<'t>>, NoMemory> {
    if let Some(found) = misspelt_at(alloc, text, tokens, number, number)? {
        return Ok(Some(found));
    }
    match number.checked_sub(1) {
        Some(before) => misspelt_at(alloc, text, tokens, before, number),
        None => Ok(None),
    }
}

/// Returns the same of the token with the first number, for a fault at the one with the second.
fn misspelt_at<'t>(
    alloc: Global,
    text: &'t [u8],
    tokens: &[Token<'t>],
    word: usize,
    number: usize,
) -> Result<Option<Misspelt<'t>>, NoMemory> {
    if !is_name(tokens, word) || is_declared(tokens, word) {
        return Ok(None);
    }
    let trial = Trial {
        text,
        start: start_of(tokens, word),
        end: end_of(tokens, word),
        behind: behind(text, tokens, number),
    };
    let name = text_at(tokens, word);
    let found = match split_word(alloc, trial, name, true)? {
        Some(found) => Some(found),
        None => match near_reserved(alloc, trial, name)? {
            Some(found) => Some((found, &name[name.len()..])),
            None => split_word(alloc, trial, name, false)?,
        },
    };
    Ok(match found {
        Some((meant, rest)) => Some(Misspelt {
            number: word,
            word: meant,
            rest,
        }),
        None => None,
    })
}

fn start_of(tokens: &[Token], number: usize) -> usize {
    match tokens.get(number) {
        Some(token) => token.start(),
        None => 0,
    }
}

fn end_of(tokens: &[Token], number: usize) -> usize {
    match tokens.get(number) {
        Some(token) => token.end(),
        None => 0,
    }
}

/// Returns how many bytes of a text are after the token with a number; none if no token has it.
fn behind(text: &[u8], tokens: &[Token], number: usize) -> Option<usize> {
    let token = tokens.get(number)?;
    Some(text.len().saturating_sub(token.end()))
}

/// Another word that is tried in a text.
#[derive(Clone, Copy)]
struct Trial<'t> {
    text: &'t [u8],
    // Where the word is that is replaced.
    start: usize,
    end: usize,
    // How many bytes are after the token that cannot come where it is, if there is one.
    behind: Option<usize>,
}

/// Returns whether a word fits, with what is behind it and a blank: with it no fault of the grammar is left, or only one
/// further on.
fn fits(alloc: Global, trial: Trial<'_>, word: &[u8], rest: &[u8]) -> Result<bool, NoMemory> {
    let text = with_word(alloc, trial, word, rest)?;
    match grammar_fault(alloc, &text)? {
        None => Ok(true),
        Some(at) => Ok(match trial.behind {
            Some(behind) => text.len().saturating_sub(at) <= behind,
            None => false,
        }),
    }
}

/// Returns the text with a word in its place.
fn with_word(
    alloc: Global,
    trial: Trial<'_>,
    word: &[u8],
    rest: &[u8],
) -> Result<Vec<u8>, NoMemory> {
    let length = trial.text.len();
    let mut text = Vec::from_slice(alloc, &trial.text[..trial.start.min(length)])?;
    text.extend_from_slice(word)?;
    if !rest.is_empty() {
        text.push(b' ')?;
        text.extend_from_slice(rest)?;
    }
    text.extend_from_slice(&trial.text[trial.end.min(length)..])?;
    Ok(text)
}

/// Returns the offset of the fault of the grammar of a text, if it has one.
pub fn grammar_fault(alloc: Global, text: &[u8]) -> Result<Option<usize>, NoMemory> {
    match lex(alloc, text) {
        Ok(tokens) => fault_of(alloc, &tokens),
        Err(LexFault::NoMemory) => Err(NoMemory),
        Err(_) => Ok(Some(0)),
    }
}

/// Returns the offset of the fault of the grammar of tokens, if they have one.
pub fn fault_of(alloc: Global, tokens: &[Token]) -> Result<Option<usize>, NoMemory> {
    match parse(alloc, tokens) {
        Err(ParseFault::Syntax(at)) => Ok(Some(at)),
        Err(ParseFault::NoMemory) => Err(NoMemory),
        _ => Ok(None),
    }
}

/// Returns the reserved word that is nearest to a name, of those that are near and fit.
fn near_reserved<'t>(
    alloc: Global,
    trial: Trial<'_>,
    name: &[u8],
) -> Result<Option<&'t [u8]>, NoMemory> {
    let name = small(alloc, name)?;
    if name.len() < 2 {
        return Ok(None);
    }
    let fitting = fitting_words(alloc, trial, &name)?;
    let number = nearest(alloc, name.as_str(), fitting.as_slice())?;
    Ok(match number {
        Some(number) => match fitting.get(number) {
            Some(word) => Some(word.as_bytes()),
            None => None,
        },
        None => None,
    })
}

/// Returns the reserved words that are near a name and fit.
fn fitting_words(
    alloc: Global,
    trial: Trial<'_>,
    name: &String,
) -> Result<Vec<&'static str>, NoMemory> {
    let mut fitting = Vec::new(alloc);
    for word in &RESERVED {
        if is_fitting(alloc, trial, name, word)? {
            fitting.push(*word)?;
        }
    }
    Ok(fitting)
}

/// Returns whether a reserved word is near a name and fits.
fn is_fitting(
    alloc: Global,
    trial: Trial<'_>,
    name: &String,
    word: &str,
) -> Result<bool, NoMemory> {
    if is_near(alloc, name.as_str(), word)? {
        fits(alloc, trial, word.as_bytes(), b"")
    } else {
        Ok(false)
    }
}

/// Returns bytes of ASCII as a text in small letters.
fn small(alloc: Global, bytes: &[u8]) -> Result<String, AllocError> {
    let mut text = String::new(alloc);
    for byte in bytes {
        text.push(char::from(byte.to_ascii_lowercase()))?;
    }
    Ok(text)
}

/// Returns the reserved word with which a name begins and the rest of the name, if that is a number, or else anything,
/// and both fit with a blank between them.
fn split_word<'t>(
    alloc: Global,
    trial: Trial<'_>,
    name: &'t [u8],
    is_number: bool,
) -> Result<Option<(&'t [u8], &'t [u8])>, NoMemory> {
    for word in &RESERVED {
        if let Some(rest) = name.strip_prefix(word.as_bytes()) {
            if is_rest(rest, is_number) && fits(alloc, trial, word.as_bytes(), rest)? {
                return Ok(Some((word.as_bytes(), rest)));
            }
        }
    }
    Ok(None)
}

/// Returns whether this may be a token after a reserved word: a number, or else a name.
fn is_rest(rest: &[u8], is_number: bool) -> bool {
    if is_number {
        !rest.is_empty() && rest.iter().all(|byte| byte.is_ascii_digit())
    } else {
        rest.first().is_some_and(|byte| byte.is_ascii_alphabetic())
    }
}

/// Returns the name that is probably meant by the name that the token with a number is and that is not declared: that of
/// a resource after `of`, and else that of an integer of the process.
pub fn meant_name<'t>(
    alloc: Global,
    tokens: &[Token<'t>],
    number: usize,
) -> Result<Option<usize>, NoMemory> {
    let name = text_at(tokens, number);
    if name.len() < 2 {
        return Ok(None);
    }
    let declared = if is_at(tokens, number.saturating_sub(1), Mark::Of) {
        resources(alloc, tokens)?
    } else {
        integers(alloc, tokens, number)?
    };
    let alike = with_digits(alloc, tokens, &declared, name)?;
    nearest_of(alloc, tokens, alike.as_slice(), name)
}

/// Returns the numbers of the tokens with which resources are declared.
fn resources(alloc: Global, tokens: &[Token]) -> Result<Vec<usize>, NoMemory> {
    let mut found = Vec::new(alloc);
    for i in 0..tokens.len() {
        if is_at(tokens, i, Mark::Resource) {
            found.push(i.saturating_add(1))?;
        }
    }
    Ok(found)
}

/// Returns the numbers of the tokens with which the integers of the process are declared in which a token is.
fn integers(alloc: Global, tokens: &[Token], number: usize) -> Result<Vec<usize>, NoMemory> {
    let mut found = Vec::new(alloc);
    let mut is_in = false;
    for i in process_before(tokens, number).unwrap_or(0)..number {
        if is_at(tokens, i, Mark::Integer) {
            is_in = true;
        } else if is_in && is_name(tokens, i) {
            found.push(i)?;
        } else if !is_at(tokens, i, Mark::Comma) {
            is_in = false;
        }
    }
    Ok(found)
}

/// Returns those of some tokens that have the same digits as a name: `x1` is not `x2` misspelt.
fn with_digits(
    alloc: Global,
    tokens: &[Token],
    declared: &[usize],
    name: &[u8],
) -> Result<Vec<usize>, NoMemory> {
    let digits = digits_of(alloc, name)?;
    let mut found = Vec::new(alloc);
    for number in declared {
        if digits_of(alloc, text_at(tokens, *number))? == digits {
            found.push(*number)?;
        }
    }
    Ok(found)
}

fn digits_of(alloc: Global, name: &[u8]) -> Result<Vec<u8>, AllocError> {
    let mut digits = Vec::new(alloc);
    for byte in name {
        if byte.is_ascii_digit() {
            digits.push(*byte)?;
        }
    }
    Ok(digits)
}

/// Returns which of some tokens is nearest to a name, if one is near.
fn nearest_of(
    alloc: Global,
    tokens: &[Token],
    declared: &[usize],
    name: &[u8],
) -> Result<Option<usize>, NoMemory> {
    let mut words = Vec::new(alloc);
    for number in declared {
        words.push(as_text(text_at(tokens, *number)))?;
    }
    let found = nearest(alloc, as_text(name), words.as_slice())?;
    Ok(match found {
        Some(found) => declared.get(found).copied(),
        None => None,
    })
}

/// Returns a name as a text; nothing if it is not in UTF-8, as no name is.
fn as_text(name: &[u8]) -> &str {
    str::from_utf8(name).unwrap_or("")
}

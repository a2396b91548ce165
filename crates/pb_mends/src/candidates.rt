//! Edits that may mend a text: those that its message says. Each is tried before it is proposed.

use crate::mend::Mend;
use pb_base::NoMemory;
use pb_codegen::ClaimsFault;
use pb_lexer::{Kind, Mark, Token};
use std::alloc::Global;

/// What may be missing after a token.
const MISSING: [&str; 9] = [
    ";", " of", " then", " do", " skip", " fi", " od", " end", " parend",
];

/// Returns the edit that writes bytes at an offset.
fn insertion(title: String, at: usize, bytes: String) -> Mend {
    Mend {
        title,
        start: at,
        end: at,
        bytes,
    }
}

/// Returns the offset after the last token that ends at an offset or before it; 0 if none does.
fn end_before(tokens: &[Token<'_>], at: usize) -> usize {
    let mut end = 0;
    for token in tokens {
        if token.end() <= at {
            end = token.end();
        }
    }
    end
}

/// Appends to `out` the edits that write a missing word or symbol before an offset.
pub fn add_missing(
    alloc: Global,
    out: &mut Vec<Mend>,
    tokens: &[Token<'_>],
    at: usize,
) -> Result<(), NoMemory> {
    let end = end_before(tokens, at);
    for word in MISSING {
        let title = format!(in alloc; "insert `{}`", word.trim_start())?;
        let bytes = String::from_str(alloc, word)?;
        out.push(insertion(title, end, bytes))?;
    }
    Ok(())
}

/// Appends to `out` the edit that writes bytes in the place of those from one offset up to another, which a message says.
pub fn add_edit(
    alloc: Global,
    out: &mut Vec<Mend>,
    text: &[u8],
    start: usize,
    end: usize,
    bytes: &[u8],
) -> Result<(), NoMemory> {
    let bytes = String::from_utf8_lossy(alloc, bytes)?;
    let title = if start == end {
        format!(in alloc; "insert `{}`", bytes.trim_start())?
    } else if bytes.is_empty() {
        let left_out = String::from_utf8_lossy(alloc, part_of(text, start, end))?;
        format!(in alloc; "leave `{}` out", left_out)?
    } else {
        format!(in alloc; "write `{}`", bytes)?
    };
    out.push(Mend {
        title,
        start,
        end,
        bytes,
    })?;
    Ok(())
}

/// Returns the bytes of a text from one offset up to another.
fn part_of(text: &[u8], start: usize, end: usize) -> &[u8] {
    let end = end.min(text.len());
    &text[start.min(end)..end]
}

/// Returns whether a token is this symbol or reserved word.
fn is(token: &Token<'_>, mark: Mark) -> bool {
    token.kind() == Kind::Mark(mark)
}

/// The parts of a process that stand before a name: where its `begin` ends, and the `;` after its integers.
#[derive(Clone, Copy)]
struct Head {
    begin: Option<usize>,
    declares: bool,
    semicolon: Option<usize>,
}

impl Head {
    /// Returns the parts of a process after the word `process`.
    fn new() -> Head {
        Head {
            begin: None,
            declares: false,
            semicolon: None,
        }
    }

    /// Returns the parts with one token more.
    fn with(self, token: &Token<'_>) -> Head {
        if is(token, Mark::Process) {
            return Head::new();
        }
        let mut head = self;
        if is(token, Mark::Begin) && head.begin.is_none() {
            head.begin = Some(token.end());
        }
        if is(token, Mark::Integer) {
            head.declares = true;
        }
        if is(token, Mark::Semicolon) && head.semicolon.is_none() {
            head.semicolon = Some(token.start());
        }
        head
    }
}

/// Returns the parts of the process in which an offset is.
fn head_before(tokens: &[Token<'_>], at: usize) -> Head {
    let mut head = Head::new();
    for token in tokens {
        if token.start() < at {
            head = head.with(token);
        }
    }
    head
}

/// Returns the bytes of the token at an offset.
fn text_at<'t>(tokens: &[Token<'t>], at: usize) -> &'t [u8] {
    let mut text: &'t [u8] = b"";
    for token in tokens {
        if token.start() == at {
            text = token.text();
        }
    }
    text
}

/// Appends to `out` the edit that declares the integer at an offset in its process.
pub fn add_declaration(
    alloc: Global,
    out: &mut Vec<Mend>,
    tokens: &[Token<'_>],
    at: usize,
) -> Result<(), NoMemory> {
    let name = String::from_utf8_lossy(alloc, text_at(tokens, at))?;
    let head = head_before(tokens, at);
    let title = format!(in alloc; "declare integer {}", name)?;
    match (head.begin, head.declares, head.semicolon) {
        (Some(_), true, Some(at)) => {
            let bytes = format!(in alloc; ", {}", name)?;
            out.push(insertion(title, at, bytes))?;
        }
        (Some(at), false, _) => {
            let bytes = format!(in alloc; " integer {};", name)?;
            out.push(insertion(title, at, bytes))?;
        }
        _ => {}
    }
    Ok(())
}

/// Appends to `out` the edit that gives a resource the capital that is claimed.
pub fn add_capital(
    alloc: Global,
    out: &mut Vec<Mend>,
    tokens: &[Token<'_>],
    fault: &ClaimsFault,
) -> Result<(), NoMemory> {
    let name = String::from_utf8_lossy(alloc, &fault.resource)?;
    for i in 2..tokens.len() {
        let is_capital = is(&tokens[i - 1], Mark::Equal)
            && tokens[i - 2].text() == &fault.resource[..];
        if is_capital {
            let claim = fault.claim;
            out.push(Mend {
                title: format!(in alloc; "make the capital of {} {}", name, claim)?,
                start: tokens[i].start(),
                end: tokens[i].end(),
                bytes: format!(in alloc; "{}", claim)?,
            })?;
            return Ok(());
        }
    }
    Ok(())
}

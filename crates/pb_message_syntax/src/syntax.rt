//! The wording of a fault of the grammar: the mistake that was probably made, or else what may come where
//! the text goes wrong.

use crate::mistakes::likely_mistake;
use pb_base::NoMemory;
use pb_lexer::{LexFault, Token, lex};
use pb_mistakes::tokens::{text_at, token_at};
use pb_mistakes::{Shown, Told, Wording};
use pb_parser::{ParseFault, parse};
use std::alloc::{AllocError, Global};

/// What may come at a place of the text, tried by one spelling of it.
struct Probe {
    spelling: &'static str,
    name: &'static str,
    part_of: Part,
}

/// The longer phrases of which a token may be the beginning.
#[derive(Clone, Copy, PartialEq, Eq)]
enum Part {
    // It is shown wherever it may come.
    Alone,
    // It is not shown where a statement may come.
    Statement,
    // It is not shown where an expression may come.
    Expression,
    // It is not shown where a statement or an expression may come.
    Either,
    // It is not shown where an operator may come.
    Operator,
}

const STATEMENT: &str = "skip";

const EXPRESSION: &str = "(";

const OPERATOR: &str = "*";

const PROBES: [Probe; 19] = [
    Probe {
        spelling: "x",
        name: "a name",
        part_of: Part::Either,
    },
    Probe {
        spelling: "1",
        name: "a number",
        part_of: Part::Expression,
    },
    Probe {
        spelling: ":=",
        name: "`:=`",
        part_of: Part::Alone,
    },
    Probe {
        spelling: "=",
        name: "`=`",
        part_of: Part::Operator,
    },
    Probe {
        spelling: ";",
        name: "`;`",
        part_of: Part::Alone,
    },
    Probe {
        spelling: ",",
        name: "`,`",
        part_of: Part::Alone,
    },
    Probe {
        spelling: ")",
        name: "`)`",
        part_of: Part::Alone,
    },
    Probe {
        spelling: "begin",
        name: "`begin`",
        part_of: Part::Statement,
    },
    Probe {
        spelling: "do",
        name: "`do`",
        part_of: Part::Alone,
    },
    Probe {
        spelling: "else",
        name: "`else`",
        part_of: Part::Alone,
    },
    Probe {
        spelling: "end",
        name: "`end`",
        part_of: Part::Alone,
    },
    Probe {
        spelling: "fi",
        name: "`fi`",
        part_of: Part::Alone,
    },
    Probe {
        spelling: "integer",
        name: "`integer`",
        part_of: Part::Alone,
    },
    Probe {
        spelling: "od",
        name: "`od`",
        part_of: Part::Alone,
    },
    Probe {
        spelling: "of",
        name: "`of`",
        part_of: Part::Alone,
    },
    Probe {
        spelling: "parend",
        name: "`parend`",
        part_of: Part::Alone,
    },
    Probe {
        spelling: "process",
        name: "`process`",
        part_of: Part::Alone,
    },
    Probe {
        spelling: "resource",
        name: "`resource`",
        part_of: Part::Alone,
    },
    Probe {
        spelling: "then",
        name: "`then`",
        part_of: Part::Alone,
    },
];

/// Which phrases may begin at a place.
#[derive(Clone, Copy)]
struct Phrases {
    statement: bool,
    expression: bool,
    operator: bool,
}

/// Returns the wording of a fault of the grammar of a text.
pub fn parse_wording(alloc: Global, text: &[u8], fault: ParseFault) -> Result<Wording, NoMemory> {
    match fault {
        ParseFault::Syntax(at) => syntax_wording(alloc, text, at),
        ParseFault::TooDeep => Ok(too_deep(alloc)),
        ParseFault::TooLarge => Ok(Wording::of(
            alloc,
            "the program has more than 16384 expressions, statements and processes",
        )),
        ParseFault::NoMemory => Err(NoMemory),
    }
}

fn too_deep(alloc: Global) -> Wording {
    Wording::noted(
        alloc,
        "the text is nested too deeply",
        "hint: the limits are 256 open brackets and statements, 256 of `-` and `not` in a row, and a tree 200 high",
    )
}

/// Returns the mistake that was probably made in a text with these tokens, whose grammar has its fault at an offset;
/// nothing if none is likely.
pub fn syntax_mistake<'t>(
    alloc: Global,
    text: &'t [u8],
    tokens: &[Token<'t>],
    at: usize,
) -> Result<Option<Told<'t>>, NoMemory> {
    let number = token_at(tokens, at).unwrap_or(tokens.len());
    likely_mistake(alloc, text, tokens, number)
}

fn syntax_wording(alloc: Global, text: &[u8], at: usize) -> Result<Wording, NoMemory> {
    let Ok(tokens) = lex(alloc, text) else {
        return Err(NoMemory);
    };
    let number = token_at(&tokens, at).unwrap_or(tokens.len());
    match syntax_mistake(alloc, text, &tokens, at)? {
        Some(told) => Ok(told.wording(alloc)),
        None => unexpected(alloc, &text[..at.min(text.len())], &tokens, number),
    }
}

/// Returns the wording that says what may come after the first part of a text, in the place of the token with a number.
fn unexpected(
    alloc: Global,
    text: &[u8],
    tokens: &[Token],
    number: usize,
) -> Result<Wording, NoMemory> {
    let expected = expected(alloc, text)?;
    let mut wording = Wording::new(alloc, unexpected_in_words(alloc, tokens, number));
    if let Some(expected) = expected {
        wording.note(Ok(expected));
    }
    Ok(wording)
}

fn unexpected_in_words(
    alloc: Global,
    tokens: &[Token],
    number: usize,
) -> Result<String, AllocError> {
    if number < tokens.len() {
        format!(in alloc; "unexpected `{}`", Shown(text_at(tokens, number)))
    } else {
        String::from_str(alloc, "unexpected end of the text")
    }
}

/// Returns the line that says what may come after the first part of a text; nothing if no token may.
fn expected(alloc: Global, text: &[u8]) -> Result<Option<String>, NoMemory> {
    let phrases = phrases_behind(alloc, text)?;
    let mut line = String::from_str(alloc, "expected: ")?;
    let empty = line.len();
    put_choices(alloc, &mut line, text, phrases)?;
    if line.len() == empty {
        return Ok(None);
    }
    Ok(Some(line))
}

/// Returns which phrases may begin after the first part of a text.
fn phrases_behind(alloc: Global, text: &[u8]) -> Result<Phrases, NoMemory> {
    Ok(Phrases {
        statement: may_follow(alloc, text, STATEMENT)?,
        expression: may_follow(alloc, text, EXPRESSION)?,
        operator: may_follow(alloc, text, OPERATOR)?,
    })
}

/// Appends to `line`, the beginning of a line, what may come after the first part of a text.
fn put_choices(
    alloc: Global,
    line: &mut String,
    text: &[u8],
    phrases: Phrases,
) -> Result<(), NoMemory> {
    let empty = line.len();
    put_choice(line, empty, phrases.statement, "a statement")?;
    put_choice(line, empty, phrases.expression, "an expression")?;
    put_choice(line, empty, phrases.operator, "an operator")?;
    for probe in &PROBES {
        put_probe(alloc, line, empty, text, phrases, probe)?;
    }
    Ok(())
}

/// Appends to `line`, a line that was `empty` bytes long, what a probe tries, if it may come after the first part of
/// a text and is shown beside these phrases.
fn put_probe(
    alloc: Global,
    line: &mut String,
    empty: usize,
    text: &[u8],
    phrases: Phrases,
    probe: &Probe,
) -> Result<(), NoMemory> {
    let is_one = is_told(probe.part_of, phrases) && may_follow(alloc, text, probe.spelling)?;
    put_choice(line, empty, is_one, probe.name)
}

/// Appends one more choice to `line`, a line that was `empty` bytes long, if it is one.
fn put_choice(line: &mut String, empty: usize, is_one: bool, choice: &str) -> Result<(), NoMemory> {
    if !is_one {
        return Ok(());
    }
    if line.len() > empty {
        line.push_str(" or ")?;
    }
    line.push_str(choice)?;
    Ok(())
}

/// Returns whether what is part of these phrases is shown beside them.
fn is_told(part_of: Part, phrases: Phrases) -> bool {
    match part_of {
        Part::Alone => true,
        Part::Statement => !phrases.statement,
        Part::Expression => !phrases.expression,
        Part::Either => !phrases.statement && !phrases.expression,
        Part::Operator => !phrases.operator,
    }
}

/// Returns whether a token may come after the first part of a text: some program begins so.
fn may_follow(alloc: Global, text: &[u8], token: &str) -> Result<bool, NoMemory> {
    let mut longer = Vec::from_slice(alloc, text)?;
    longer.push(b' ')?;
    longer.extend_from_slice(token.as_bytes())?;
    begins_program(alloc, &longer)
}

/// Returns whether some program begins with this text.
fn begins_program(alloc: Global, text: &[u8]) -> Result<bool, NoMemory> {
    let tokens = match lex(alloc, text) {
        Ok(tokens) => tokens,
        Err(LexFault::NoMemory) => return Err(NoMemory),
        Err(_) => return Ok(false),
    };
    match parse(alloc, &tokens) {
        Ok(_) => Ok(true),
        Err(ParseFault::Syntax(at)) => Ok(at == text.len()),
        Err(ParseFault::NoMemory) => Err(NoMemory),
        Err(_) => Ok(false),
    }
}

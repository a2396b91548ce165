//! What the tokens of a text declare, whether or not they are a program.

ghost use Rattle.std.specs.Prelude.{◌≡◌, ◌≤◌, ◌<◌, ◌++◌, IfOk, OnOk, map};
ghost use Rattle.pb_lexer.specs.Tokens.{token as token_view, tokens as tokens_view};
ghost use Rattle.pb_outline.specs.Declares as spec;
ghost use Rattle.pb_outline.specs.Places.{place};

use crate::place::{Kind, Place};
use pb_base::NoMemory;
use pb_lexer::{Kind as Lexeme, Mark, Token};
use std::alloc::Global;

/// What the next name declares.
#[derive(Clone, Copy, Debug, PartialEq, Eq)]
pub enum Coming {
    Nothing,
    Resource,
    Process,
    /// An integer, and what comes after a comma too.
    Integers,
}

/// What is known after some tokens: what the next name declares, and how many processes were named.
#[derive(Clone, Copy, Debug)]
pub struct Reading {
    pub coming: Coming,
    pub processes: usize,
}

/// Returns what the next name declares after a symbol or a reserved word.
fn behind_mark(mark: Mark, before: Coming) -> Coming
    ensures { result ≡ spec.behind_mark mark before }
{
    match mark {
        Mark::Resource => Coming::Resource,
        Mark::Process => Coming::Process,
        Mark::Integer => Coming::Integers,
        Mark::Comma => match before {
            Coming::Integers => Coming::Integers,
            _ => Coming::Nothing,
        },
        _ => Coming::Nothing,
    }
}

/// Returns what is known after a name.
fn behind_name(before: Reading) -> Reading
    requires { before.processes < 18446744073709551615 }
    ensures { result ≡ spec.behind_name before.coming before.processes }
{
    match before.coming {
        Coming::Process => Reading {
            coming: Coming::Nothing,
            processes: before.processes + 1,
        },
        Coming::Integers => before,
        _ => Reading {
            coming: Coming::Nothing,
            processes: before.processes,
        },
    }
}

/// Returns what is known after a token.
fn behind_token(before: Reading, token: &Token<'_>) -> Reading
    requires { before.processes < 18446744073709551615 }
    ensures { result ≡ spec.behind_token before (token_view token.now) }
{
    match token.kind() {
        Lexeme::Name => behind_name(before),
        Lexeme::Number(_) => Reading {
            coming: Coming::Nothing,
            processes: before.processes,
        },
        Lexeme::Mark(mark) => Reading {
            coming: behind_mark(mark, before.coming),
            processes: before.processes,
        },
    }
}

/// Returns what a name declares.
fn kind_named(before: Reading) -> Option<Kind>
    ensures { result ≡ spec.kind_named before.coming before.processes }
{
    match before.coming {
        Coming::Nothing => None,
        Coming::Resource => Some(Kind::Resource),
        Coming::Process => Some(Kind::Process),
        Coming::Integers => {
            let process = before.processes.checked_sub(1)?;
            Some(Kind::Integer(process))
        }
    }
}

/// Appends to `out` what a name declares, if it declares something.
fn add_named<'t>(
    out: &mut Vec<Place<'t>>,
    kind: Option<Kind>,
    token: &Token<'t>,
) -> Result<(), NoMemory>
    ensures { OnOk result (map place out.new.items
        ≡ map place out.old.items ++ spec.named kind (token_view token.now)) }
{
    let Some(kind) = kind else {
        return Ok(());
    };
    out.push(Place {
        kind,
        text: token.text(),
        at: token.start(),
        declares: true,
    })?;
    Ok(())
}

/// Appends to `out` what a token declares, if it declares something.
fn add_declared<'t>(
    out: &mut Vec<Place<'t>>,
    before: Reading,
    token: &Token<'t>,
) -> Result<(), NoMemory>
    ensures { OnOk result (map place out.new.items ≡ map place out.old.items
        ++ spec.declared_here before (token_view token.now) (token_view token.now).lexeme) }
{
    match token.kind() {
        Lexeme::Name => add_named(out, kind_named(before), token),
        Lexeme::Number(_) | Lexeme::Mark(_) => Ok(()),
    }
}

/// Returns what tokens declare, in their order.
#[tactic(auto, using(crate::proofs::Declarings::one_token_more))]
pub(crate) fn declared_by<'t>(
    alloc: Global,
    tokens: &[Token<'t>],
) -> Result<Vec<Place<'t>>, NoMemory>
    ensures { IfOk result (λ found. map place found.items ≡ spec.declared_by (tokens_view tokens.now)) }
{
    let mut found = Vec::new(alloc);
    let mut reading = Reading {
        coming: Coming::Nothing,
        processes: 0,
    };
    for i in 0..tokens.len() {
        add_declared(&mut found, reading, &tokens[i])?;
        reading = behind_token(reading, &tokens[i]);
    }
    Ok(found)
}

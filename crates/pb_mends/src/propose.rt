//! The edits that mend a text.

ghost use Rattle.std.specs.Prelude.{◌≡◌, All, IfOk, true};
ghost use Rattle.pb_codegen.specs.Compiled.{IsRefused};
ghost use Rattle.pb_lexer.specs.Cutting.{AreTokensOf};
ghost use Rattle.pb_lexer.specs.Tokens.{tokens as tokens_view};
ghost use Rattle.pb_mends.specs.Mends.{HasCause, Mends, edit_of};

use crate::candidates::{add_capital, add_declaration, add_edit, add_missing};
use crate::further::gets_further;
use crate::kept::keeps_others;
use crate::mend::{Mend, edited};
use bumpalo::Bump;
use pb_accept::text_cause;
use pb_base::NoMemory;
use pb_codegen::{CompileFault, compile};
use pb_lexer::{LexFault, Token, lex};
use pb_message_wording::{Advice, advice_of};
use std::alloc::Global;

/// Returns whether an edit is one of the text, whose other tokens it keeps, and the text gets further with it.
fn mends_it(
    alloc: Global,
    text: &[u8],
    tokens: &[Token<'_>],
    fault: &CompileFault,
    mend: &Mend,
) -> Result<bool, NoMemory>
    requires tokens { AreTokensOf text.now (tokens_view tokens.now) }
    requires refused { IsRefused text.now fault.now }
    requires told { HasCause fault.now }
    ensures { IfOk result (λ is. is ≡ true → Mends text.now (edit_of mend.now)) }
{
    if mend.end < mend.start || text.len() < mend.end {
        return Ok(false);
    }
    let after = edited(alloc, text, mend)?;
    let left = after.as_slice();
    let keeps = keeps_others(alloc, text, tokens, mend, left)?;
    if keeps {
        gets_further(alloc, text, fault, left)
    } else {
        Ok(false)
    }
}

/// Returns the edits that may mend a text with this fault and these tokens: those that its message says.
fn candidates(
    alloc: Global,
    text: &[u8],
    tokens: &[Token<'_>],
    fault: &CompileFault,
) -> Result<Vec<Mend>, NoMemory> {
    let mut out = Vec::new(alloc);
    if let CompileFault::Claims(over) = fault {
        add_capital(alloc, &mut out, tokens, over)?;
        return Ok(out);
    }
    let at = offset_of(fault);
    match advice_of(alloc, text, fault)? {
        Advice::Unsaid => {}
        Advice::Expected => add_missing(alloc, &mut out, tokens, at)?,
        Advice::Declare => add_declaration(alloc, &mut out, tokens, at)?,
        Advice::Edit { start, end, bytes } => {
            add_edit(alloc, &mut out, text, start, end, &bytes)?;
        }
    }
    Ok(out)
}

/// Returns the offset of a fault; 0 if it has none.
fn offset_of(fault: &CompileFault) -> usize {
    match text_cause(fault) {
        Some(cause) => cause.at.unwrap_or(0),
        None => 0,
    }
}

/// Returns those of some edits with which a text gets further.
fn tried(
    alloc: Global,
    text: &[u8],
    tokens: &[Token<'_>],
    fault: &CompileFault,
    candidates: Vec<Mend>,
) -> Result<Vec<Mend>, NoMemory>
    requires tokens { AreTokensOf text.now (tokens_view tokens.now) }
    requires refused { IsRefused text.now fault.now }
    requires told { HasCause fault.now }
    ensures { IfOk result (λ list. All (λ mend. Mends text.now (edit_of mend)) list.items) }
{
    let mut out = Vec::new(alloc);
    for mend in candidates {
        if mends_it(alloc, text, tokens, fault, &mend)? {
            out.push(mend)?;
        }
    }
    Ok(out)
}

/// Returns the edits with which a text with this fault gets further.
fn mends_of(alloc: Global, text: &[u8], fault: &CompileFault) -> Result<Vec<Mend>, NoMemory>
    requires refused { IsRefused text.now fault.now }
    requires told { HasCause fault.now }
    ensures { IfOk result (λ list. All (λ mend. Mends text.now (edit_of mend)) list.items) }
{
    match lex(alloc, text) {
        Ok(tokens) => {
            let candidates = candidates(alloc, text, &tokens, fault)?;
            tried(alloc, text, &tokens, fault, candidates)
        }
        Err(LexFault::NoMemory) => Err(NoMemory),
        Err(_) => Ok(Vec::new(alloc)),
    }
}

/// Returns edits with which a text that is refused gets further; none if it is accepted, or if none is known. The error
/// comes only if out of memory.
pub fn propose_mends(alloc: Global, text: &[u8]) -> Result<Vec<Mend>, NoMemory>
    ensures { IfOk result (λ list. All (λ mend. Mends text.now (edit_of mend)) list.items) }
{
    let arena = Bump::new(alloc);
    match compile(alloc, &arena, text) {
        Ok(_) => Ok(Vec::new(alloc)),
        Err(fault) => match text_cause(&fault) {
            Some(_) => mends_of(alloc, text, &fault),
            None => Err(NoMemory),
        },
    }
}

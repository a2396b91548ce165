//! Whether a text is refused further on than another one.

ghost use Rattle.std.specs.Prelude.{◌≡◌, IfOk, true, false};
ghost use Rattle.pb_codegen.specs.declared.fault.CompileFault.TheVariants.{Claims};
ghost use Rattle.pb_lexer.specs.Tokens.{tokens as tokens_view};
ghost use Rattle.pb_mends.specs.Mends as spec;
ghost use Rattle.pb_mends.specs.Mends.{GetsFurther, IsFurther, IsLater, IsLaterClaim};

use bumpalo::Bump;
use pb_accept::text_cause;
use pb_base::NoMemory;
use pb_codegen::{ClaimsFault, CompileFault, compile};
use pb_lexer::{LexFault, Token, lex};
use std::alloc::Global;

/// Returns the number of the part that refuses a text.
fn part(fault: &CompileFault) -> u8
    ensures { result ≡ spec.part fault.now }
{
    match fault {
        CompileFault::Lex(_) => 0,
        CompileFault::Parse(_) => 1,
        CompileFault::Names(_) => 2,
        CompileFault::Claims(_) => 3,
        CompileFault::Memory => 4,
    }
}

/// Returns the offset of a fault, if it has one.
fn offset(fault: &CompileFault) -> Option<usize>
    ensures { result ≡ spec.offset fault.now }
{
    match text_cause(fault) {
        Some(cause) => cause.at,
        None => None,
    }
}

/// Returns whether of two texts with their faults both have an offset, and less is after that of the second.
fn is_nearer(text: &[u8], fault: &CompileFault, other_text: &[u8], other: &CompileFault) -> bool
    ensures { result ≡ true → IsLater text.now fault.now other_text.now other.now }
{
    match (offset(fault), offset(other)) {
        (Some(at), Some(other_at)) => {
            other_text.len().saturating_sub(other_at) < text.len().saturating_sub(at)
        }
        _ => false,
    }
}

/// Returns how many tokens are just after a word before one that has this name.
#[tactic(auto, unfolding(crate::specs::Mends::number_from))]
fn number_of(tokens: &[Token<'_>], word: &[u8], name: &[u8]) -> usize
    ensures { result ≡ spec.number_from word.now name.now false (tokens_view tokens.now) 0 }
{
    let mut number = 0usize;
    let mut is_behind = false;
    for token in tokens {
        let text = token.text();
        if is_behind && text == name {
            return number;
        }
        if is_behind {
            number = number.saturating_add(1);
        }
        is_behind = text == word;
    }
    number
}

/// Returns whether of two claims over their capitals the second comes later.
fn is_later_claim(
    tokens: &[Token<'_>],
    over: &ClaimsFault,
    other_tokens: &[Token<'_>],
    other: &ClaimsFault,
) -> bool
    ensures { result ≡ true → IsLaterClaim (tokens_view tokens.now) over.now (tokens_view other_tokens.now) other.now }
{
    let process = number_of(tokens, b"process", &over.process);
    let other_process = number_of(other_tokens, b"process", &other.process);
    let resource = number_of(tokens, b"resource", &over.resource);
    let other_resource = number_of(other_tokens, b"resource", &other.resource);
    process < other_process || (process == other_process && resource < other_resource)
}

/// Returns whether of two texts that are refused for a claim over its capital the second has the later one.
fn has_later_claim(
    alloc: Global,
    text: &[u8],
    over: &ClaimsFault,
    other_text: &[u8],
    other: &ClaimsFault,
) -> Result<bool, NoMemory>
    ensures { IfOk result (λ is. is ≡ true → IsLater text.now (Claims over.now) other_text.now (Claims other.now)) }
{
    match (lex(alloc, text), lex(alloc, other_text)) {
        (Ok(tokens), Ok(other_tokens)) => Ok(is_later_claim(&tokens, over, &other_tokens, other)),
        (Err(LexFault::NoMemory), _) | (_, Err(LexFault::NoMemory)) => Err(NoMemory),
        _ => Ok(false),
    }
}

/// Returns whether of two texts with their faults the second has the later one.
fn is_later(
    alloc: Global,
    text: &[u8],
    fault: &CompileFault,
    other_text: &[u8],
    other: &CompileFault,
) -> Result<bool, NoMemory>
    ensures { IfOk result (λ is. is ≡ true → IsLater text.now fault.now other_text.now other.now) }
{
    match (fault, other) {
        (CompileFault::Claims(over), CompileFault::Claims(other)) => {
            has_later_claim(alloc, text, over, other_text, other)
        }
        _ => Ok(is_nearer(text, fault, other_text, other)),
    }
}

/// Returns whether a text with its fault is refused further on than another one with its fault.
fn is_further(
    alloc: Global,
    text: &[u8],
    fault: &CompileFault,
    other_text: &[u8],
    other: &CompileFault,
) -> Result<bool, NoMemory>
    ensures { IfOk result (λ is. is ≡ true → IsFurther text.now fault.now other_text.now other.now) }
{
    if part(fault) == part(other) {
        is_later(alloc, text, fault, other_text, other)
    } else {
        Ok(part(fault) < part(other))
    }
}

/// Returns whether a text is accepted, or refused further on than another one with its fault.
pub fn gets_further(
    alloc: Global,
    text: &[u8],
    fault: &CompileFault,
    after: &[u8],
) -> Result<bool, NoMemory>
    ensures { IfOk result (λ gets. gets ≡ true → GetsFurther text.now fault.now after.now) }
{
    let arena = Bump::new(alloc);
    match compile(alloc, &arena, after) {
        Ok(_) => Ok(true),
        Err(other) => match text_cause(&other) {
            Some(_) => is_further(alloc, text, fault, after, &other),
            None => Err(NoMemory),
        },
    }
}

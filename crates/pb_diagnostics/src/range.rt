//! Ranges of a text.

ghost use Rattle.std.specs.Prelude.{◌≡◌, ◌≤◌, ℕ, IfOk, false, length};
ghost use Rattle.serde_json.specs.View.{view};
ghost use Rattle.serde_json.specs.Written.{has_float};
ghost use Rattle.pb_diagnostics.specs.Ranges as spec;
ghost use Rattle.pb_diagnostics.specs.Ranges.{IsRange, IsStop};
ghost use Rattle.pb_lexer.specs.Tokens.{tokens as tokens_view};
ghost use Rattle.pb_server_names.specs.Values.{range_data};

use pb_base::NoMemory;
use pb_lexer::{LexFault, Token, lex};
use pb_server_names::range_value;
use serde_json::Value;
use std::alloc::Global;

/// Returns where the token ends that begins at an offset; else what is given.
fn token_end(tokens: &[Token<'_>], at: usize, other: usize) -> usize
    ensures { result ≡ spec.token_end (tokens_view tokens.now) at other }
{
    for i in 0..tokens.len() {
        if tokens[i].start() == at {
            return tokens[i].end();
        }
    }
    other
}

/// Returns where a range ends that begins at an offset.
fn stop_of(alloc: Global, text: &[u8], at: usize) -> Result<usize, NoMemory>
    requires { at ≤ length text.now }
    ensures { IfOk result (λ stop. IsStop text.now at stop) }
{
    let next = at.saturating_add(1);
    match lex(alloc, text) {
        Ok(tokens) => Ok(token_end(tokens.as_slice(), at, next).min(text.len())),
        Err(LexFault::NoMemory) => Err(NoMemory),
        Err(_) => Ok(next.min(text.len())),
    }
}

/// Returns the range of a text that begins at an offset.
pub fn range_at(alloc: Global, text: &[u8], at: usize) -> Result<Value, NoMemory>
    requires { at ≤ length text.now }
    ensures range { IfOk result (λ v. IsRange text.now at (view v)) }
    ensures float_free { IfOk result (λ v. has_float (view v) ≡ false) }
{
    let stop = stop_of(alloc, text, at)?;
    Ok(range_value(alloc, text, at, stop)?)
}

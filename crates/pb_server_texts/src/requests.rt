//! Requests over the text of a document. The position for which a request asks is among its parameters.

ghost use Rattle.std.specs.Prelude.{◌≡◌, IfOk, Some, false, option_map};
ghost use Rattle.serde_json.specs.View.{view};
ghost use Rattle.serde_json.specs.Written.{has_float};
ghost use Rattle.pb_server_texts.specs.Answers as spec;

use crate::reading::{read_text, tokens_of};
use pb_base::NoMemory;
use pb_outline::Outline;
use pb_server_names::{
    asked_name, asked_offset, asked_place, asks_declaration, completions_value, definition_value,
    items_value, references_value, rename_value, symbols_value,
};
use serde_json::Value;
use std::alloc::Global;

/// Returns where the name at a position is declared: a location, or null.
#[tactic(auto, using(crate::proofs::ReadTexts::answers, pb_server_names::proofs::FloatFree::definition_free))]
pub fn answer_definition(
    alloc: Global,
    uri: &str,
    text: &str,
    params: Option<&Value>,
) -> Result<Value, NoMemory>
    ensures answers { IfOk result (λ v. spec.AnswersDefinition uri.now text.now
        (option_map (λ p. view p.now) params.entry) (view v)) }
    ensures float_free { IfOk result (λ v. has_float (view v) ≡ false) }
{
    let text = text.as_bytes();
    let Some(read) = read_text(alloc, text)? else {
        return Ok(Value::Null);
    };
    let outline = Outline::of(alloc, &read.tree)?;
    let one = asked_place(text, &outline, params);
    definition_value(alloc, uri, text, &outline, one)
}

/// Returns where the name at a position stands: a list of locations, or null.
#[tactic(auto, using(crate::proofs::ReadTexts::answers, pb_server_names::proofs::FloatFree::references_free))]
pub fn answer_references(
    alloc: Global,
    uri: &str,
    text: &str,
    params: Option<&Value>,
) -> Result<Value, NoMemory>
    ensures answers { IfOk result (λ v. spec.AnswersReferences uri.now text.now
        (option_map (λ p. view p.now) params.entry) (view v)) }
    ensures float_free { IfOk result (λ v. has_float (view v) ≡ false) }
{
    let text = text.as_bytes();
    let Some(read) = read_text(alloc, text)? else {
        return Ok(Value::Null);
    };
    let outline = Outline::of(alloc, &read.tree)?;
    let one = asked_place(text, &outline, params);
    references_value(alloc, uri, text, &outline, asks_declaration(params), one)
}

/// Returns the edits by which the name at a position becomes this one: changes of the document, or null.
#[tactic(auto, using(crate::proofs::ReadTexts::answers, pb_server_names::proofs::FloatFree::rename_free))]
fn rename_to(
    alloc: Global,
    uri: &str,
    text: &[u8],
    params: Option<&Value>,
    new_name: &str,
) -> Result<Value, NoMemory>
    ensures answers { IfOk result (λ v. spec.RenamesTo uri.now text.now
        (option_map (λ p. view p.now) params.entry) (Some new_name.now) (view v)) }
    ensures float_free { IfOk result (λ v. has_float (view v) ≡ false) }
{
    let Some(read) = read_text(alloc, text)? else {
        return Ok(Value::Null);
    };
    let outline = Outline::of(alloc, &read.tree)?;
    let one = asked_place(text, &outline, params);
    rename_value(alloc, uri, text, &outline, new_name, one)
}

/// Returns the edits by which the name at a position becomes another one: changes of the document, or null.
pub fn answer_rename(
    alloc: Global,
    uri: &str,
    text: &str,
    params: Option<&Value>,
) -> Result<Value, NoMemory>
    ensures answers { IfOk result (λ v. spec.AnswersRename uri.now text.now
        (option_map (λ p. view p.now) params.entry) (view v)) }
    ensures float_free { IfOk result (λ v. has_float (view v) ≡ false) }
{
    match asked_name(params) {
        Some(new_name) => rename_to(alloc, uri, text.as_bytes(), params, new_name),
        None => Ok(Value::Null),
    }
}

/// Returns the symbols of a text: a list, or null if it is not read.
#[tactic(auto, using(crate::proofs::ReadTexts::answers, pb_server_names::proofs::FloatFree::symbols_free))]
pub fn answer_symbols(alloc: Global, text: &str) -> Result<Value, NoMemory>
    ensures answers { IfOk result (λ v. spec.AnswersSymbols text.now (view v)) }
    ensures float_free { IfOk result (λ v. has_float (view v) ≡ false) }
{
    let text = text.as_bytes();
    let Some(read) = read_text(alloc, text)? else {
        return Ok(Value::Null);
    };
    let outline = Outline::of(alloc, &read.tree)?;
    symbols_value(alloc, text, &read.tokens, &outline)
}

/// Returns what may be written at an offset: a list of names and of reserved words; of reserved words alone if the text
/// has no tokens.
#[tactic(auto, using(pb_server_names::proofs::FloatFree::completions_free, pb_server_names::proofs::FloatFree::items_free))]
fn complete_at(alloc: Global, text: &[u8], at: usize) -> Result<Value, NoMemory>
    ensures answers { IfOk result (λ v. spec.CompletesAt text.now (Some at) (view v)) }
    ensures float_free { IfOk result (λ v. has_float (view v) ≡ false) }
{
    let Some(tokens) = tokens_of(alloc, text)? else {
        return items_value(alloc, &[]);
    };
    let outline = Outline::of_tokens(alloc, &tokens)?;
    completions_value(alloc, &outline, at)
}

/// Returns what may be written at a position: a list of names, whether or not the text is a program, and of reserved words;
/// of reserved words alone if no offset has the position, or if the text has no tokens.
#[tactic(auto, using(pb_server_names::proofs::FloatFree::items_free))]
pub fn answer_completion(
    alloc: Global,
    text: &str,
    params: Option<&Value>,
) -> Result<Value, NoMemory>
    ensures answers { IfOk result (λ v. spec.AnswersCompletion text.now
        (option_map (λ p. view p.now) params.entry) (view v)) }
    ensures float_free { IfOk result (λ v. has_float (view v) ≡ false) }
{
    let text = text.as_bytes();
    match asked_offset(text, params) {
        Some(at) => complete_at(alloc, text, at),
        None => items_value(alloc, &[]),
    }
}

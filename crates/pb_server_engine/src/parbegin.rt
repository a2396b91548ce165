//! The language, as a server knows it.

ghost use Rattle.std.specs.Prelude.{◌≡◌, IfOk, false};
ghost use Rattle.serde_json.specs.View.{view};
ghost use Rattle.serde_json.specs.Written.{has_float};
ghost use Rattle.pb_server.specs.Founds.{found_view};
ghost use Rattle.pb_server_engine.specs.Servers.{AnswersDiagnostic, Diagnoses as DiagnosesText, Finds as FindsText, full_data, renamed as renamed_data};

use pb_base::NoMemory;
use pb_diagnostics::{actions, diagnostics};
use pb_server::{Found, Language, Query};
use pb_server_claims::{answer_hints, answer_hover};
use pb_server_texts::{
    answer_completion, answer_definition, answer_references, answer_rename, answer_symbols,
};
use serde_json::{Value, json};
use std::alloc::{AllocError, Global};

/// The language of cooperating jobs.
#[derive(Clone, Copy)]
pub struct Parbegin;

/// Returns a list of diagnostics that is whole, as the protocol has it.
fn full(alloc: Global, items: Value) -> Result<Value, AllocError>
    ensures { IfOk result (λ v. view v ≡ full_data (view items)) }
{
    json!(in alloc; {"kind": "full", "items": items})
}

/// Returns all diagnostics of a document.
fn all_diagnostics(alloc: Global, uri: &str, text: &str) -> Result<Value, NoMemory>
    ensures diagnostics { IfOk result (λ v. AnswersDiagnostic uri.now text.now (view v)) }
    ensures float_free { IfOk result (λ v. has_float (view v) ≡ false) }
{
    let items = diagnostics(alloc, uri, text.as_bytes())?;
    Ok(full(alloc, items)?)
}

/// Returns what is found for a request of a new name, by its edits.
fn renamed(edits: Value) -> Found
    ensures { found_view result ≡ renamed_data (view edits) }
{
    match edits {
        Value::Null => Found::Refused(
            "no name stands here, or the new name is not a valid one, or it is declared already",
        ),
        edits => Found::Result(edits),
    }
}

impl Language for Parbegin {
    ghost Diagnoses = { DiagnosesText };

    ghost Finds = { FindsText };

    fn diagnose(&self, alloc: Global, uri: &str, text: &str) -> Result<Value, NoMemory> {
        diagnostics(alloc, uri, text.as_bytes())
    }

    fn find(
        &self,
        alloc: Global,
        query: Query,
        uri: &str,
        text: &str,
        params: Option<&Value>,
    ) -> Result<Found, NoMemory> {
        let value = match query {
            Query::Diagnostic => all_diagnostics(alloc, uri, text)?,
            Query::Definition => answer_definition(alloc, uri, text, params)?,
            Query::References => answer_references(alloc, uri, text, params)?,
            Query::Rename => {
                return Ok(renamed(answer_rename(alloc, uri, text, params)?));
            }
            Query::Symbols => answer_symbols(alloc, text)?,
            Query::Completion => answer_completion(alloc, text, params)?,
            Query::Actions => actions(alloc, uri, text.as_bytes())?,
            Query::Hover => answer_hover(alloc, text, params)?,
            Query::Hints => answer_hints(alloc, text)?,
        };
        Ok(Found::Result(value))
    }
}

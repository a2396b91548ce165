//! The fault of a text as a diagnostic.

ghost use Rattle.std.specs.Prelude.{◌≡◌, ◌≤◌, ℕ, List, IfOk, IfSome, false, length, min};
ghost use Rattle.serde_json.specs.Data.{array, item, no_items};
ghost use Rattle.serde_json.specs.View.{view};
ghost use Rattle.serde_json.specs.Written.{has_float};
ghost use Rattle.pb_codegen.specs.Compiled.{IsRefused};
ghost use Rattle.pb_diagnostics.specs.Diagnostics.{Diagnoses, DiagnosesFault, diagnostic_data};
ghost use Rattle.pb_options.specs.Codes.{code_name};

use crate::range::range_at;
use crate::related::related;
use bumpalo::Bump;
use pb_accept::{Cause, text_cause};
use pb_base::NoMemory;
use pb_codegen::{CompileFault, compile};
use pb_message_wording::text_wording;
use pb_mistakes::Wording;
use serde_json::{Value, json};
use std::alloc::{AllocError, Global};

/// Returns what a wording says: what is wrong, and a line for each note.
fn words(alloc: Global, wording: &Wording) -> Result<String, AllocError> {
    let mut text = String::from_str(alloc, wording.summary.as_str())?;
    for note in &wording.notes {
        text.push('\n')?;
        text.push_str(note.as_str())?;
    }
    Ok(text)
}

/// Returns the offset that a cause tells; else that of the first other place, or 0.
fn offset_of(cause: Cause, wording: &Wording) -> usize
    ensures { IfSome cause.at (λ at. result ≡ at) }
{
    match cause.at {
        Some(at) => at,
        None => match wording.spots.first() {
            Some(spot) => spot.at,
            None => 0,
        },
    }
}

/// Returns a diagnostic with a code, in these words.
fn made(
    alloc: Global,
    code: &str,
    message: &str,
    range: Value,
    related: Value,
) -> Result<Value, AllocError>
    ensures { IfOk result (λ v. view v ≡ diagnostic_data code.now message.now (view range) (view related)) }
{
    json!(in alloc; {
        "range": range,
        "severity": 1u64,
        "source": "parbegin",
        "code": code,
        "message": message,
        "relatedInformation": related
    })
}

/// Returns the diagnostic of a fault.
fn diagnostic(
    alloc: Global,
    uri: &str,
    text: &[u8],
    fault: &CompileFault,
) -> Result<Value, NoMemory>
    requires { IsRefused text.now fault.now }
    ensures told { IfOk result (λ v. DiagnosesFault text.now (view v)) }
    ensures float_free { IfOk result (λ v. has_float (view v) ≡ false) }
{
    let Some(cause) = text_cause(fault) else {
        return Err(NoMemory);
    };
    let wording = text_wording(alloc, text, fault)?;
    if !wording.is_whole {
        return Err(NoMemory);
    }
    let at = offset_of(cause, &wording).min(text.len());
    let range = range_at(alloc, text, at)?;
    let related = related(alloc, uri, text, wording.spots.as_slice())?;
    let message = words(alloc, &wording)?;
    Ok(made(alloc, cause.code.name(), &message, range, related)?)
}

/// Returns the list of no diagnostics.
fn no_diagnostics(alloc: Global) -> Result<Value, AllocError>
    ensures { IfOk result (λ v. view v ≡ array no_items) }
{
    json!(in alloc; [])
}

/// Returns the list of one diagnostic.
fn list_of(alloc: Global, one: Value) -> Result<Value, AllocError>
    ensures { IfOk result (λ v. view v ≡ array (item (view one) no_items)) }
{
    json!(in alloc; [one])
}

/// Returns the diagnostics of a text, which is that of a document with this name: none if it is accepted, and that of
/// its fault if not.
pub fn diagnostics(alloc: Global, uri: &str, text: &[u8]) -> Result<Value, NoMemory>
    ensures told { IfOk result (λ v. Diagnoses text.now (view v)) }
    ensures float_free { IfOk result (λ v. has_float (view v) ≡ false) }
{
    let arena = Bump::new(alloc);
    match compile(alloc, &arena, text) {
        Ok(_) => Ok(no_diagnostics(alloc)?),
        Err(fault) => {
            let one = diagnostic(alloc, uri, text, &fault)?;
            Ok(list_of(alloc, one)?)
        }
    }
}

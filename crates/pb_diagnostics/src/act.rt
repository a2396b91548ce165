//! Edits that mend a text, as actions of an editor.

ghost use Rattle.std.specs.Prelude.{◌≡◌, IfOk, false, string_bytes};
ghost use Rattle.serde_json.specs.View.{view};
ghost use Rattle.serde_json.specs.Written.{has_float};
ghost use Rattle.pb_diagnostics.specs.Actions as spec;
ghost use Rattle.pb_diagnostics.specs.Actions.{AnswersActions, IsAction};
ghost use Rattle.pb_mends.specs.Mends.{Mends, edit_of};

use pb_base::NoMemory;
use pb_mends::{Mend, propose_mends};
use pb_server_names::range_value;
use serde_json::{Value, json};
use std::alloc::{AllocError, Global};

/// Returns the range that an edit replaces.
fn edit_range(alloc: Global, text: &[u8], mend: &Mend) -> Result<Value, AllocError>
    ensures range { IfOk result (λ v. view v ≡ spec.edit_range text.now (edit_of mend.now)) }
    ensures float_free { IfOk result (λ v. has_float (view v) ≡ false) }
{
    range_value(alloc, text, mend.start, mend.end)
}

/// Returns other bytes in a range.
fn text_edit(alloc: Global, range: Value, bytes: &str) -> Result<Value, AllocError>
    ensures { IfOk result (λ v. view v ≡ spec.text_edit (view range) bytes.now) }
{
    json!(in alloc; {"range": range, "newText": bytes})
}

/// Returns one edit of one document.
fn workspace_edit(alloc: Global, uri: &str, edit: Value) -> Result<Value, AllocError>
    ensures { IfOk result (λ v. view v ≡ spec.workspace_edit uri.now (view edit)) }
{
    json!(in alloc; {"changes": {(uri): [edit]}})
}

/// Returns an edit with what it does in words.
fn titled(alloc: Global, title: &str, edit: Value) -> Result<Value, AllocError>
    ensures { IfOk result (λ v. view v ≡ spec.action_data title.now (view edit)) }
{
    json!(in alloc; {"title": title, "kind": "quickfix", "edit": edit})
}

/// Returns an edit that mends a text as an action.
fn action(alloc: Global, uri: &str, text: &[u8], mend: &Mend) -> Result<Value, AllocError>
    requires { Mends text.now (edit_of mend.now) }
    ensures action { IfOk result (λ v. IsAction uri.now text.now (view v)) }
    ensures float_free { IfOk result (λ v. has_float (view v) ≡ false) }
{
    let range = edit_range(alloc, text, mend)?;
    let edit = text_edit(alloc, range, &mend.bytes)?;
    let edit = workspace_edit(alloc, uri, edit)?;
    titled(alloc, &mend.title, edit)
}

/// Returns the list of the edits that mend a text, which is that of a document with this name: none if it is accepted.
#[tactic(auto, using(crate::proofs::FreeLemmas::list_free))]
pub fn actions(alloc: Global, uri: &str, text: &[u8]) -> Result<Value, NoMemory>
    ensures answers { IfOk result (λ v. AnswersActions uri.now text.now (view v)) }
    ensures float_free { IfOk result (λ v. has_float (view v) ≡ false) }
{
    let mends = propose_mends(alloc, text)?;
    let mut list = Vec::new(alloc);
    for mend in &mends {
        list.push(action(alloc, uri, text, mend)?)?;
    }
    Ok(Value::Array(list))
}

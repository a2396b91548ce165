//! What the parameters of a message say of a document.

ghost use Rattle.std.specs.Prelude.{◌≡◌, map, option_map};
ghost use Rattle.serde_json.specs.View.{items_view, view};
ghost use Rattle.pb_server.specs.Params as spec;

use serde_json::Value;

/// Returns what the parameters say of a document.
fn document_in<'v>(params: Option<&'v Value>) -> Option<&'v Value>
    ensures { option_map (λ v. view v.now) result ≡ spec.document_in (option_map (λ v. view v.now) params.entry) }
{
    match params {
        Some(params) => params.get("textDocument"),
        None => None,
    }
}

/// Returns the name of the document.
pub fn uri_in<'v>(params: Option<&'v Value>) -> Option<&'v str>
    ensures { option_map (λ t. t.now) result ≡ spec.uri_in (option_map (λ v. view v.now) params.entry) }
{
    match document_in(params) {
        Some(document) => document.get("uri").and_then(Value::as_str),
        None => None,
    }
}

/// Returns the version of the text of the document.
pub fn version_in(params: Option<&Value>) -> Option<u64>
    ensures { result ≡ spec.version_in (option_map (λ v. view v.now) params.entry) }
{
    match document_in(params) {
        Some(document) => document.get("version").and_then(Value::as_u64),
        None => None,
    }
}

/// Returns the text with which the document is opened.
pub fn opened_text<'v>(params: Option<&'v Value>) -> Option<&'v str>
    ensures { option_map (λ t. t.now) result ≡ spec.opened_text (option_map (λ v. view v.now) params.entry) }
{
    match document_in(params) {
        Some(document) => document.get("text").and_then(Value::as_str),
        None => None,
    }
}

/// Returns the text of a change, if it is of the whole text: if it has no range, or one that is null.
fn whole_text<'v>(change: &'v Value) -> Option<&'v str>
    ensures { option_map (λ t. t.now) result ≡ spec.whole_text (view change.now) }
{
    match change.get("range") {
        Some(Value::Null) | None => change.get("text").and_then(Value::as_str),
        Some(_) => None,
    }
}

/// Returns the changes of the text of the document.
fn changes_in<'v>(params: Option<&'v Value>) -> Option<&'v Vec<Value>>
    ensures { option_map (λ v. items_view v.now.items) result ≡ spec.changes_in (option_map (λ v. view v.now) params.entry) }
{
    match params {
        Some(params) => params.get("contentChanges").and_then(Value::as_array),
        None => None,
    }
}

/// Returns the last of some changes.
fn last_change<'v>(changes: &'v [Value]) -> Option<&'v Value>
    ensures { option_map (λ v. view v.now) result ≡ spec.last_item (items_view changes.now) }
{
    changes.last()
}

/// Returns the text that the changes of the document leave.
pub fn changed_text<'v>(params: Option<&'v Value>) -> Option<&'v str>
    ensures { option_map (λ t. t.now) result ≡ spec.changed_text (option_map (λ v. view v.now) params.entry) }
{
    let changes = changes_in(params)?;
    let last = last_change(changes)?;
    whole_text(last)
}

//! The messages of the server.

ghost use Rattle.std.specs.Prelude.{◌≡◌, IfOk};
ghost use Rattle.serde_json.specs.Data.{array, no_items};
ghost use Rattle.serde_json.specs.View.{view};
ghost use Rattle.pb_server.specs.Responses as spec;
ghost use Rattle.pb_server.specs.Responses.{capabilities_data, error_data, published_data, publishing_data, reason_data, result_data};

use serde_json::{Value, json};
use std::alloc::{AllocError, Global};

/// Why a message is not answered as it asks.
#[derive(Clone, Copy, Debug, PartialEq, Eq)]
pub enum Fault {
    /// The content is not JSON.
    NoJson,
    /// The message is no request, or none that may come here.
    NoRequest,
    UnknownMethod,
    WrongParams,
    /// The server is to be initialized first.
    NotInitialized,
    /// What the request asks for cannot be done.
    RequestFailed,
}

impl Fault {
    /// Returns the number that the protocol gives to it.
    fn number(self) -> i64
        ensures { result ≡ spec.fault_number self }
    {
        match self {
            Fault::NoJson => -32700,
            Fault::NoRequest => -32600,
            Fault::UnknownMethod => -32601,
            Fault::WrongParams => -32602,
            Fault::NotInitialized => -32002,
            Fault::RequestFailed => -32803,
        }
    }
}

/// Returns the response to a request that is carried out.
pub fn done(alloc: Global, id: &Value, body: Value) -> Result<Value, AllocError>
    ensures { IfOk result (λ v. view v ≡ result_data (view id.now) (view body)) }
{
    json!(in alloc; {"jsonrpc": "2.0", "id": id, "result": body})
}

/// Returns the reason for which a request is not carried out.
fn reason(alloc: Global, fault: Fault, message: &str) -> Result<Value, AllocError>
    ensures { IfOk result (λ v. view v ≡ reason_data fault message.now) }
{
    let code = fault.number();
    json!(in alloc; {"code": code, "message": message})
}

/// Returns the response with a reason.
fn with_reason(alloc: Global, id: &Value, reason: Value) -> Result<Value, AllocError>
    ensures { IfOk result (λ v. view v ≡ spec.response_with (view id.now) (view reason)) }
{
    json!(in alloc; {"jsonrpc": "2.0", "id": id, "error": reason})
}

/// Returns the response to a request that is not carried out, with the reason.
pub fn failed(alloc: Global, id: &Value, fault: Fault, message: &str) -> Result<Value, AllocError>
    ensures { IfOk result (λ v. view v ≡ error_data (view id.now) fault message.now) }
{
    let reason = reason(alloc, fault, message)?;
    with_reason(alloc, id, reason)
}

/// Returns the list of no diagnostics.
pub fn no_diagnostics(alloc: Global) -> Result<Value, AllocError>
    ensures { IfOk result (λ v. view v ≡ array no_items) }
{
    json!(in alloc; [])
}

/// Returns what diagnostics of a version are of.
fn of_version(alloc: Global, uri: &str, version: u64, items: Value) -> Result<Value, AllocError>
    ensures { IfOk result (λ v. view v ≡ spec.of_version uri.now version (view items)) }
{
    json!(in alloc; {"uri": uri, "version": version, "diagnostics": items})
}

/// Returns what diagnostics are of.
fn of_document(alloc: Global, uri: &str, items: Value) -> Result<Value, AllocError>
    ensures { IfOk result (λ v. view v ≡ spec.of_document uri.now (view items)) }
{
    json!(in alloc; {"uri": uri, "diagnostics": items})
}

/// Returns what diagnostics are of: a document, and the version of its text if that is told.
fn published(
    alloc: Global,
    uri: &str,
    version: Option<u64>,
    items: Value,
) -> Result<Value, AllocError>
    ensures { IfOk result (λ v. view v ≡ published_data uri.now version (view items)) }
{
    match version {
        Some(version) => of_version(alloc, uri, version, items),
        None => of_document(alloc, uri, items),
    }
}

/// Returns the notification with these parameters.
fn notification(alloc: Global, params: Value) -> Result<Value, AllocError>
    ensures { IfOk result (λ v. view v ≡ spec.publishing_with (view params)) }
{
    json!(in alloc; {
        "jsonrpc": "2.0",
        "method": "textDocument/publishDiagnostics",
        "params": params
    })
}

/// Returns the notification with the diagnostics of a document.
pub fn publishing(
    alloc: Global,
    uri: &str,
    version: Option<u64>,
    items: Value,
) -> Result<Value, AllocError>
    ensures { IfOk result (λ v. view v ≡ publishing_data uri.now version (view items)) }
{
    let params = published(alloc, uri, version, items)?;
    notification(alloc, params)
}

/// Returns what the server is asked of the text of a document.
fn able(alloc: Global) -> Result<Value, AllocError>
    ensures { IfOk result (λ v. view v ≡ spec.able_data) }
{
    json!(in alloc; {
        "positionEncoding": "utf-16",
        "textDocumentSync": {"openClose": true, "change": 1u64},
        "definitionProvider": true,
        "referencesProvider": true,
        "renameProvider": true,
        "documentSymbolProvider": true,
        "completionProvider": {},
        "codeActionProvider": true,
        "hoverProvider": true,
        "inlayHintProvider": true
    })
}

/// Returns what the server can do.
pub fn capabilities(alloc: Global) -> Result<Value, AllocError>
    ensures { IfOk result (λ v. view v ≡ capabilities_data) }
{
    let able = able(alloc)?;
    json!(in alloc; {"capabilities": able, "serverInfo": {"name": "parbegin"}})
}

//! The methods of requests and notifications, by their names.

ghost use Rattle.std.specs.Prelude.{◌≡◌};
ghost use Rattle.std.specs.Str.{bytes_eq};
ghost use Rattle.pb_server.specs.Methods as spec;

use crate::query::Query;

/// What a request asks for.
#[derive(Clone, Copy, Debug, PartialEq, Eq)]
pub enum Method {
    /// What the server can do.
    Initialize,
    /// That the server makes an end.
    Shutdown,
    /// Something about the text of a document.
    Query(Query),
    /// Something that is not known.
    Unknown,
}

/// What a notification says.
#[derive(Clone, Copy, Debug, PartialEq, Eq)]
pub enum Notice {
    /// A document is opened.
    Opened,
    /// A document has another text.
    Changed,
    /// A document is closed.
    Closed,
    /// The client goes.
    Exit,
    /// Something to which there is nothing to be done.
    Other,
}

/// Returns whether a word is this text.
fn is(word: &str, text: &str) -> bool
    ensures { result ≡ bytes_eq word.now text.now }
{
    word.as_bytes() == text.as_bytes()
}

/// Returns what a method asks of the text of a document.
fn query_of(method: &str) -> Method
    ensures { result ≡ spec.query_or method.now Method.Unknown }
{
    if is(method, "textDocument/diagnostic") {
        Method::Query(Query::Diagnostic)
    } else if is(method, "textDocument/definition") {
        Method::Query(Query::Definition)
    } else if is(method, "textDocument/references") {
        Method::Query(Query::References)
    } else if is(method, "textDocument/rename") {
        Method::Query(Query::Rename)
    } else if is(method, "textDocument/documentSymbol") {
        Method::Query(Query::Symbols)
    } else if is(method, "textDocument/completion") {
        Method::Query(Query::Completion)
    } else if is(method, "textDocument/codeAction") {
        Method::Query(Query::Actions)
    } else if is(method, "textDocument/hover") {
        Method::Query(Query::Hover)
    } else if is(method, "textDocument/inlayHint") {
        Method::Query(Query::Hints)
    } else {
        Method::Unknown
    }
}

/// Returns what a method of a request asks for.
pub fn method_of(method: &str) -> Method
    ensures { result ≡ spec.method_of method.now }
{
    if is(method, "initialize") {
        Method::Initialize
    } else if is(method, "shutdown") {
        Method::Shutdown
    } else {
        query_of(method)
    }
}

/// Returns what a method of a notification says.
pub fn notice_of(method: &str) -> Notice
    ensures { result ≡ spec.notice_of method.now }
{
    if is(method, "textDocument/didOpen") {
        Notice::Opened
    } else if is(method, "textDocument/didChange") {
        Notice::Changed
    } else if is(method, "textDocument/didClose") {
        Notice::Closed
    } else if is(method, "exit") {
        Notice::Exit
    } else {
        Notice::Other
    }
}

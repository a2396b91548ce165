//! The messages of an adapter: responses to requests, and events.

ghost use Rattle.std.specs.Prelude.{◌≡◌, ◌∷◌, [], IfOk};
ghost use Rattle.serde_json.specs.View.{view};
ghost use Rattle.pb_adapter_requests.specs.Requests.{request_view};
ghost use Rattle.pb_adapter_requests.specs.Responses.{done_data, event_data, failed_data, refused_data, told_by};

use crate::request::Request;
use serde_json::{Value, json};
use std::alloc::{AllocError, Global};

/// What is answered to a message: a response, and then an event if something happened.
#[derive(Drop)]
pub struct Reply {
    pub response: Value,
    pub event: Option<Value>,
}

/// Returns the response to a request that was carried out.
pub fn done(alloc: Global, seq: u64, request: Request<'_>, body: Value) -> Result<Value, AllocError>
    ensures { IfOk result (λ v. view v ≡ done_data seq (request_view request.entry) (view body)) }
{
    let asked = request.seq;
    let command = request.command;
    json!(in alloc; {
        "seq": seq,
        "type": "response",
        "request_seq": asked,
        "success": true,
        "command": command,
        "body": body
    })
}

/// Returns the response to a request that was not carried out, with the reason.
pub fn failed(
    alloc: Global,
    seq: u64,
    asked: u64,
    command: &str,
    message: &str,
) -> Result<Value, AllocError>
    ensures { IfOk result (λ v. view v ≡ failed_data seq asked command.now message.now) }
{
    json!(in alloc; {
        "seq": seq,
        "type": "response",
        "request_seq": asked,
        "success": false,
        "command": command,
        "message": message
    })
}

/// Returns an event with what it says.
pub fn event(alloc: Global, seq: u64, name: &str, body: Value) -> Result<Value, AllocError>
    ensures { IfOk result (λ v. view v ≡ event_data seq name.now (view body)) }
{
    json!(in alloc; {"seq": seq, "type": "event", "event": name, "body": body})
}

/// Returns the reply that is a response alone.
pub fn alone(response: Value) -> Reply
    ensures { told_by result ≡ view response ∷ [] }
{
    Reply {
        response,
        event: None,
    }
}

/// Returns the reply that is a response and an event.
pub fn with_event(response: Value, event: Value) -> Reply
    ensures { told_by result ≡ view response ∷ view event ∷ [] }
{
    Reply {
        response,
        event: Some(event),
    }
}

/// Returns the reply that a request was carried out, and no more.
pub fn answered(
    alloc: Global,
    seq: u64,
    request: Request<'_>,
    body: Value,
) -> Result<Reply, AllocError>
    ensures { IfOk result (λ reply. told_by reply ≡ done_data seq (request_view request.entry) (view body) ∷ []) }
{
    let response = done(alloc, seq, request, body)?;
    Ok(alone(response))
}

/// Returns the reply that a request was not carried out.
pub fn refused(
    alloc: Global,
    seq: u64,
    request: Request<'_>,
    message: &str,
) -> Result<Reply, AllocError>
    ensures { IfOk result (λ reply. told_by reply ≡ refused_data seq (request_view request.entry) message.now ∷ []) }
{
    let response = failed(alloc, seq, request.seq, request.command, message)?;
    Ok(alone(response))
}

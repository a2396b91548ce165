//! The messages of a client.

ghost use Rattle.std.specs.Prelude.{◌≡◌};
ghost use Rattle.serde_json.specs.Find.{get};
ghost use Rattle.serde_json.specs.View.{view};
ghost use Rattle.pb_server.specs.Messages as spec;
ghost use Rattle.pb_server.specs.Messages.{heard_in, message_view};

use serde_json::Value;

/// A method that is called, and with what.
#[derive(Clone, Copy)]
pub struct Call<'v> {
    pub method: &'v str,
    pub params: Option<&'v Value>,
}

/// What a message is.
#[derive(Clone, Copy)]
pub enum Message<'v> {
    /// A request, with its id.
    Request(&'v Value, Call<'v>),
    Notification(Call<'v>),
    /// A response of the client.
    Response,
    Neither,
}

/// Returns whether a message has a member of this name.
fn has(value: &Value, name: &str) -> bool
    ensures { result ≡ spec.is_member (get name.now (view value.now)) }
{
    match value.get(name) {
        Some(_) => true,
        None => false,
    }
}

/// Returns what a message without a method is.
fn without_method<'v>(value: &'v Value) -> Message<'v>
    ensures { message_view result ≡ spec.without_method (view value.now) }
{
    if has(value, "result") || has(value, "error") {
        Message::Response
    } else {
        Message::Neither
    }
}

/// Returns whether a value can be the id of a request: an integer or a text.
fn is_id(value: &Value) -> bool
    ensures { result ≡ spec.is_id (view value.now) }
{
    match value {
        Value::Number(number) => !number.is_f64(),
        Value::String(_) => true,
        _ => false,
    }
}

/// Returns what a message is.
pub fn message_of<'v>(value: &'v Value) -> Message<'v>
    ensures { message_view result ≡ heard_in (view value.now) }
{
    let Some(method) = value.get("method").and_then(Value::as_str) else {
        return without_method(value);
    };
    let call = Call {
        method,
        params: value.get("params"),
    };
    match value.get("id") {
        None => Message::Notification(call),
        Some(id) => {
            if is_id(id) {
                Message::Request(id, call)
            } else {
                Message::Neither
            }
        }
    }
}

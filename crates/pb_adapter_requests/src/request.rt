//! The requests of a client.

ghost use Rattle.std.specs.Prelude.{◌≡◌, option_map};
ghost use Rattle.serde_json.specs.Find.{as_str};
ghost use Rattle.serde_json.specs.View.{items_view, view};
ghost use Rattle.pb_adapter_requests.specs.Requests as spec;
ghost use Rattle.pb_adapter_requests.specs.Requests.{Place as AnyPlace, number_in, request_in, request_view, text_in};

use serde_json::Value;

/// A request of a client: its number, what it asks for, and the arguments.
#[derive(Clone, Copy)]
pub struct Request<'v> {
    pub seq: u64,
    pub command: &'v str,
    pub arguments: Option<&'v Value>,
}

/// An arm of a process.
#[derive(Clone, Copy)]
pub struct Place {
    pub process: usize,
    pub arm: usize,
}

const NO_PLACE: Place = Place {
    process: 64,
    arm: 0,
};

/// Returns the number that a member of an object is.
pub fn number_at(value: &Value, name: &str) -> Option<u64>
    ensures { result ≡ number_in name.now (view value.now) }
{
    value.get(name).and_then(Value::as_u64)
}

/// Returns the text that a member of an object is.
pub(crate) fn text_at<'v>(value: &'v Value, name: &str) -> Option<&'v str>
    ensures { option_map (λ t. t.now) result ≡ text_in name.now (view value.now) }
{
    value.get(name).and_then(Value::as_str)
}

/// Returns whether this is a text that is this word.
fn is_word(value: &Value, word: &str) -> bool
    ensures { result ≡ spec.is_word word.now (as_str (view value.now)) }
{
    match value.as_str() {
        Some(text) => text.as_bytes() == word.as_bytes(),
        None => false,
    }
}

/// Returns whether a message says that it is a request, or does not say what it is.
fn may_be_request(value: &Value) -> bool
    ensures { result ≡ spec.may_be_request (view value.now) }
{
    match value.get("type") {
        Some(said) => is_word(said, "request"),
        None => true,
    }
}

/// Returns the request that a message is, if it has a number, says what it asks for, and says of itself nothing else.
pub fn request_of<'v>(value: &'v Value) -> Option<Request<'v>>
    ensures { option_map request_view result ≡ request_in (view value.now) }
{
    if !may_be_request(value) {
        return None;
    }
    let seq = number_at(value, "seq")?;
    let command = text_at(value, "command")?;
    Some(Request {
        seq,
        command,
        arguments: value.get("arguments"),
    })
}

/// Returns the number that an argument of a request is.
pub fn number_of(request: Request<'_>, name: &str) -> Option<u64>
    ensures { result ≡ spec.number_of name.now (request_view request.entry) }
{
    match request.arguments {
        Some(arguments) => number_at(arguments, name),
        None => None,
    }
}

/// Returns the text that an argument of a request is.
pub fn text_of<'v>(request: Request<'v>, name: &str) -> Option<&'v str>
    ensures { option_map (λ t. t.now) result ≡ spec.text_of name.now (request_view request.entry) }
{
    match request.arguments {
        Some(arguments) => text_at(arguments, name),
        None => None,
    }
}

/// Returns the list that an argument of a request is.
pub fn list_of<'v>(request: Request<'v>, name: &str) -> Option<&'v Vec<Value>>
    ensures { option_map (λ v. items_view v.now.items) result ≡ spec.items_asked name.now (request_view request.entry) }
{
    match request.arguments {
        Some(arguments) => arguments.get(name).and_then(Value::as_array),
        None => None,
    }
}

/// Returns the arm of a process that the number of a thread means.
pub fn place_of(number: Option<u64>) -> Place
    ensures { record { process = result.process; arm = result.arm } ≡ spec.place_of number }
{
    match number {
        Some(number) => {
            if number == 0 {
                NO_PLACE
            } else {
                Place {
                    process: ((number - 1) / 64) as usize,
                    arm: ((number - 1) % 64) as usize,
                }
            }
        }
        None => NO_PLACE,
    }
}

/// Returns an argument of a request.
pub(crate) fn argument<'v>(request: Request<'v>, name: &str) -> Option<&'v Value>
    ensures { option_map (λ v. view v.now) result ≡ spec.argument name.now (request_view request.entry) }
{
    match request.arguments {
        Some(arguments) => arguments.get(name),
        None => None,
    }
}

/// Returns whether an argument is there, and is not null.
fn is_there(value: Option<&Value>) -> bool
    ensures { result ≡ spec.is_there (option_map (λ v. view v.now) value.entry) }
{
    match value {
        Some(Value::Null) | None => false,
        Some(_) => true,
    }
}

/// Returns whether a request has an argument of this name that is not null.
pub fn is_given(request: Request<'_>, name: &str) -> bool
    ensures { result ≡ spec.is_given name.now (request_view request.entry) }
{
    is_there(argument(request, name))
}

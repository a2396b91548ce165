//! What the parameters of a request ask for.

ghost use Rattle.std.specs.Prelude.{◌≡◌, option_map};
ghost use Rattle.serde_json.specs.View.{view};
ghost use Rattle.pb_outline.specs.Places.{place, places};
ghost use Rattle.pb_adapter_requests.specs.Requests as numbers;
ghost use Rattle.pb_server_names.specs.Asked as spec;

use pb_outline::{Outline, Place, Position, offset_at};
use serde_json::Value;

/// Returns the number that a member of an object is.
fn number_in(value: &Value, name: &str) -> Option<u64>
    ensures { result ≡ numbers.number_in name.now (view value.now) }
{
    value.get(name).and_then(Value::as_u64)
}

/// Returns the position that a value is.
fn position_in(value: &Value) -> Option<Position>
    ensures { result ≡ spec.position_in (view value.now) }
{
    let line = number_in(value, "line")?;
    let character = number_in(value, "character")?;
    Some(Position {
        line: line as usize,
        character: character as usize,
    })
}

/// Returns the position that the parameters ask for.
fn asked_position(params: Option<&Value>) -> Option<Position>
    ensures { result ≡ spec.asked_position (option_map (λ v. view v.now) params.entry) }
{
    let position = params?.get("position")?;
    position_in(position)
}

/// Returns the offset that they ask for in a text.
pub fn asked_offset(text: &[u8], params: Option<&Value>) -> Option<usize>
    ensures { result ≡ spec.asked_offset text.now (option_map (λ v. view v.now) params.entry) }
{
    let position = asked_position(params)?;
    offset_at(text, position)
}

/// Returns the name of a text that stands at the position for which the parameters ask.
pub fn asked_place<'t>(
    text: &[u8],
    outline: &Outline<'t>,
    params: Option<&Value>,
) -> Option<Place<'t>>
    ensures { option_map place result
        ≡ spec.asked_place text.now (places outline.now) (option_map (λ v. view v.now) params.entry) }
{
    let at = asked_offset(text, params)?;
    outline.place_at(at)
}

/// Returns the new name that the parameters give.
pub fn asked_name<'v>(params: Option<&'v Value>) -> Option<&'v str>
    ensures { option_map (λ t. t.now) result ≡ spec.asked_name (option_map (λ v. view v.now) params.entry) }
{
    params?.get("newName").and_then(Value::as_str)
}

/// Returns whether the parameters ask for the declaration among the references: unless they say that they do not.
pub fn asks_declaration(params: Option<&Value>) -> bool
    ensures { result ≡ spec.asks_declaration (option_map (λ v. view v.now) params.entry) }
{
    let context = match params {
        Some(params) => params.get("context"),
        None => None,
    };
    match context {
        Some(context) => context
            .get("includeDeclaration")
            .and_then(Value::as_bool)
            .unwrap_or(true),
        None => true,
    }
}

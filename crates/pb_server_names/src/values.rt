//! Positions, ranges and locations.

ghost use Rattle.std.specs.Prelude.{◌≡◌, IfOk};
ghost use Rattle.serde_json.specs.View.{view};
ghost use Rattle.pb_outline.specs.Places.{place};
ghost use Rattle.pb_server_names.specs.Values as spec;

use pb_outline::{Place, Position, position_of};
use serde_json::{Value, json};
use std::alloc::{AllocError, Global};

/// Returns a position.
pub(crate) fn position_value(alloc: Global, position: Position) -> Result<Value, AllocError>
    ensures { IfOk result (λ v. view v ≡ spec.position_data position) }
{
    let line = position.line;
    let character = position.character;
    json!(in alloc; {"line": line, "character": character})
}

/// Returns the part of a text from one offset up to another, both counted in bytes, as the protocol writes it: with the
/// lines and characters of its two ends.
pub fn range_value(
    alloc: Global,
    text: &[u8],
    start: usize,
    end: usize,
) -> Result<Value, AllocError>
    ensures { IfOk result (λ v. view v ≡ spec.range_data text.now start end) }
{
    let start = position_value(alloc, position_of(text, start))?;
    let end = position_value(alloc, position_of(text, end))?;
    json!(in alloc; {"start": start, "end": end})
}

/// Returns the part of a text that a name takes.
#[tactic(auto, using(crate::proofs::Ends::end_at))]
pub(crate) fn name_range(alloc: Global, text: &[u8], name: &Place<'_>) -> Result<Value, AllocError>
    ensures { IfOk result (λ v. view v ≡ spec.name_range text.now (place name.now)) }
{
    let end = name.at.saturating_add(name.text.len());
    range_value(alloc, text, name.at, end)
}

/// Returns the position right after a name.
#[tactic(auto, using(crate::proofs::Ends::end_at))]
pub fn end_of_name(alloc: Global, text: &[u8], name: &Place<'_>) -> Result<Value, AllocError>
    ensures { IfOk result (λ v. view v ≡ spec.end_of_name text.now (place name.now)) }
{
    let end = name.at.saturating_add(name.text.len());
    position_value(alloc, position_of(text, end))
}

/// Returns a name in the document with this address.
pub(crate) fn location_value(
    alloc: Global,
    uri: &str,
    text: &[u8],
    name: &Place<'_>,
) -> Result<Value, AllocError>
    ensures { IfOk result (λ v. view v ≡ spec.location_data uri.now text.now (place name.now)) }
{
    let range = name_range(alloc, text, name)?;
    json!(in alloc; {"uri": uri, "range": range})
}

/// Returns another text in the place of a name.
pub(crate) fn edit_value(
    alloc: Global,
    text: &[u8],
    new_name: &str,
    name: &Place<'_>,
) -> Result<Value, AllocError>
    ensures { IfOk result (λ v. view v ≡ spec.edit_data text.now new_name.now (place name.now)) }
{
    let range = name_range(alloc, text, name)?;
    json!(in alloc; {"range": range, "newText": new_name})
}

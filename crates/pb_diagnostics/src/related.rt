//! Other places that have to do with a fault.

ghost use Rattle.std.specs.Prelude.{◌≡◌, IfOk, false};
ghost use Rattle.serde_json.specs.View.{view};
ghost use Rattle.serde_json.specs.Written.{has_float};

use crate::range::range_at;
use pb_base::NoMemory;
use pb_mistakes::Spot;
use serde_json::{Value, json};
use std::alloc::{AllocError, Global};

/// Returns a range of a document.
fn location(alloc: Global, uri: &str, range: Value) -> Result<Value, AllocError>
    requires { has_float (view range) ≡ false }
    ensures { IfOk result (λ v. has_float (view v) ≡ false) }
{
    json!(in alloc; {"uri": uri, "range": range})
}

/// Returns a place with its label.
fn labelled(alloc: Global, location: Value, label: &str) -> Result<Value, AllocError>
    requires { has_float (view location) ≡ false }
    ensures { IfOk result (λ v. has_float (view v) ≡ false) }
{
    json!(in alloc; {"location": location, "message": label})
}

/// Returns what a label says, without what stands between it and the number of a line.
fn label_of(label: &str) -> &str {
    match label.strip_suffix(": ") {
        Some(words) => words,
        None => label.strip_suffix(" at ").unwrap_or(label),
    }
}

/// Returns another place in a text.
fn spot_value(alloc: Global, uri: &str, text: &[u8], spot: &Spot) -> Result<Value, NoMemory>
    ensures { IfOk result (λ v. has_float (view v) ≡ false) }
{
    let range = range_at(alloc, text, spot.at.min(text.len()))?;
    let location = location(alloc, uri, range)?;
    Ok(labelled(alloc, location, label_of(spot.label.as_str()))?)
}

/// Returns the list of other places in a text.
#[tactic(auto, using(crate::proofs::FreeLemmas::one_more_free, crate::proofs::FreeLemmas::list_free))]
pub fn related(alloc: Global, uri: &str, text: &[u8], spots: &[Spot]) -> Result<Value, NoMemory>
    ensures { IfOk result (λ v. has_float (view v) ≡ false) }
{
    let mut items = Vec::new(alloc);
    for spot in spots {
        items.push(spot_value(alloc, uri, text, spot)?)?;
    }
    Ok(Value::Array(items))
}

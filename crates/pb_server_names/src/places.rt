//! Where a name is declared, where it stands, and what a new name changes.

ghost use Rattle.std.specs.Prelude.{◌≡◌, ◌++◌, ◌∷◌, [], IfOk, OnOk, filter, map, option_map};
ghost use Rattle.serde_json.specs.View.{view};
ghost use Rattle.pb_outline.specs.Places.{place, places};
ghost use Rattle.pb_server_names.specs.Answers as spec;
ghost use Rattle.pb_server_names.specs.Values.{edit_data, location_data};

use crate::values::{edit_value, location_value};
use pb_base::NoMemory;
use pb_outline::{Outline, Place, RenameFault};
use serde_json::{Value, json};
use std::alloc::{AllocError, Global};

/// Returns where the name of a place of a text is declared, in the document with this address; null without a place.
pub fn definition_value(
    alloc: Global,
    uri: &str,
    text: &[u8],
    outline: &Outline<'_>,
    one: Option<Place<'_>>,
) -> Result<Value, NoMemory>
    ensures { IfOk result (λ v. view v
        ≡ spec.definition_data uri.now text.now (places outline.now) (option_map place one.entry)) }
{
    let Some(one) = one else {
        return Ok(Value::Null);
    };
    match outline.declaration_of(&one) {
        Some(found) => Ok(location_value(alloc, uri, text, &found)?),
        None => Ok(Value::Null),
    }
}

/// Appends the location of another place, if it is a reference to the same name.
fn add_reference(
    alloc: Global,
    out: &mut Vec<Value>,
    uri: &str,
    text: &[u8],
    with_declaration: bool,
    other: &Place<'_>,
) -> Result<(), NoMemory>
    ensures { OnOk result (map view out.new.items ≡ map view out.old.items
        ++ map (location_data uri.now text.now) (filter (spec.is_wanted with_declaration) (place other.now ∷ []))) }
{
    if with_declaration || !other.declares {
        let location = location_value(alloc, uri, text, other)?;
        out.push(location)?;
    }
    Ok(())
}

/// Returns the locations of some places that are references.
#[tactic(auto, using(crate::proofs::Kept::kept_more))]
fn locations(
    alloc: Global,
    uri: &str,
    text: &[u8],
    with_declaration: bool,
    found: &[Place<'_>],
) -> Result<Vec<Value>, NoMemory>
    ensures { IfOk result (λ list. map view list.items
        ≡ map (location_data uri.now text.now) (filter (spec.is_wanted with_declaration) (map place found.now))) }
{
    let mut list = Vec::new(alloc);
    for other in found {
        add_reference(alloc, &mut list, uri, text, with_declaration, other)?;
    }
    Ok(list)
}

/// Returns where the name of a place of a text stands, in the order of the text, with or without the place that declares
/// it; null without a place.
pub fn references_value(
    alloc: Global,
    uri: &str,
    text: &[u8],
    outline: &Outline<'_>,
    with_declaration: bool,
    one: Option<Place<'_>>,
) -> Result<Value, NoMemory>
    ensures { IfOk result (λ v. view v
        ≡ spec.references_data uri.now text.now (places outline.now) with_declaration (option_map place one.entry)) }
{
    let Some(one) = one else {
        return Ok(Value::Null);
    };
    let found = outline.places_of(alloc, &one)?;
    let list = locations(alloc, uri, text, with_declaration, &found)?;
    Ok(Value::Array(list))
}

/// Appends the edit that writes a new name at a place.
fn add_edit(
    alloc: Global,
    out: &mut Vec<Value>,
    text: &[u8],
    new_name: &str,
    one: &Place<'_>,
) -> Result<(), NoMemory>
    ensures { OnOk result (map view out.new.items
        ≡ map view out.old.items ++ edit_data text.now new_name.now (place one.now) ∷ []) }
{
    let edit = edit_value(alloc, text, new_name, one)?;
    out.push(edit)?;
    Ok(())
}

/// Returns the edits that write a new name at some places.
#[tactic(auto, using(crate::proofs::Kept::mapped_more))]
fn edits(
    alloc: Global,
    text: &[u8],
    new_name: &str,
    found: &[Place<'_>],
) -> Result<Vec<Value>, NoMemory>
    ensures { IfOk result (λ list. map view list.items
        ≡ map (edit_data text.now new_name.now) (map place found.now)) }
{
    let mut list = Vec::new(alloc);
    for one in found {
        add_edit(alloc, &mut list, text, new_name, one)?;
    }
    Ok(list)
}

/// Returns the changes of one document.
fn changes_value(alloc: Global, uri: &str, edits: Vec<Value>) -> Result<Value, AllocError>
    ensures { IfOk result (λ v. view v ≡ spec.changes_data uri.now (map view edits.items)) }
{
    json!(in alloc; {"changes": {(uri): edits}})
}

/// Returns the edits by which the name of a place of a text becomes another one; null without a place, or if the new
/// name is not a valid one, or declared already.
#[tactic(auto, using(crate::proofs::Renames::renames))]
pub fn rename_value(
    alloc: Global,
    uri: &str,
    text: &[u8],
    outline: &Outline<'_>,
    new_name: &str,
    one: Option<Place<'_>>,
) -> Result<Value, NoMemory>
    ensures { IfOk result (λ v. view v
        ≡ spec.rename_data uri.now text.now new_name.now (places outline.now) (option_map place one.entry)) }
{
    let Some(one) = one else {
        return Ok(Value::Null);
    };
    match outline.rename(alloc, &one, new_name.as_bytes()) {
        Ok(found) => {
            let edits = edits(alloc, text, new_name, &found)?;
            Ok(changes_value(alloc, uri, edits)?)
        }
        Err(RenameFault::NotAName) => Ok(Value::Null),
        Err(RenameFault::Taken) => Ok(Value::Null),
        Err(RenameFault::NoMemory) => Err(NoMemory),
    }
}

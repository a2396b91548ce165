//! What may be written at an offset.

ghost use Rattle.std.specs.Prelude.{◌≡◌, ◌++◌, ◌∷◌, [], IfOk, OnOk, map};
ghost use Rattle.serde_json.specs.View.{view};
ghost use Rattle.pb_code.specs.Names as names;
ghost use Rattle.pb_outline.specs.Places.{place, places};
ghost use Rattle.pb_server_names.specs.Completions as spec;

use pb_base::NoMemory;
use pb_outline::{Kind, Outline, Place};
use serde_json::{Value, json};
use std::alloc::{AllocError, Global};

/// Returns the reserved words, in alphabetical order.
fn reserved_words() -> [&'static str; 23]
    ensures { map (λ word. word.now) result ≡ names.reserved_words }
{
    [
        "and", "begin", "div", "do", "else", "end", "fi", "hold", "if", "integer", "mod", "not",
        "od", "of", "or", "parbegin", "parend", "print", "process", "resource", "skip", "then",
        "while",
    ]
}

/// Returns the number of a kind.
fn item_kind(kind: Kind) -> u64
    ensures { result ≡ spec.item_kind kind }
{
    match kind {
        Kind::Resource => 21,
        Kind::Process => 3,
        Kind::Integer(_) => 6,
    }
}

/// Returns what may be written, with its kind.
fn item_value(alloc: Global, kind: u64, label: &str) -> Result<Value, AllocError>
    ensures { IfOk result (λ v. view v ≡ spec.item_data kind label.now) }
{
    json!(in alloc; {"label": label, "kind": kind})
}

/// Appends a name.
fn add_name(alloc: Global, out: &mut Vec<Value>, one: &Place<'_>) -> Result<(), NoMemory>
    ensures { OnOk result (map view out.new.items ≡ map view out.old.items ++ spec.name_item (place one.now) ∷ []) }
{
    let label = String::from_utf8_lossy(alloc, one.text)?;
    let item = item_value(alloc, item_kind(one.kind), &label)?;
    out.push(item)?;
    Ok(())
}

/// Appends names.
fn add_names(alloc: Global, out: &mut Vec<Value>, found: &[Place<'_>]) -> Result<(), NoMemory>
    ensures { OnOk result (map view out.new.items
        ≡ map view out.old.items ++ map spec.name_item (map place found.now)) }
{
    for one in found {
        add_name(alloc, out, one)?;
    }
    Ok(())
}

/// Appends words.
fn add_words(alloc: Global, out: &mut Vec<Value>, words: &[&'static str]) -> Result<(), NoMemory>
    ensures { OnOk result (map view out.new.items
        ≡ map view out.old.items ++ map spec.word_item (map (λ word. word.now) words.now)) }
{
    for word in words {
        let item = item_value(alloc, 14, word)?;
        out.push(item)?;
    }
    Ok(())
}

/// Returns some names, and then all reserved words.
pub fn items_value(alloc: Global, found: &[Place<'_>]) -> Result<Value, NoMemory>
    ensures { IfOk result (λ v. view v ≡ spec.items_data (map place found.now)) }
{
    let mut list = Vec::new(alloc);
    add_names(alloc, &mut list, found)?;
    add_words(alloc, &mut list, &reserved_words())?;
    Ok(Value::Array(list))
}

/// Returns what may be written at an offset: the resources and the integers of its process, and the reserved words.
pub fn completions_value(alloc: Global, outline: &Outline<'_>, at: usize) -> Result<Value, NoMemory>
    ensures { IfOk result (λ v. view v ≡ spec.completions_data (places outline.now) at) }
{
    let found = outline.names_at(alloc, at)?;
    items_value(alloc, &found)
}

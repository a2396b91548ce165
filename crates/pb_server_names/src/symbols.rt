//! The symbols of a text: each resource, and each process with its integers.

ghost use Rattle.std.specs.Prelude.{◌≡◌, ◌++◌, ◌∷◌, [], IfOk, OnOk, filter, map};
ghost use Rattle.serde_json.specs.View.{view};
ghost use Rattle.pb_lexer.specs.Tokens.{tokens};
ghost use Rattle.pb_outline.specs.Places.{place, places};
ghost use Rattle.pb_server_names.specs.Symbols as spec;

use crate::values::{name_range, range_value};
use pb_base::NoMemory;
use pb_lexer::Token;
use pb_outline::{Extent, Kind, Outline, Place, extent_of};
use serde_json::{Value, json};
use std::alloc::{AllocError, Global};

/// Returns the number of a kind.
fn symbol_kind(kind: Kind) -> u64
    ensures { result ≡ spec.symbol_kind kind }
{
    match kind {
        Kind::Resource => 14,
        Kind::Process => 12,
        Kind::Integer(_) => 13,
    }
}

/// Returns a symbol, with where it is declared, where its name is, and what is declared inside.
fn symbol_with(
    alloc: Global,
    name: &str,
    kind: u64,
    range: Value,
    own: Value,
    inside: Vec<Value>,
) -> Result<Value, AllocError>
    ensures { IfOk result (λ v. view v
        ≡ spec.symbol_with name.now kind (view range) (view own) (map view inside.items)) }
{
    json!(in alloc; {"name": name, "kind": kind, "range": range, "selectionRange": own, "children": inside})
}

/// Returns a name that is declared in a part of a text, with what is declared inside.
fn symbol_value(
    alloc: Global,
    text: &[u8],
    one: &Place<'_>,
    extent: Extent,
    inside: Vec<Value>,
) -> Result<Value, NoMemory>
    ensures { IfOk result (λ v. view v
        ≡ spec.symbol_data text.now (place one.now) extent (map view inside.items)) }
{
    let name = String::from_utf8_lossy(alloc, one.text)?;
    let kind = symbol_kind(one.kind);
    let range = range_value(alloc, text, extent.start, extent.end)?;
    let own = name_range(alloc, text, one)?;
    Ok(symbol_with(alloc, &name, kind, range, own, inside)?)
}

/// Returns whether a place declares an integer of a process.
fn is_integer_of(process: Option<usize>, one: &Place<'_>) -> bool
    ensures { result ≡ spec.is_integer_of process (place one.now) }
{
    match (process, one.kind) {
        (Some(p), Kind::Integer(q)) => one.declares && q == p,
        _ => false,
    }
}

/// Returns an integer: its declaration is its name.
fn integer_value(alloc: Global, text: &[u8], one: &Place<'_>) -> Result<Value, NoMemory>
    ensures { IfOk result (λ v. view v ≡ spec.integer_data text.now (place one.now)) }
{
    let extent = Extent {
        start: one.at,
        end: one.at.saturating_add(one.text.len()),
    };
    symbol_value(alloc, text, one, extent, Vec::new(alloc))
}

/// Appends an integer, if it is declared in a process.
fn add_integer(
    alloc: Global,
    out: &mut Vec<Value>,
    text: &[u8],
    process: Option<usize>,
    one: &Place<'_>,
) -> Result<(), NoMemory>
    ensures { OnOk result (map view out.new.items ≡ map view out.old.items
        ++ map (spec.integer_data text.now) (filter (spec.is_integer_of process) (place one.now ∷ []))) }
{
    if is_integer_of(process, one) {
        let value = integer_value(alloc, text, one)?;
        out.push(value)?;
    }
    Ok(())
}

/// Returns the integers of the process whose name is at an offset.
#[tactic(auto, using(crate::proofs::Kept::kept_more))]
fn integers_at(
    alloc: Global,
    text: &[u8],
    outline: &Outline<'_>,
    at: usize,
) -> Result<Vec<Value>, NoMemory>
    ensures { IfOk result (λ list. map view list.items ≡ spec.integers_at text.now (places outline.now) at) }
{
    let process = outline.process_at(at);
    let mut list = Vec::new(alloc);
    for one in outline.places() {
        add_integer(alloc, &mut list, text, process, one)?;
    }
    Ok(list)
}

/// Appends the symbol of a place, if it declares a resource or a process.
fn add_symbol(
    alloc: Global,
    out: &mut Vec<Value>,
    text: &[u8],
    given: &[Token<'_>],
    outline: &Outline<'_>,
    one: &Place<'_>,
) -> Result<(), NoMemory>
    ensures { OnOk result (map view out.new.items ≡ map view out.old.items
        ++ spec.symbols_of text.now (tokens given.now) (places outline.now) (place one.now)) }
{
    if !one.declares {
        return Ok(());
    }
    let inside = match one.kind {
        Kind::Resource => Vec::new(alloc),
        Kind::Process => integers_at(alloc, text, outline, one.at)?,
        Kind::Integer(_) => return Ok(()),
    };
    let value = symbol_value(alloc, text, one, extent_of(given, one.at), inside)?;
    out.push(value)?;
    Ok(())
}

/// Returns the symbols of a text with these tokens: each resource, and each process with its integers, in the order of
/// the text.
#[tactic(auto, using(crate::proofs::Kept::flat_more))]
pub fn symbols_value(
    alloc: Global,
    text: &[u8],
    given: &[Token<'_>],
    outline: &Outline<'_>,
) -> Result<Value, NoMemory>
    ensures { IfOk result (λ v. view v ≡ spec.symbols_data text.now (tokens given.now) (places outline.now)) }
{
    let mut list = Vec::new(alloc);
    for one in outline.places() {
        add_symbol(alloc, &mut list, text, given, outline, one)?;
    }
    Ok(Value::Array(list))
}

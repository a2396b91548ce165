//! The claims of each process after its name.

ghost use Rattle.std.specs.Prelude.{◌≡◌, ◌++◌, IfOk, OnOk, map, option_map};
ghost use Rattle.std.specs.Str.Lossy.{utf8_lossy};
ghost use Rattle.serde_json.specs.View.{view};
ghost use Rattle.pb_names.specs.Resolves.{process_names};
ghost use Rattle.pb_outline.specs.Places.{place};
ghost use Rattle.pb_server_claims.specs.Below.{made_of};
ghost use Rattle.pb_server_claims.specs.Hints as spec;
ghost use Rattle.pb_server_claims.specs.Known.{known};
ghost use Rattle.pb_server_claims.specs.Numbered.{numbered};

use crate::numbered::Numbered;
use crate::reading::Reading;
use pb_base::NoMemory;
use pb_base::writing::{put_digits, put_name};
use pb_outline::{Kind, Outline, Place};
use pb_server_names::end_of_name;
use serde_json::{Value, json};
use std::alloc::{AllocError, Global};

/// Returns how much of which resource.
fn amount_words(alloc: Global, amount: u64, resource: &[u8]) -> Result<String, NoMemory>
    ensures { IfOk result (λ words. words.bytes.items ≡ utf8_lossy (spec.amount_words amount resource.now)) }
{
    let mut words = Vec::new(alloc);
    put_digits(&mut words, amount)?;
    put_name(&mut words, b" of ", resource)?;
    Ok(String::from_utf8_lossy(alloc, &words)?)
}

/// Returns a label at a position.
fn label_value(alloc: Global, label: &str, position: Value) -> Result<Value, AllocError>
    ensures { IfOk result (λ v. view v ≡ spec.label_data (view position) label.now) }
{
    json!(in alloc; {"label": label, "paddingLeft": true, "position": position})
}

/// Appends a claim after a name; nothing if it is 0.
fn add_hint(
    alloc: Global,
    out: &mut Vec<Value>,
    text: &[u8],
    one: &Place<'_>,
    amount: u64,
    resource: &[u8],
) -> Result<(), NoMemory>
    ensures { OnOk result (map view out.new.items ≡ map view out.old.items
        ++ spec.hint_if text.now (place one.now) amount resource.now) }
{
    if amount == 0 {
        return Ok(());
    }
    let words = amount_words(alloc, amount, resource)?;
    let position = end_of_name(alloc, text, one)?;
    let hint = label_value(alloc, &words, position)?;
    out.push(hint)?;
    Ok(())
}

/// Appends the claims of process p after a name.
fn add_hints(
    alloc: Global,
    out: &mut Vec<Value>,
    text: &[u8],
    program: &Numbered,
    one: &Place<'_>,
    p: usize,
) -> Result<(), NoMemory>
    ensures { OnOk result (map view out.new.items ≡ map view out.old.items
        ++ spec.hints_of text.now (numbered program.now) (place one.now) p) }
{
    for r in 0..program.resources() {
        let amount = program.claim(p, r);
        add_hint(alloc, out, text, one, amount, program.resource_name(r))?;
    }
    Ok(())
}

/// Appends the claims of the process of this name after it.
fn add_named(
    alloc: Global,
    out: &mut Vec<Value>,
    text: &[u8],
    program: &Numbered,
    one: &Place<'_>,
) -> Result<(), NoMemory>
    ensures { OnOk result (map view out.new.items ≡ map view out.old.items
        ++ made_of (process_names (numbered program.now).program) (place one.now).text
        (spec.hints_of text.now (numbered program.now) (place one.now))) }
{
    for p in 0..program.processes() {
        if program.process_name(p) == one.text {
            add_hints(alloc, out, text, program, one, p)?;
        }
    }
    Ok(())
}

/// Appends the claims of the process that is declared at a place, if one is.
fn add_at(
    alloc: Global,
    out: &mut Vec<Value>,
    text: &[u8],
    program: &Numbered,
    one: &Place<'_>,
) -> Result<(), NoMemory>
    ensures { OnOk result (map view out.new.items ≡ map view out.old.items
        ++ spec.hints_at text.now (numbered program.now) (place one.now)) }
{
    match one.kind {
        Kind::Process => add_named(alloc, out, text, program, one),
        Kind::Resource | Kind::Integer(_) => Ok(()),
    }
}

/// Returns the claims of each process of a text after its name, in the order of the text; none if there is no numbered
/// program, or if nothing is known of the text.
#[tactic(auto, using(pb_server_names::proofs::Kept::flat_more))]
pub(crate) fn hints_value(
    alloc: Global,
    text: &[u8],
    found: &Option<Reading<'_>>,
) -> Result<Value, NoMemory>
    ensures { IfOk result (λ v. view v ≡ spec.hints_data text.now (option_map known found.now)) }
{
    let mut list = Vec::new(alloc);
    let Some(reading) = found else {
        return Ok(Value::Array(list));
    };
    let Some(program) = &reading.found else {
        return Ok(Value::Array(list));
    };
    let outline = Outline::of(alloc, &reading.tree)?;
    for one in outline.places() {
        add_at(alloc, &mut list, text, program, one)?;
    }
    Ok(Value::Array(list))
}

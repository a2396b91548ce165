//! The words about a name of a text.

ghost use Rattle.std.specs.Prelude.{◌≡◌, ◌++◌, IfOk, OnOk, codes};
ghost use Rattle.pb_names.specs.Resolves.{process_names, resource_names};
ghost use Rattle.pb_outline.specs.Places.{place};
ghost use Rattle.pb_server_claims.specs.Below.{made_of};
ghost use Rattle.pb_server_claims.specs.Known.{known};
ghost use Rattle.pb_server_claims.specs.Numbered.{numbered};
ghost use Rattle.pb_server_claims.specs.Said as spec;
ghost use Rattle.pb_tree.specs.View.{program_view};

use crate::numbered::Numbered;
use crate::reading::Reading;
use crate::said::{put_claims, put_holders};
use pb_base::NoMemory;
use pb_base::writing::{put, put_name};
use pb_outline::{Kind, Place};
use pb_tree::Program;
use std::alloc::Global;

/// Appends what is said of the resource of this name.
fn put_resource(out: &mut Vec<u8>, program: &Numbered, name: &[u8]) -> Result<(), NoMemory>
    ensures { OnOk result (out.new.items ≡ out.old.items ++ made_of (resource_names (numbered program.now).program)
        name.now (spec.holders_words (numbered program.now))) }
{
    for r in 0..program.resources() {
        if program.resource_name(r) == name {
            put_holders(out, program, r)?;
        }
    }
    Ok(())
}

/// Appends what is said of the process of this name.
fn put_process(
    alloc: Global,
    out: &mut Vec<u8>,
    program: &Numbered,
    name: &[u8],
) -> Result<(), NoMemory>
    ensures { OnOk result (out.new.items ≡ out.old.items ++ made_of (process_names (numbered program.now).program)
        name.now (spec.claims_words (numbered program.now))) }
{
    for p in 0..program.processes() {
        if program.process_name(p) == name {
            put_claims(alloc, out, program, p)?;
        }
    }
    Ok(())
}

/// Returns the name of the process of a tree with this number.
fn declared_name(tree: &Program<Global>, p: usize) -> &[u8]
    ensures { result.now ≡ spec.declared_name (program_view tree.now) p }
{
    match tree.processes.get(p) {
        Some(process) => &process.name.text,
        None => &[],
    }
}

/// Returns which numbers an integer may be, and what it is at first.
#[tactic(auto, unfolding(crate::specs::Said::integer_range))]
fn integer_range() -> &'static [u8]
    ensures { result.now ≡ spec.integer_range }
{
    b"\nfrom -9223372036854775808 to 9223372036854775807, 0 at first"
}

/// Appends what is said of an integer.
fn put_integer(
    out: &mut Vec<u8>,
    tree: &Program<Global>,
    p: usize,
    name: &[u8],
) -> Result<(), NoMemory>
    ensures { OnOk result (out.new.items ≡ out.old.items
        ++ (codes "integer " ++ (name.now ++ (codes " of process " ++ (spec.declared_name (program_view tree.now) p
        ++ spec.integer_range))))) }
{
    put_name(out, b"integer ", name)?;
    put_name(out, b" of process ", declared_name(tree, p))?;
    put(out, integer_range())
}

/// Returns what is said of a place of a name.
pub(crate) fn name_words(
    alloc: Global,
    reading: &Reading<'_>,
    one: &Place<'_>,
) -> Result<Vec<u8>, NoMemory>
    ensures { IfOk result (λ words. words.items ≡ spec.name_words (known reading.now) (place one.now)) }
{
    let mut words = Vec::new(alloc);
    match one.kind {
        Kind::Resource => {
            put_name(&mut words, b"resource ", one.text)?;
            if let Some(program) = &reading.found {
                put_resource(&mut words, program, one.text)?;
            }
        }
        Kind::Process => {
            put_name(&mut words, b"process ", one.text)?;
            if let Some(program) = &reading.found {
                put_process(alloc, &mut words, program, one.text)?;
            }
        }
        Kind::Integer(p) => put_integer(&mut words, &reading.tree, p, one.text)?,
    }
    Ok(words)
}

//! The words about a claim, and about all claims of a process or on a resource.

ghost use Rattle.std.specs.Prelude.{◌≡◌, ◌++◌, OnOk};
ghost use Rattle.pb_server_claims.specs.Numbered.{numbered};
ghost use Rattle.pb_server_claims.specs.Said as spec;

use crate::numbered::Numbered;
use pb_base::NoMemory;
use pb_base::writing::{put, put_digits, put_name, put_number};
use pb_plan::Part;
use std::alloc::Global;

/// Appends the lines of parts, each after a comma.
fn put_further(out: &mut Vec<u8>, parts: &[Part]) -> Result<(), NoMemory>
    ensures { OnOk result (out.new.items ≡ out.old.items ++ spec.further_lines parts.now) }
{
    for part in parts {
        put_number(out, b", ", part.line)?;
    }
    Ok(())
}

/// Returns `line`, or `lines` if there are further ones.
fn line_word(further: usize) -> &'static [u8]
    ensures { result.now ≡ spec.line_word further }
{
    if further == 0 {
        b" (line "
    } else {
        b" (lines "
    }
}

/// Appends the lines of parts; nothing if there is none.
fn put_lines(out: &mut Vec<u8>, parts: &[Part]) -> Result<(), NoMemory>
    ensures { OnOk result (out.new.items ≡ out.old.items ++ spec.lines_words parts.now) }
{
    let Some((first, rest)) = parts.split_first() else {
        return Ok(());
    };
    put(out, line_word(rest.len()))?;
    put_digits(out, first.line)?;
    put_further(out, rest)?;
    put(out, b")")
}

/// Appends a claim and where it comes from; nothing if it is 0.
fn put_claim(
    out: &mut Vec<u8>,
    amount: u64,
    resource: &[u8],
    parts: &[Part],
) -> Result<(), NoMemory>
    ensures { OnOk result (out.new.items ≡ out.old.items ++ spec.claim_words amount resource.now parts.now) }
{
    if amount == 0 {
        return Ok(());
    }
    put_number(out, b"\nmay hold ", amount)?;
    put_name(out, b" of ", resource)?;
    put(out, b" at once")?;
    put_lines(out, parts)
}

/// Appends the claims of a process.
pub(crate) fn put_claims(
    alloc: Global,
    out: &mut Vec<u8>,
    program: &Numbered,
    p: usize,
) -> Result<(), NoMemory>
    ensures { OnOk result (out.new.items ≡ out.old.items ++ spec.claims_words (numbered program.now) p) }
{
    for r in 0..program.resources() {
        let parts = program.parts(alloc, p, r)?;
        put_claim(out, program.claim(p, r), program.resource_name(r), &parts)?;
    }
    Ok(())
}

/// Appends what a process claims of a resource; nothing if that is 0.
fn put_holder(out: &mut Vec<u8>, process: &[u8], amount: u64) -> Result<(), NoMemory>
    ensures { OnOk result (out.new.items ≡ out.old.items ++ spec.holder_words process.now amount) }
{
    if amount == 0 {
        return Ok(());
    }
    put_name(out, b"\nprocess ", process)?;
    put_number(out, b" may hold ", amount)?;
    put(out, b" at once")
}

/// Appends how much there is of a resource, and what each process claims of it.
pub(crate) fn put_holders(out: &mut Vec<u8>, program: &Numbered, r: usize) -> Result<(), NoMemory>
    ensures { OnOk result (out.new.items ≡ out.old.items ++ spec.holders_words (numbered program.now) r) }
{
    put_number(out, b": ", program.capital(r))?;
    put(out, b" in all")?;
    for p in 0..program.processes() {
        put_holder(out, program.process_name(p), program.claim(p, r))?;
    }
    Ok(())
}

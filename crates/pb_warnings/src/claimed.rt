//! The resources whose capital cannot be used.

ghost use Rattle.std.specs.Prelude.{◌≡◌, ◌<◌, ◌++◌, OnOk, length, map};
ghost use Rattle.pb_base.specs.Tables.{width_of};
ghost use Rattle.pb_lexer.specs.Cutting.{line_at};
ghost use Rattle.pb_tree.specs.View.{resource_view};
ghost use Rattle.pb_warnings.specs.Warnings as spec;
ghost use Rattle.pb_warnings.specs.Warnings.{resource_warnings, unused, warning};

use crate::warning::Warning;
use pb_base::{Claims, NoMemory};
use pb_tree::Resource;
use std::alloc::{Allocator, Global};

/// Returns the line of an offset, from 1.
pub(crate) fn line_of(text: &[u8], at: usize) -> usize
    ensures { result ≡ line_at text.now at }
{
    let before = &text[..at.min(text.len())];
    before.iter().filter(|byte| **byte == b'\n').count() + 1
}

/// Returns the sum of the claims of all processes on a resource.
fn all_claims(claims: &Claims, resource: usize) -> u128
    requires { resource < width_of claims.now }
    ensures { result ≡ spec.all_claims claims.now resource }
{
    let mut total = 0u128;
    for p in 0..claims.processes() {
        total += u128::from(claims.get(p, resource));
    }
    total
}

/// Appends the warning of resource r, if it has more units than all claims on it.
fn add_resource<A: Allocator>(
    alloc: Global,
    out: &mut Vec<Warning>,
    text: &[u8],
    claims: &Claims,
    r: usize,
    resource: &Resource<A>,
) -> Result<(), NoMemory>
    requires { r < width_of claims.now }
    ensures { OnOk result (map warning out.new.items
        ≡ map warning out.old.items ++ unused text.now claims.now r (resource_view resource.now)) }
{
    let capital = resource.capital.value.unsigned_abs();
    let claimed = all_claims(claims, r);
    if claimed < u128::from(capital) {
        out.push(Warning::NotUsed {
            line: line_of(text, resource.name.at),
            resource: Vec::from_slice(alloc, &resource.name.text)?,
            claims: claimed as u64,
            capital,
        })?;
    }
    Ok(())
}

/// Appends the warnings of all resources.
pub(crate) fn add_resources<A: Allocator>(
    alloc: Global,
    out: &mut Vec<Warning>,
    text: &[u8],
    claims: &Claims,
    resources: &Vec<Resource<A>, A>,
) -> Result<(), NoMemory>
    requires { length resources.now.items ≡ width_of claims.now }
    ensures { OnOk result (map warning out.new.items
        ≡ map warning out.old.items ++ resource_warnings text.now claims.now 0 (map resource_view resources.now.items)) }
{
    for r in 0..resources.len() {
        add_resource(alloc, out, text, claims, r, &resources[r])?;
    }
    Ok(())
}

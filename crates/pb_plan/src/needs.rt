//! How much of each resource the claims need.

ghost use Rattle.std.specs.Prelude.{◌≡◌, ◌<◌, ◌≤◌, IfOk, IfSome, MatchOption, length};
ghost use Rattle.pb_base.specs.Tables.{width_of};
ghost use Rattle.pb_plan.specs.Needs as needs;
ghost use Rattle.pb_plan.specs.Needs.{AllFree, IsBottleneck};

use pb_base::{Capital, Claims, NoMemory};
use std::alloc::Global;

/// Returns the greatest claim on a resource: the least capital with which a text with these claims is accepted.
#[tactic(auto, using(crate::proofs::Columns::least_more))]
pub fn least_capital(claims: &Claims, resource: usize) -> u64
    requires { resource < width_of claims.now }
    ensures { result ≡ needs.least_capital claims.now resource }
{
    let mut greatest = 0;
    for p in 0..claims.processes() {
        let claim = claims.get(p, resource);
        if claim > greatest {
            greatest = claim;
        }
    }
    greatest
}

/// Returns the sum of all claims on a resource: the least capital with which there is enough for all claims at
/// once, so that no request for it waits for the banker.
pub fn free_capital(claims: &Claims, resource: usize) -> u128
    requires { resource < width_of claims.now }
    ensures { result ≡ needs.free_capital claims.now resource }
{
    let mut total = 0u128;
    for p in 0..claims.processes() {
        total += u128::from(claims.get(p, resource));
    }
    total
}

/// Returns how much of a resource is lacking for all claims at once.
fn lack(claims: &Claims, capital: &Capital, resource: usize) -> u128
    requires resource { resource < length capital.now }
    requires width { width_of claims.now ≡ length capital.now }
    ensures { result ≡ needs.lack claims.now capital.now resource }
{
    free_capital(claims, resource).saturating_sub(u128::from(capital.get(resource)))
}

/// Returns the first of the resources of which most is lacking for all claims at once; none if nothing is
/// lacking of any.
pub fn bottleneck(claims: &Claims, capital: &Capital) -> Option<usize>
    requires { width_of claims.now ≡ length capital.now }
    ensures { MatchOption result (AllFree claims.now capital.now) (IsBottleneck claims.now capital.now) }
{
    let mut found = None;
    let mut most = 0;
    for r in 0..capital.resources() {
        let lack = lack(claims, capital, r);
        if lack > most {
            most = lack;
            found = Some(r);
        }
    }
    found
}

/// Returns the resources of which there is not enough for all claims at once, in the order of their declarations: a
/// request for no other one waits. The error comes only if `alloc` is out of memory.
pub fn scarce(alloc: Global, claims: &Claims, capital: &Capital) -> Result<Vec<usize>, NoMemory>
    requires { width_of claims.now ≡ length capital.now }
    ensures { IfOk result (λ found. found.items ≡ needs.scarce claims.now capital.now) }
{
    let mut found = Vec::new(alloc);
    for r in 0..capital.resources() {
        if lack(claims, capital, r) > 0 {
            found.push(r)?;
        }
    }
    Ok(found)
}

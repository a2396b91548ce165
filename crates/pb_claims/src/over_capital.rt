//! Whether the capital is enough for every claim.

ghost use Rattle.std.specs.Prelude.{◌≡◌, ◌<◌, ◌≤◌, ℕ, IfErr, IfSome, OnOk, MatchOption, length, slice_index};
ghost use Rattle.pb_base.specs.Banker.{cell};
ghost use Rattle.pb_base.specs.Tables.{width_of};
ghost use Rattle.pb_claims.specs.Fits.{FitCapital, IsFirstOver, IsFirstInRow, RowFits};

use pb_base::limits::MAX_RESOURCES;
use pb_base::{Capital, Claims};

/// A process whose claim on a resource is over the capital: even alone it could not always be served.
#[derive(Clone, Copy, Debug, PartialEq, Eq, thiserror::Error)]
#[error("process {process} claims {claim} of resource {resource}, of which there are {capital}")]
pub struct OverCapital {
    /// The process, by its number from 0.
    pub process: u8,
    /// The resource, by its number from 0.
    pub resource: u8,
    /// What the process may hold of the resource at most.
    pub claim: u64,
    /// How much of the resource there is.
    pub capital: u32,
}

/// Checks that every claim is at most the capital, which the banker asks of each customer (Dijkstra, EWD123).
/// The error names the first process with a claim over the capital, and the first such resource of that
/// process. It takes no memory.
pub fn fits(claims: &Claims, capital: &Capital) -> Result<(), OverCapital>
    requires { width_of claims.now ≡ length capital.now }
    ensures fits { OnOk result (FitCapital claims.now capital.now) }
    ensures over { IfErr result (IsFirstOver claims.now capital.now) }
{
    for p in 0..claims.processes() {
        if let Some(r) = first_over(claims, capital, p) {
            return Err(OverCapital {
                process: p as u8,
                resource: r as u8,
                claim: claims.get(p, r),
                capital: capital.get(r),
            });
        }
    }
    Ok(())
}

/// Returns the first resource on which a process has a claim over the capital.
fn first_over(claims: &Claims, capital: &Capital, p: usize) -> Option<usize>
    requires process { p < length claims.now }
    requires resources { width_of claims.now ≡ length capital.now }
    ensures first { MatchOption result (RowFits claims.now capital.now p)
        (IsFirstInRow claims.now capital.now p) }
    ensures small { IfSome result (λ r. r < MAX_RESOURCES) }
{
    (0..capital.resources()).find(|r| claims.get(p, *r) > u64::from(capital.get(*r)))
}

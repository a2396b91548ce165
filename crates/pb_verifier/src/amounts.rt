//! How much of one resource is held at each place.

ghost use Rattle.std.specs.Prelude.{◌≡◌, ◌<◌, ◌≤◌, ◌==◌, ℕ, cond, false, length, slice_get, IfOk, Some};
ghost use Rattle.pb_base.specs.Bundle.{amount_in};
ghost use Rattle.pb_code.specs.View.{process_view};
ghost use Rattle.pb_verifier.specs.Amounts.{HasHoldings, NeverTakes, TakesNone, TurnsAmount, amount_after, AmountFits};
ghost use Rattle.pb_code.specs.Bundles.{bundle_of};
ghost use Rattle.pb_verifier.specs.Given.{IsOrderOf, instrs_of, plain};
ghost use Rattle.pb_verifier.specs.Limits.{IsSmallProcess};
ghost use Rattle.pb_verifier.specs.Spread.{IsTableOf, fact_at, notes_of};

use crate::facts::{Fact, spread};
use crate::places::{instr_at, places};
use pb_base::{NoMemory, Pair};
use pb_code::{Instr, ProcessCode, pair_at, pairs};
use std::alloc::Global;

/// The most of a resource that one arm holds: 256 bundles of 1,000,000 each.
pub const MAX_HELD: u64 = 256_000_000;

/// How much of a resource is held.
#[derive(Clone, Copy)]
pub struct Amount {
    pub resource: u8,
    pub held: u64,
}

/// Returns the amount of a resource in a pair.
fn share(pair: Pair, resource: u8) -> u32
    ensures { result ≡ cond (pair.resource == resource) pair.amount 0 }
{
    if pair.resource == resource {
        pair.amount
    } else {
        0
    }
}

/// Returns the amount of a resource in a bundle.
fn amount_of(code: &ProcessCode, bundle: u16, resource: u8) -> u64
    ensures value { result ≡ amount_in (bundle_of code.now bundle) resource }
    ensures small { result ≤ 68719476720 }
{
    let mut amount = 0;
    for i in 0..pairs(code, bundle) {
        amount += u64::from(share(pair_at(code, bundle, i), resource));
    }
    amount
}

/// Returns whether an instruction takes some of a resource.
fn takes(code: &ProcessCode, instr: Instr, resource: u8) -> bool
    ensures { result ≡ false → TakesNone resource (plain code.now instr) }
{
    match instr {
        Instr::Take(bundle) => amount_of(code, bundle, resource) > 0,
        _ => false,
    }
}

/// Returns whether a process takes a resource anywhere.
pub fn takes_any(code: &ProcessCode, resource: u8) -> bool
    ensures { result ≡ false → NeverTakes (process_view code.now) resource }
{
    for place in 0..places(code) {
        if takes(code, instr_at(code, place), resource) {
            return true;
        }
    }
    false
}

impl Fact for Amount {
    ghost use Rattle.std.specs.Prelude.{refl};
    ghost use Rattle.pb_verifier.specs.declared.amounts.TheConstants.{MAX_HELD};
    ghost use Rattle.pb_verifier.specs.Amounts.{first_amount};

    ghost Value = { ℕ × ℕ };

    ghost IsFirst = { λ first. first.held ≡ 0 };

    ghost start = { λ first. (first.resource, 0) };

    ghost Fits = { AmountFits };

    ghost after = { amount_after };

    ghost value = { λ _ _ amount. (amount.resource, amount.held) };

    ghost IsReadable = { λ _ _ amount. amount.held ≤ MAX_HELD };

    fn fits(self, code: &ProcessCode, _table: &[Option<Self>], instr: Instr) -> bool {
        match instr {
            Instr::Take(bundle) => amount_of(code, bundle, self.resource) + self.held <= MAX_HELD,
            _ => true,
        }
    }

    fn next(self, code: &ProcessCode, _table: &[Option<Self>], _place: u16, instr: Instr) -> Self {
        let held = match instr {
            Instr::Take(bundle) => amount_of(code, bundle, self.resource) + self.held,
            Instr::Give(bundle) => {
                self.held
                    .saturating_sub(amount_of(code, bundle, self.resource))
            }
            _ => self.held,
        };
        Amount {
            resource: self.resource,
            held,
        }
    }

    fn same(self, other: Self, _code: &ProcessCode, _table: &[Option<Self>]) -> bool {
        self.resource == other.resource && self.held == other.held
    }

    fn share(self, _other: Self, _code: &ProcessCode, _table: &mut Vec<Option<Self>>) {}

    ghost firsts = { first_amount };

    ghost keeps = { λ _ _ _ _ _ _ r. (r, refl) };
}

/// Returns how much of a resource is held at each reached place of a process that has holdings.
pub fn amounts(
    alloc: Global,
    code: &ProcessCode,
    order: &[u16],
    resource: u8,
) -> Result<Vec<Option<Amount>>, NoMemory>
    requires order { IsOrderOf code.now order.now }
    requires small { IsSmallProcess (process_view code.now) }
    requires holdings { HasHoldings (process_view code.now) }
    ensures amounts { IfOk result (λ table. IsTableOf (process_view code.now) TurnsAmount (resource, 0)
        (notes_of (λ a. (a.resource, a.held)) table.items)) }
    ensures long { IfOk result (λ table. length table.items ≡ length (instrs_of code.now)) }
    ensures small { IfOk result (λ table. (p : ℕ) (a : Amount) → fact_at table.items p ≡ Some a
        → a.held ≤ MAX_HELD) }
{
    let first = Amount { resource, held: 0 };
    match spread(alloc, &code.entries, code, order, first) {
        Ok(Some(table)) => Ok(table),
        Ok(None) => unreachable!(),
        Err(error) => Err(error),
    }
}

//! What is held at each place.

ghost use Rattle.std.specs.Prelude.{◌≡◌, ◌↔◌, ◌<◌, ◌≤◌, ℕ, List, [], Option, Some, None, Contains, IfOk, IfSome};
ghost use Rattle.std.specs.Prelude.{IfNone, slice_get, slice_index_or, true, length, IsSome};
ghost use Rattle.pb_base.specs.Steppers.{Bundle};
ghost use Rattle.pb_code.specs.Code.{Take};
ghost use Rattle.pb_code.specs.View.{process_view};
ghost use Rattle.pb_verifier.specs.Faults.{AreHoldings, TurnsHoldings};
ghost use Rattle.pb_code.specs.Bundles.{bundle_of};
ghost use Rattle.pb_verifier.specs.Given.{IsOrderOf, IsTakeAt, instrs_of};
ghost use Rattle.pb_verifier.specs.Spread.{AllReadable, HoldFits, IsKept, IsTableOf, fact_at, held_after, notes_of};
ghost use Rattle.pb_verifier.specs.Holdings.{CanBeRead, IsChain, held, held_bundles};

use crate::facts::{Fact, spread};
use pb_base::NoMemory;
use pb_base::limits::MAX_HOLDS;
use pb_code::{Instr, ProcessCode, pair_at, pairs};
use std::alloc::Global;

/// A list of bundles: how many there are, and where the last was taken.
#[derive(Clone, Copy)]
pub struct Holding {
    pub count: u16,
    pub last: u16,
}

/// Returns whether two numbers name the same bundle, or both none.
fn same_bundle(code: &ProcessCode, one: u16, two: u16) -> bool
    ensures { (result ≡ true) ↔ (bundle_of code.now one ≡ bundle_of code.now two) }
{
    if one == two {
        return true;
    }
    if pairs(code, one) != pairs(code, two) {
        return false;
    }
    for i in 0..pairs(code, one) {
        if pair_at(code, one, i) != pair_at(code, two, i) {
            return false;
        }
    }
    true
}

/// Returns the number of the bundle that the take at a place takes.
fn taken_at(code: &ProcessCode, place: u16) -> u16
    requires { IsTakeAt (instrs_of code.now) place }
    ensures { slice_get (instrs_of code.now) place
        ≡ Some (Take (bundle_of code.now result)) }
{
    match code.instrs[place as usize] {
        Instr::Take(bundle) => bundle,
        _ => unreachable!(),
    }
}

/// Returns what was held before the take at a place.
fn before(table: &[Option<Holding>], place: u16) -> Holding
    requires { IsSome (fact_at table.now place) }
    ensures { fact_at table.now place ≡ Some result }
{
    match table[place as usize] {
        Some(holding) => holding,
        None => unreachable!(),
    }
}

/// Returns whether two lists of bundles of one length are equal.
fn same_holds(code: &ProcessCode, table: &[Option<Holding>], count: u16, one: u16, two: u16) -> bool
    requires one { IsChain (instrs_of code.now) table.now count one }
    requires two { IsChain (instrs_of code.now) table.now count two }
    ensures { (result ≡ true)
        ↔ (held (instrs_of code.now) table.now count one
        ≡ held (instrs_of code.now) table.now count two) }
{
    let mut left = count;
    let mut a = one;
    let mut b = two;
    while left > 0 {
        if a == b {
            return true;
        }
        if !same_bundle(code, taken_at(code, a), taken_at(code, b)) {
            return false;
        }
        a = before(table, a).last;
        b = before(table, b).last;
        left -= 1;
    }
    true
}

/// Lets two equal lists of bundles share what was held before each of their holds.
fn share_holds(code: &ProcessCode, table: &mut Vec<Option<Holding>>, count: u16, one: u16, two: u16)
    requires one { IsChain (instrs_of code.now) table.old.items count one }
    requires two { IsChain (instrs_of code.now) table.old.items count two }
    requires same { held (instrs_of code.now) table.old.items count one
        ≡ held (instrs_of code.now) table.old.items count two }
    requires readable { AllReadable (CanBeRead (instrs_of code.now) table.old.items) table.old.items }
    ensures { IsKept (held_bundles (instrs_of code.now)) (CanBeRead (instrs_of code.now))
        table.old.items table.new.items }
{
    let mut left = count;
    let mut a = one;
    let mut b = two;
    while left > 0 {
        let kept = before(table, a);
        let dropped = before(table, b);
        if kept.last == dropped.last {
            return;
        }
        table[b as usize] = Some(kept);
        a = kept.last;
        b = dropped.last;
        left -= 1;
    }
}

impl Fact for Holding {
    ghost use Rattle.pb_verifier.specs.Holdings.{chain_keeps, none_held};

    ghost Value = { List Bundle };

    ghost IsFirst = { λ first. first.count ≡ 0 };

    ghost start = { λ _. [] };

    ghost Fits = { HoldFits };

    ghost after = { held_after };

    ghost value = { held_bundles };

    ghost IsReadable = { CanBeRead };

    fn fits(self, code: &ProcessCode, _table: &[Option<Self>], instr: Instr) -> bool {
        match instr {
            Instr::Take(_) => self.count < MAX_HOLDS,
            Instr::Give(given) => {
                self.count > 0 && same_bundle(code, taken_at(code, self.last), given)
            }
            _ => true,
        }
    }

    fn next(self, _code: &ProcessCode, table: &[Option<Self>], place: u16, instr: Instr) -> Self {
        match instr {
            Instr::Take(_) => Holding {
                count: self.count + 1,
                last: place,
            },
            Instr::Give(_) => before(table, self.last),
            _ => self,
        }
    }

    fn same(self, other: Self, code: &ProcessCode, table: &[Option<Self>]) -> bool {
        self.count == other.count && same_holds(code, table, self.count, self.last, other.last)
    }

    fn share(self, other: Self, code: &ProcessCode, table: &mut Vec<Option<Self>>) {
        share_holds(code, table, self.count, self.last, other.last);
    }

    ghost firsts = { λ first zero instrs table. none_held instrs table first.count first.last zero };

    ghost keeps = { λ instrs table p new fact none h.
        let k = chain_keeps instrs table p new none fact.count fact.last h.0 in ((k.0, h.1), k.1) };
}

/// Returns what is held at each reached place, or none if there are no such lists.
pub fn holdings(
    alloc: Global,
    code: &ProcessCode,
    order: &[u16],
) -> Result<Option<Vec<Option<Holding>>>, NoMemory>
    requires { IsOrderOf code.now order.now }
    ensures yes { IfOk result (λ answer. IfSome answer (λ table.
        IsTableOf (process_view code.now) TurnsHoldings [] (notes_of (held_bundles (instrs_of code.now) table.items) table.items))) }
    ensures long { IfOk result (λ answer. IfSome answer
        (λ table. length table.items ≡ length (instrs_of code.now))) }
    ensures no { IfOk result (λ answer. IfNone answer
        (¬ ((facts : ℕ → List Bundle) × AreHoldings (process_view code.now) facts))) }
{
    spread(
        alloc,
        &code.entries,
        code,
        order,
        Holding { count: 0, last: 0 },
    )
}

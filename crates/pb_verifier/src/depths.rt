//! How many operands there are at each place.

ghost use Rattle.std.specs.Prelude.{◌≡◌, ℕ, length, IfOk, IfSome, IfNone};
ghost use Rattle.pb_code.specs.View.{process_view};
ghost use Rattle.pb_verifier.specs.Faults.{AreDepths, TurnsDepth};
ghost use Rattle.pb_verifier.specs.Given.{IsOrderOf, instrs_of};
ghost use Rattle.pb_verifier.specs.Spread.{IsTableOf, notes_of};

use crate::facts::{Fact, spread};
use crate::places::{popped, pushed};
use pb_base::NoMemory;
use pb_base::limits::MAX_DEPTH;
use pb_code::{Instr, ProcessCode};
use std::alloc::Global;

/// How many operands there are.
#[derive(Clone, Copy)]
pub struct Depth {
    pub count: u16,
}

impl Fact for Depth {
    ghost use Rattle.std.specs.Prelude.{◌+◌, ◌-◌, ◌≤◌, refl};
    ghost use Rattle.pb_base.specs.declared.limits.TheConstants.{MAX_DEPTH};
    ghost use Rattle.pb_verifier.specs.Faults.{pops, pushes};

    ghost Value = { ℕ };

    ghost IsFirst = { λ first. first.count ≡ 0 };

    ghost start = { λ _. 0 };

    ghost Fits = { λ i depth. (pops i ≤ depth) × (depth ≤ MAX_DEPTH) };

    ghost after = { λ i depth. depth - pops i + pushes i };

    ghost value = { λ _ _ depth. depth.count };

    ghost IsReadable = { λ _ _ _. Unit {0} };

    fn fits(self, _code: &ProcessCode, _table: &[Option<Self>], instr: Instr) -> bool {
        popped(instr) <= self.count && self.count <= MAX_DEPTH
    }

    fn next(self, _code: &ProcessCode, _table: &[Option<Self>], _place: u16, instr: Instr) -> Self {
        Depth {
            count: self.count - popped(instr) + pushed(instr),
        }
    }

    fn same(self, other: Self, _code: &ProcessCode, _table: &[Option<Self>]) -> bool {
        self.count == other.count
    }

    fn share(self, _other: Self, _code: &ProcessCode, _table: &mut Vec<Option<Self>>) {}

    ghost firsts = { λ first zero _ _. (tt, zero) };

    ghost keeps = { λ _ _ _ _ _ _ _. (tt, refl) };
}

/// Returns the depth of each reached place, or none if there are no depths.
pub fn depths(
    alloc: Global,
    code: &ProcessCode,
    order: &[u16],
) -> Result<Option<Vec<Option<Depth>>>, NoMemory>
    requires { IsOrderOf code.now order.now }
    ensures yes { IfOk result (λ answer. IfSome answer (λ table.
        IsTableOf (process_view code.now) TurnsDepth 0 (notes_of (λ d. d.count) table.items))) }
    ensures long { IfOk result (λ answer. IfSome answer
        (λ table. length table.items ≡ length (instrs_of code.now))) }
    ensures no { IfOk result (λ answer. IfNone answer
        (¬ ((facts : ℕ → ℕ) × AreDepths (process_view code.now) facts))) }
{
    spread(alloc, &code.entries, code, order, Depth { count: 0 })
}

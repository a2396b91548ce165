//! Whether nothing is left where an arm ends.

ghost use Rattle.std.specs.Prelude.{◌≡◌, ◌↔◌, ◌<◌, ℕ, [], Option, Some, length, true};
ghost use Rattle.pb_code.specs.Code.{Instr, End};
ghost use Rattle.pb_code.specs.View.{process_view};
ghost use Rattle.pb_verifier.specs.Ends.{IsClearAt};
ghost use Rattle.pb_verifier.specs.Faults.{EndsClear, TurnsDepth, TurnsHoldings};
ghost use Rattle.pb_verifier.specs.Given.{instrs_of, plain};
ghost use Rattle.pb_verifier.specs.Holdings.{held_bundles};
ghost use Rattle.pb_verifier.specs.Spread.{IsTableOf, notes_of};

use crate::depths::Depth;
use crate::holdings::Holding;
use crate::places::{instr_at, places};
use pb_code::{Instr, ProcessCode};

/// Returns whether an instruction is not an end, or nothing is left there.
fn is_clear(
    code: &ProcessCode,
    instr: Instr,
    depth: Option<Depth>,
    holding: Option<Holding>,
) -> bool
    ensures { (result ≡ true) ↔ IsClearAt (plain code.now instr) depth holding }
{
    if !matches!(instr, Instr::End) {
        return true;
    }
    if let Some(depth) = depth {
        if depth.count != 0 {
            return false;
        }
    }
    match holding {
        Some(holding) => holding.count == 0,
        None => true,
    }
}

/// Returns whether no operand and no bundle is left at a reached end.
pub fn ends_clear(
    code: &ProcessCode,
    depths: &[Option<Depth>],
    holdings: &[Option<Holding>],
) -> bool
    requires few_depths { length depths.now ≡ length (instrs_of code.now) }
    requires few_holdings { length holdings.now ≡ length (instrs_of code.now) }
    requires depths { IsTableOf (process_view code.now) TurnsDepth 0 (notes_of (λ d. d.count) depths.now) }
    requires holdings { IsTableOf (process_view code.now) TurnsHoldings []
        (notes_of (held_bundles (instrs_of code.now) holdings.now) holdings.now) }
    ensures { (result ≡ true) ↔ EndsClear (process_view code.now) }
{
    for place in 0..places(code) {
        if !is_clear(code, instr_at(code, place), depths[place], holdings[place]) {
            return false;
        }
    }
    true
}

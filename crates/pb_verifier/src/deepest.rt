//! The greatest depth of each arm.

ghost use Rattle.std.specs.Prelude.{◌≡◌, ◌<◌, ℕ, IfOk, length, slice_index};
ghost use Rattle.pb_code.specs.View.{process_view};
ghost use Rattle.pb_verifier.specs.Faults.{HasArms, TurnsDepth};
ghost use Rattle.pb_verifier.specs.Given.{instrs_of};
ghost use Rattle.pb_verifier.specs.Places.{arms};
ghost use Rattle.pb_verifier.specs.Spread.{IsTableOf, notes_of};
ghost use Rattle.pb_verifier.specs.Verified.{IsDepthOf};

use crate::arms::{arm_count, arm_entry, end_of_arm};
use crate::depths::Depth;
use pb_base::NoMemory;
use pb_code::ProcessCode;
use std::alloc::Global;

/// Returns the greatest depth at a reached place of an arm.
fn deepest(code: &ProcessCode, depths: &[Option<Depth>], arm: usize) -> u16
    requires arm { arm < arms (process_view code.now) }
    requires arms { HasArms (process_view code.now) }
    requires few { length depths.now ≡ length (instrs_of code.now) }
    requires depths { IsTableOf (process_view code.now) TurnsDepth 0 (notes_of (λ d. d.count) depths.now) }
    ensures { IsDepthOf (process_view code.now) arm result }
{
    let begin = arm_entry(code, arm);
    let end = end_of_arm(code, arm);
    let mut best = 0;
    for place in begin..end {
        if let Some(depth) = depths[place] {
            if depth.count > best {
                best = depth.count;
            }
        }
    }
    best
}

/// Returns the greatest depth at a reached place of each arm.
pub fn arm_depths(
    alloc: Global,
    code: &ProcessCode,
    depths: &[Option<Depth>],
) -> Result<Vec<u16>, NoMemory>
    requires arms { HasArms (process_view code.now) }
    requires few { length depths.now ≡ length (instrs_of code.now) }
    requires depths { IsTableOf (process_view code.now) TurnsDepth 0 (notes_of (λ d. d.count) depths.now) }
    ensures all { IfOk result (λ row. length row.items ≡ arms (process_view code.now)) }
    ensures greatest { IfOk result (λ row. (a : ℕ) → a < arms (process_view code.now)
        → IsDepthOf (process_view code.now) a (slice_index row.items a)) }
{
    let mut row = Vec::new(alloc);
    for arm in 0..arm_count(code) {
        row.push(deepest(code, depths, arm))?;
    }
    Ok(row)
}

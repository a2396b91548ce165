//! Whether no process can hold more than it claims.

ghost use Rattle.std.specs.Prelude.{◌≡◌, ◌↔◌, ◌+◌, ◌<◌, ◌≤◌, ℕ, List, IfOk, Some, length, slice_get, slice_index, true};
ghost use Rattle.pb_base.specs.Banker.{cell};
ghost use Rattle.pb_base.specs.Steppers.{Bundle};
ghost use Rattle.pb_base.specs.Tables.{width_of};
ghost use Rattle.pb_code.specs.Code.{Join};
ghost use Rattle.pb_code.specs.View.{instr_view, process_view};
ghost use Rattle.pb_verifier.specs.Amounts.{AreCutOff, HasHoldings, IsPeakOf, TurnsAmount, clamped, held_at};
ghost use Rattle.pb_verifier.specs.Faults.{EndsClear, HasArms, HasForks, PeakFits, in_joined, sum_of_arms};
ghost use Rattle.pb_verifier.specs.Given.{IsOrderOf, instrs_of, plain};
ghost use Rattle.pb_verifier.specs.Limits.{IsSmallProcess};
ghost use Rattle.pb_verifier.specs.Places.{InstrAt, arms};
ghost use Rattle.pb_verifier.specs.Spread.{IsTableOf, fact_at, notes_of};

use crate::amounts::{Amount, MAX_HELD, amounts, takes_any};
use crate::arms::{arm_count, arm_entry, end_of_arm};
use crate::places::instr_at;
use pb_base::limits::{MAX_AMOUNT, MAX_ARMS, MAX_RESOURCES};
use pb_base::{Claims, NoMemory};
use pb_code::{Instr, ProcessCode};
use std::alloc::Global;

/// A number over every claim, at which peaks are cut off.
const OVER: u64 = 1_000_001;

/// Returns the sum of the peaks of some arms.
fn sum_of_peaks(peaks: &[u64], first: u8, count: u8) -> u64
    requires there { first + count ≤ length peaks.now }
    requires small { (b : ℕ) → slice_index peaks.now b ≤ OVER }
    ensures sum { result ≡ sum_of_arms (λ b. slice_index peaks.now b) first count }
    ensures few { result ≤ 256000256 }
{
    let mut sum = 0;
    for k in 0..count {
        sum += peaks[first as usize + k as usize];
    }
    sum
}

/// Returns what an arm and those that it awaits hold at an instruction, cut off.
fn peak_at(instr: Instr, held: u64, peaks: &[u64]) -> u64
    requires held { held ≤ MAX_HELD }
    requires there { (bundles : List Bundle) (first count : ℕ)
        → instr_view bundles instr ≡ Join first count → first + count ≤ length peaks.now }
    requires small { (b : ℕ) → slice_index peaks.now b ≤ OVER }
    ensures { (bundles : List Bundle) → result
        ≡ clamped (held + in_joined (λ b. slice_index peaks.now b) (instr_view bundles instr)) }
{
    match instr {
        Instr::Join { first, count } => (held + sum_of_peaks(peaks, first, count)).min(OVER),
        _ => held.min(OVER),
    }
}

/// Returns whether the peak of arm 0 on each resource is within the claim.
pub fn peaks_fit(
    alloc: Global,
    code: &ProcessCode,
    order: &[u16],
    claims: &Claims,
    process: usize,
) -> Result<bool, NoMemory>
    requires order { IsOrderOf code.now order.now }
    requires small { IsSmallProcess (process_view code.now) }
    requires arms { HasArms (process_view code.now) }
    requires forks { HasForks (process_view code.now) }
    requires holdings { HasHoldings (process_view code.now) }
    requires process { process < length claims.now }
    requires few { width_of claims.now ≤ MAX_RESOURCES }
    requires claims { (r : ℕ) → r < width_of claims.now → cell claims.now process r ≤ MAX_AMOUNT }
    ensures { IfOk result (λ fits. (fits ≡ true) ↔ ((r : ℕ) → r < width_of claims.now
        → PeakFits (process_view code.now) r (cell claims.now process r))) }
{
    for r in 0..claims.resources() {
        if !peak_fits(alloc, code, order, r as u8, claims.get(process, r))? {
            return Ok(false);
        }
    }
    Ok(true)
}

/// Returns whether the peak of arm 0 on a resource is within a claim.
fn peak_fits(
    alloc: Global,
    code: &ProcessCode,
    order: &[u16],
    resource: u8,
    claim: u64,
) -> Result<bool, NoMemory>
    requires order { IsOrderOf code.now order.now }
    requires small { IsSmallProcess (process_view code.now) }
    requires arms { HasArms (process_view code.now) }
    requires forks { HasForks (process_view code.now) }
    requires holdings { HasHoldings (process_view code.now) }
    requires claim { claim ≤ MAX_AMOUNT }
    ensures { IfOk result (λ fits. (fits ≡ true) ↔ PeakFits (process_view code.now) resource claim) }
{
    if !takes_any(code, resource) {
        return Ok(true);
    }
    let table = amounts(alloc, code, order, resource)?;
    Ok(root_peak(code, &table, resource) <= claim)
}

/// Returns the greatest amount of a resource that arm 0 and those that it awaits hold, cut off.
fn root_peak(code: &ProcessCode, table: &[Option<Amount>], resource: u8) -> u64
    requires small { IsSmallProcess (process_view code.now) }
    requires arms { HasArms (process_view code.now) }
    requires forks { HasForks (process_view code.now) }
    requires amounts { IsTableOf (process_view code.now) TurnsAmount (resource, 0)
        (notes_of (λ a. (a.resource, a.held)) table.now) }
    requires long { length table.now ≡ length (instrs_of code.now) }
    requires little { (p : ℕ) (a : Amount) → fact_at table.now p ≡ Some a → a.held ≤ MAX_HELD }
    ensures { (peak : ℕ → ℕ) × (result ≡ clamped (peak 0))
        × ((a : ℕ) → a < arms (process_view code.now) → IsPeakOf (process_view code.now) table.now peak a (peak a)) }
{
    let mut peaks = [0; MAX_ARMS];
    for done in 0..arm_count(code) {
        let arm = arm_count(code) - 1 - done;
        peaks[arm] = arm_peak(code, table, &peaks, arm, resource);
    }
    peaks[0]
}

/// Returns the greatest amount of a resource that an arm and those that it awaits hold, cut off.
fn arm_peak(
    code: &ProcessCode,
    table: &[Option<Amount>],
    peaks: &[u64],
    arm: usize,
    resource: u8,
) -> u64
    requires arm { arm < arms (process_view code.now) }
    requires small { IsSmallProcess (process_view code.now) }
    requires arms { HasArms (process_view code.now) }
    requires forks { HasForks (process_view code.now) }
    requires amounts { IsTableOf (process_view code.now) TurnsAmount (resource, 0)
        (notes_of (λ a. (a.resource, a.held)) table.now) }
    requires long { length table.now ≡ length (instrs_of code.now) }
    requires little { (p : ℕ) (a : Amount) → fact_at table.now p ≡ Some a → a.held ≤ MAX_HELD }
    requires sized { length peaks.now ≡ MAX_ARMS }
    requires cut { (b : ℕ) → slice_index peaks.now b ≤ OVER }
    ensures peak { (peak : ℕ → ℕ) → AreCutOff (process_view code.now) (arm + 1) peak peaks.now
        → (greatest : ℕ) × (result ≡ clamped greatest) × IsPeakOf (process_view code.now) table.now peak arm greatest }
    ensures small { result ≤ OVER }
{
    let begin = arm_entry(code, arm);
    let end = end_of_arm(code, arm);
    let mut best = 0;
    for place in begin..end {
        if let Some(amount) = table[place] {
            let here = peak_at(instr_at(code, place), amount.held, peaks);
            if here > best {
                best = here;
            }
        }
    }
    best
}

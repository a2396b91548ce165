//! The cash of each resource over a run.

ghost use Rattle.std.specs.Prelude.{◌≡◌, ◌-◌, ◌<◌, ℕ, IfOk, OnOk, length};
ghost use Rattle.pb_base.specs.Banker.{cash};
ghost use Rattle.pb_base.specs.Steppers.{banker_state};
ghost use Rattle.pb_code.specs.Whole.{bank_of};
ghost use Rattle.pb_draw.specs.Cash.{IsCashCurve, ShowsCash};
ghost use Rattle.pb_draw.specs.Drawings.{AreCashCurves};
ghost use Rattle.pb_history.specs.Entries.{picks_of};
ghost use Rattle.pb_history.specs.Positions.{AreEnabledBy};
ghost use Rattle.pb_machine.specs.Views.{IsMachine, machine_view};

use crate::drawing::{CashCurve, CashStep};
use crate::walk::advance;
use pb_base::{Lending, NoMemory};
use pb_history::Trace;
use pb_machine::Machine;
use pb_verifier::Verified;
use std::alloc::Global;

/// Returns the cash of a resource.
fn cash_of(verified: &Verified, machine: &Machine, r: usize) -> u32
    requires machine { IsMachine verified.now machine.now }
    requires resource { r < length verified.now.code.capital }
    ensures { result ≡ cash (banker_state (bank_of verified.now.code) (machine_view machine.now).loans) r }
{
    let _ = verified;
    machine.lender().cash(r)
}

/// Returns a curve that begins with this cash.
fn first_step(alloc: Global, cash: u32) -> Result<Vec<CashStep>, NoMemory>
    ensures { IfOk result (λ steps. (f : ℕ → ℕ) → cash ≡ f 0 → ShowsCash f 0 steps.items) }
{
    let mut steps = Vec::new(alloc);
    steps.push(CashStep { at: 0, cash })?;
    Ok(steps)
}

/// Adds a step to a curve if the cash is another than it was.
fn add_step(steps: &mut Vec<CashStep>, last: u32, at: u32, cash: u32) -> Result<(), NoMemory>
    requires { 0 < at }
    ensures { OnOk result ((f : ℕ → ℕ) → last ≡ f (at - 1) → cash ≡ f at
        → ShowsCash f (at - 1) steps.old.items → ShowsCash f at steps.new.items) }
{
    if cash != last {
        steps.push(CashStep { at, cash })?;
    }
    Ok(())
}

/// Returns the cash of a resource at each position.
fn cash_curve(
    alloc: Global,
    verified: &Verified,
    lending: Lending,
    trace: &Trace,
    r: usize,
) -> Result<CashCurve, NoMemory>
    requires enabled { AreEnabledBy lending verified.now.code (picks_of trace.now.entries) }
    requires resource { r < length verified.now.code.capital }
    ensures { IfOk result (IsCashCurve verified.now.code (picks_of trace.now.entries) r) }
{
    let mut machine = Machine::new_by(alloc, verified, lending)?;
    let mut last = cash_of(verified, &machine, r);
    let mut steps = first_step(alloc, last)?;
    for i in 0..trace.len() {
        let _ = advance(verified, trace, &mut machine, i);
        let cash = cash_of(verified, &machine, r);
        add_step(&mut steps, last, i + 1, cash)?;
        last = cash;
    }
    Ok(CashCurve { steps })
}

/// Returns the cash of each resource at each position.
pub(crate) fn cash_curves(
    alloc: Global,
    verified: &Verified,
    lending: Lending,
    trace: &Trace,
) -> Result<Vec<CashCurve>, NoMemory>
    requires { AreEnabledBy lending verified.now.code (picks_of trace.now.entries) }
    ensures { IfOk result (λ curves. AreCashCurves verified.now.code (picks_of trace.now.entries) curves.items) }
{
    let mut curves = Vec::new(alloc);
    let resources = verified.code().capital.resources();
    for r in 0..resources {
        curves.push(cash_curve(alloc, verified, lending, trace, r)?)?;
    }
    Ok(curves)
}

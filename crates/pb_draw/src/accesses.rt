//! The picks of a run that read an integer or assign to one.

ghost use Rattle.std.specs.Prelude.{◌≡◌, ◌+◌, ◌≤◌, IfOk, List, cond, length, slice_get};
ghost use Rattle.pb_base.specs.declared.pair.Pair.{Pair};
ghost use Rattle.pb_code.specs.View.{instr_view, process_view};
ghost use Rattle.pb_draw.specs.Accesses as spec;
ghost use Rattle.pb_history.specs.Entries.{picks_of};
ghost use Rattle.pb_history.specs.Positions.{AreEnabledBy};
ghost use Rattle.pb_machine.specs.Views.{machine_view, thread_view};

use crate::drawing::Integers;
use crate::walk::advance;
use pb_base::limits::MAX_PICKS;
use pb_base::{Lending, NoMemory, Pick};
use pb_code::{Instr, ProcessCode};
use pb_history::Trace;
use pb_machine::{Machine, Thread};
use pb_verifier::Verified;
use std::alloc::Global;

/// The most picks that read or assign of which each is drawn.
pub const MAX_ACCESSES: u32 = 100;

/// What a step does to an integer of its process, by its number.
#[derive(Clone, Copy)]
pub(crate) enum Access {
    Reads(u8),
    Assigns(u8),
}

/// How many picks of a run assign to an integer, and how many read one.
#[derive(Clone, Copy)]
pub(crate) struct Counts {
    pub assignments: u32,
    pub reads: u32,
}

/// Returns what of the integers is drawn, by how many assignments and reads there are.
pub(crate) fn integers_drawn(assignments: u32, reads: u32) -> Integers
    ensures { result ≡ spec.integers_drawn assignments reads }
{
    let both = u64::from(assignments) + u64::from(reads);
    Integers {
        assignments: assignments <= MAX_ACCESSES,
        reads: both <= u64::from(MAX_ACCESSES),
    }
}

/// Returns whether this is a read.
fn is_read(access: Option<Access>) -> bool
    ensures { result ≡ spec.is_read access }
{
    match access {
        Some(Access::Reads(_)) => true,
        Some(Access::Assigns(_)) => false,
        None => false,
    }
}

/// Returns whether this is an assignment.
fn is_assignment(access: Option<Access>) -> bool
    ensures { result ≡ spec.is_assignment access }
{
    match access {
        Some(Access::Reads(_)) => false,
        Some(Access::Assigns(_)) => true,
        None => false,
    }
}

/// Returns what an instruction does to an integer, if it does something.
fn access_by(instr: &Instr) -> Option<Access>
    ensures { (bundles : List (List Pair)) → result ≡ spec.access_by (instr_view bundles instr.now) }
{
    match instr {
        Instr::Load(x) => Some(Access::Reads(*x)),
        Instr::Store(x) => Some(Access::Assigns(*x)),
        _ => None,
    }
}

/// Returns what the next step of an arm does to an integer, if it is live and that step does something.
fn access_at(code: &ProcessCode, thread: &Thread) -> Option<Access>
    ensures { result ≡ spec.access_at (process_view code.now).instrs (thread_view thread.now) }
{
    let place = usize::from(thread.place()?);
    match code.instrs.get(place) {
        Some(instr) => access_by(instr),
        None => None,
    }
}

/// Returns what the next step of the arm of a pick does to an integer, if it is live and that step does something.
pub(crate) fn access_of(verified: &Verified, machine: &Machine, pick: Pick) -> Option<Access>
    ensures { result ≡ spec.access_in (slice_get verified.now.code.processes pick.process)
        (slice_get (machine_view machine.now).processes pick.process) pick.arm }
{
    let code = verified.code();
    let p = usize::from(pick.process);
    let arm = usize::from(pick.arm);
    if code.processes.len() <= p || machine.processes() <= p {
        return None;
    }
    let process = machine.proc(p);
    if process.arms() <= arm {
        return None;
    }
    access_at(&code.processes[p], process.thread(arm))
}

/// Returns one more if it is so.
pub(crate) fn one_more(count: u32, is_so: bool) -> u32
    requires { count ≤ MAX_PICKS }
    ensures { result ≡ count + cond is_so 1 0 }
{
    if is_so { count + 1 } else { count }
}

/// Returns how many picks assign to an integer, and how many read one.
pub(crate) fn accesses_of(
    alloc: Global,
    verified: &Verified,
    lending: Lending,
    trace: &Trace,
) -> Result<Counts, NoMemory>
    requires enabled { AreEnabledBy lending verified.now.code (picks_of trace.now.entries) }
    requires few { length trace.now.entries ≤ MAX_PICKS }
    ensures assignments { IfOk result (λ n. n.assignments
        ≡ spec.assignments verified.now.code (picks_of trace.now.entries) (length trace.now.entries)) }
    ensures reads { IfOk result (λ n. n.reads
        ≡ spec.reads verified.now.code (picks_of trace.now.entries) (length trace.now.entries)) }
{
    let mut machine = Machine::new_by(alloc, verified, lending)?;
    let mut assignments = 0;
    let mut reads = 0;
    for at in 0..trace.len() {
        let access = access_of(verified, &machine, trace.pick(at));
        assignments = one_more(assignments, is_assignment(access));
        reads = one_more(reads, is_read(access));
        let _ = advance(verified, trace, &mut machine, at);
    }
    Ok(Counts { assignments, reads })
}

//! A program on both sides: its code in the machine, its text in the source.

ghost use Rattle.std.specs.Prelude.{IfOk};
ghost use Rattle.pb_machine.specs.Views.{IsMachineOf};
ghost use Rattle.pb_names.specs.View.{resolved_view};
ghost use Rattle.pb_rewrite.specs.Sources.{FitsClaims, IsSource};

use crate::agreement::answers::same_step;
use pb_base::{Event, FaultKind, NoMemory, Pick, Step};
use pb_code::{Code, Instr};
use pb_codegen::laws::one_analysis;
use pb_codegen::{Analysis, CompileFault, Compiled, analyze, compile};
use pb_machine::Machine;
use pb_rewrite::Source;
use pb_rewrite::laws::resolved_programs_fit;
use pb_verifier::Verified;
use std::alloc::Global;

/// The numbered program of a text, and its code.
#[derive(Drop)]
pub(super) struct Program {
    pub(super) analysis: Analysis<Global>,
    pub(super) compiled: Compiled,
}

/// Returns the program of an accepted text.
pub(super) fn program_of(alloc: Global, text: &[u8]) -> Result<Program, CompileFault>
    ensures { IfOk result (λ program.
        FitsClaims (resolved_view program.analysis.program) program.analysis.claims) }
{
    let compiled = compile(alloc, alloc, text)?;
    let analysis = analyze(alloc, alloc, text)?;
    one_analysis();
    resolved_programs_fit();
    Ok(Program { analysis, compiled })
}

/// Returns the place of an arm, if it is live.
pub(super) fn place_of(machine: &Machine, p: usize, arm: usize) -> Option<u16> {
    if p >= machine.processes() {
        return None;
    }
    let process = machine.proc(p);
    if arm >= process.arms() {
        return None;
    }
    process.thread(arm).place()
}

/// Returns whether the arm of a pick is at an instruction that only moves numbers about: the source has no
/// step for it.
fn is_skipped(code: &Code, machine: &Machine, pick: Pick) -> bool {
    let p = usize::from(pick.process);
    let Some(place) = place_of(machine, p, usize::from(pick.arm)) else {
        return false;
    };
    let Some(process) = code.processes.get(p) else {
        return false;
    };
    match process.instrs.get(usize::from(place)) {
        Some(Instr::Push(_)) => true,
        Some(Instr::Jump(_)) => true,
        _ => false,
    }
}

/// What a pick shows on both sides, of the process and the arm.
#[derive(Clone, Copy, PartialEq, Eq)]
pub(super) enum Seen {
    /// The machine moved numbers about, and the source was not asked.
    Skipped,
    Silent,
    Granted(u8, u8),
    Returned(u8, u8),
    Printed(u8, u8, i64),
    Faulted(u8, u8, FaultKind),
    Finished(u8),
    /// It is not enabled.
    Waits(u8, u8),
    /// The sides differ.
    Differ(u8, u8),
}

/// Returns what a step shows that both sides make at a pick.
pub(super) fn shown(pick: Pick, step: Step) -> Seen {
    match step {
        Step::Silent => Seen::Silent,
        Step::Did(Event::Granted { pick, .. }) => Seen::Granted(pick.process, pick.arm),
        Step::Did(Event::Returned { pick, .. }) => Seen::Returned(pick.process, pick.arm),
        Step::Did(Event::Printed { pick, value }) => Seen::Printed(pick.process, pick.arm, value),
        Step::Did(Event::Faulted { pick, kind }) => Seen::Faulted(pick.process, pick.arm, kind),
        Step::Did(Event::Finished { process }) => Seen::Finished(process),
        Step::NotEnabled => Seen::Waits(pick.process, pick.arm),
    }
}

/// Makes a pick on both sides; on the side of the source, if the code does more than move numbers about.
pub(super) fn step_both(
    alloc: Global,
    verified: &Verified,
    machine: &mut Machine,
    source: &mut Source<Global>,
    pick: Pick,
) -> Result<Seen, NoMemory>
    requires machine { IsMachineOf verified.now machine.old }
    requires source { IsSource source.old }
    ensures machine { IsMachineOf verified.now machine.new }
    ensures source { IsSource source.new }
{
    let skipped = is_skipped(verified.code(), machine, pick);
    let step = machine.step(verified, pick);
    if skipped {
        return Ok(match step {
            Step::Silent => Seen::Skipped,
            _ => Seen::Differ(pick.process, pick.arm),
        });
    }
    match source.step(alloc, pick) {
        Ok(other) if same_step(&step, &other) => Ok(shown(pick, step)),
        Ok(_) => Ok(Seen::Differ(pick.process, pick.arm)),
        Err(error) => Err(error),
    }
}

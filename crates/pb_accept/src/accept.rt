//! Texts, as far as every command over texts looks at them.
ghost use Rattle.std.specs.Prelude.{◌≤◌, ℕ, IfErr, IfOk, List, length};
ghost use Rattle.pb_command_io.specs.Answers.{Tells};
ghost use Rattle.pb_command_io.specs.Inputs.{SaysOfInput};
ghost use Rattle.pb_accept.specs.Refusals.{IsRefusal, RefusesWith, SaysOfRefusedText};
ghost use Rattle.pb_codegen.specs.Compiled.{IsCompiled, IsRefused};
ghost use Rattle.pb_command_io.specs.Faults.{TellsWriteFaults};

use crate::cause::{lex_cause, parse_cause};
use crate::refusal::{names_text, over_capital_text, refusal_text};
use bumpalo::Bump;
use pb_base::limits::MAX_INPUT;
use pb_base::{NoMemory, Output};
use pb_codegen::{CompileFault, Compiled, compile};
use pb_command_io::{Reply, Status, refused, tell};
use std::alloc::Global;

/// Why a text is not accepted.
#[derive(Drop)]
pub enum Refusal {
    /// The line of its first fault, without a line feed.
    Line(Vec<u8>),
    /// Out of memory.
    NoMemory,
}

/// Returns the line of a fault of a text, without a line feed.
pub fn fault_line(alloc: Global, fault: CompileFault) -> Result<Vec<u8>, NoMemory>
    ensures { (text : List ℕ) → IsRefused text fault → IfOk result (λ line. RefusesWith text line.items) }
{
    match fault {
        CompileFault::Lex(fault) => refusal_text(alloc, lex_cause(fault)),
        CompileFault::Parse(fault) => refusal_text(alloc, parse_cause(fault)),
        CompileFault::Names(fault) => names_text(alloc, fault),
        CompileFault::Claims(fault) => over_capital_text(alloc, &fault),
        CompileFault::Memory => Err(NoMemory),
    }
}

/// Returns the refusal for a fault: by its line, if there is memory for it.
fn refusal_of(alloc: Global, fault: CompileFault) -> Refusal
    ensures { (text : List ℕ) → IsRefused text fault → IsRefusal text result }
{
    match fault_line(alloc, fault) {
        Ok(line) => Refusal::Line(line),
        Err(_) => Refusal::NoMemory,
    }
}

/// Returns the code of a text, whose trees are in an arena while it is compiled, or its fault.
pub fn code_of_text(alloc: Global, text: &[u8]) -> Result<Compiled, CompileFault>
    ensures compiled { IfOk result (λ c. IsCompiled text.now c.verified.code c.labels) }
    ensures refused { IfErr result (IsRefused text.now) }
{
    let arena = Bump::new(alloc);
    compile(alloc, &arena, text)
}

/// Returns the code of a text, or its refusal.
pub fn compile_text(alloc: Global, text: &[u8]) -> Result<Compiled, Refusal>
    ensures compiled { IfOk result (λ c. IsCompiled text.now c.verified.code c.labels) }
    ensures refused { IfErr result (IsRefusal text.now) }
{
    match code_of_text(alloc, text) {
        Ok(compiled) => Ok(compiled),
        Err(fault) => Err(refusal_of(alloc, fault)),
    }
}

/// Returns the reply of a refusal, if there was memory for its line.
fn refusal_reply(refusal: Refusal) -> Result<Reply, NoMemory>
    ensures { (text : List ℕ) → IsRefusal text refusal
        → IfOk result (λ r. SaysOfRefusedText text r.text.items r.status) }
{
    match refusal {
        Refusal::Line(line) => refused(line),
        Refusal::NoMemory => Err(NoMemory),
    }
}

/// Writes the line of a refusal, or `memory` if out of memory for it.
pub fn refuse<O: Output>(alloc: Global, refusal: Refusal, output: &mut O) -> Status
    ensures text { (text : List ℕ) → length text ≤ MAX_INPUT → IsRefusal text refusal
        → Tells (SaysOfInput SaysOfRefusedText text) (O.written output.old) (O.written output.new) result }
    ensures faults { TellsWriteFaults (O.failures output.old) (O.failures output.new) result }
{
    tell(alloc, refusal_reply(refusal), output)
}

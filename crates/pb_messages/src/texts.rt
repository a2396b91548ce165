//! The message of a text that is refused.

ghost use Rattle.std.specs.Prelude.{ℕ, [], IfOk, IfSome, IfNone, IfErr};
ghost use Rattle.pb_codegen.specs.Compiled.{IsCompiled, IsRefused};
ghost use Rattle.pb_messages.specs.Messages.{TellsRefusal};
ghost use Rattle.pb_messages.specs.Said.{SaysOfProgram};

use crate::worded::worded;
use bumpalo::Bump;
use pb_accept::text_cause;
use pb_base::NoMemory;
use pb_codegen::{CompileFault, Compiled, analyze, compile};
use pb_message_wording::text_wording;
use std::alloc::Global;

/// Returns the message of the first fault of a text, or its code if there is none. A label is put before the
/// line of the place.
pub fn text_message(
    alloc: Global,
    label: &str,
    text: &[u8],
) -> Result<Result<Compiled, Vec<u8>>, NoMemory>
    ensures accepted { IfOk result (λ looked. IfOk looked (λ c. IsCompiled text.now c.verified.code c.labels)) }
    ensures refused { IfOk result (λ looked. IfErr looked (λ message. TellsRefusal label.now text.now message.items)) }
{
    let arena = Bump::new(alloc);
    match compile(alloc, &arena, text) {
        Ok(compiled) => Ok(Ok(compiled)),
        Err(fault) => Ok(Err(fault_message(alloc, label, text, &fault)?)),
    }
}

/// Returns the message of the first fault of a text whose capital does not matter; nothing if there is none.
pub fn early_message(alloc: Global, text: &[u8]) -> Result<Option<Vec<u8>>, NoMemory>
    ensures accepted { IfOk result (λ looked. IfNone looked (SaysOfProgram text.now [])) }
    ensures refused { IfOk result (λ looked. IfSome looked (λ message. TellsRefusal [] text.now message.items)) }
{
    let arena = Bump::new(alloc);
    match analyze(alloc, &arena, text) {
        Ok(_) => Ok(None),
        Err(fault) => Ok(Some(fault_message(alloc, "", text, &fault)?)),
    }
}

/// Returns the message of a fault of a text.
fn fault_message(
    alloc: Global,
    label: &str,
    text: &[u8],
    fault: &CompileFault,
) -> Result<Vec<u8>, NoMemory>
    requires { IsRefused text.now fault.now }
    ensures { IfOk result (λ message. TellsRefusal label.now text.now message.items) }
{
    let Some(cause) = text_cause(fault) else {
        return Err(NoMemory);
    };
    let wording = text_wording(alloc, text, fault)?;
    worded(alloc, label, text, &cause, &wording)
}

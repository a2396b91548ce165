//! The message of texts that are read as one program.

ghost use Rattle.std.specs.Prelude.{◌≡◌, ◌≤◌, ◌⊎◌, ◌+◌, IfOk, length, map, string_bytes};
ghost use Rattle.pb_base.specs.declared.limits.TheConstants.{MAX_INPUT as most};
ghost use Rattle.pb_joint.specs.Texts.{IsFirstFault};
ghost use Rattle.pb_messages.specs.Said.{SaysWithin};
ghost use Rattle.pb_search_tool.specs.Messages.{IsLabelOf, SaysOfTogether, TellsFirstFault};

use crate::changed::read_message;
use bumpalo::Bump;
use pb_accept::text_cause;
use pb_base::NoMemory;
use pb_base::limits::MAX_INPUT;
use pb_capitals::Change;
use pb_codegen::{CompileFault, analyze};
use pb_joint::{TextFault, read_texts};
use pb_message_wording::text_wording;
use pb_messages::long_message;
use pb_messages::worded::worded;
use pb_mistakes::Wording;
use pb_names::{Kind, NameFault};
use pb_plan_engine::texts_of;
use std::alloc::{AllocError, Global};

/// Returns the message of the first fault of texts that are read as one program, with these changes of its capital; or
/// of the changes; or if there are none those of the texts whose capital is too little for a claim, or nothing if there is
/// nothing to be said of them.
pub fn together_message(
    alloc: Global,
    changes: &[Change],
    bytes: &[u8],
) -> Result<Vec<u8>, NoMemory>
    ensures { IfOk result (λ message. SaysWithin (SaysOfTogether changes.now) bytes.now message.items) }
{
    if bytes.len() > MAX_INPUT {
        return long_message(alloc);
    }
    parts_message(alloc, changes, bytes)
}

/// Returns the message of the texts of an input that is not too long.
fn parts_message(alloc: Global, changes: &[Change], bytes: &[u8]) -> Result<Vec<u8>, NoMemory>
    requires { length bytes.now ≤ most }
    ensures { IfOk result (λ message. SaysOfTogether changes.now bytes.now message.items) }
{
    let texts = texts_of(alloc, bytes)?;
    match read_texts(alloc, &texts) {
        Ok(joint) => read_message(alloc, changes, &joint.program, bytes),
        Err(refused) => refused_message(alloc, &texts, &refused),
    }
}

/// Returns the message of the first fault of texts.
fn refused_message(alloc: Global, texts: &[&[u8]], refused: &TextFault) -> Result<Vec<u8>, NoMemory>
    requires { (refused.now.fault ≡ CompileFault.Memory)
        ⊎ IsFirstFault (map (λ text. text.now) texts.now) refused.now.index refused.now.fault }
    ensures { IfOk result (λ message. TellsFirstFault (map (λ text. text.now) texts.now) message.items) }
{
    let Some(cause) = text_cause(&refused.fault) else {
        return Err(NoMemory);
    };
    let text = texts[refused.index];
    let wording = wording_of(alloc, text, &refused.fault)?;
    let label = label_of(alloc, texts.len() > 1, refused.index)?;
    worded(alloc, label.as_str(), text, &cause, &wording)
}

/// Returns what is said before the line of the text of this index: its number, if there are several.
fn label_of(alloc: Global, several: bool, index: usize) -> Result<String, AllocError>
    ensures { IfOk result (λ label. IsLabelOf several (index + 1) (string_bytes label)) }
{
    if !several {
        return Ok(String::new(alloc));
    }
    let number = index as u128 + 1;
    format!(in alloc; "text {number}, ")
}

/// Returns the wording of a fault of a text, by itself or together with those before it.
fn wording_of(alloc: Global, text: &[u8], fault: &CompileFault) -> Result<Wording, NoMemory> {
    let arena = Bump::new(alloc);
    let is_program = analyze(alloc, &arena, text).is_ok();
    match fault {
        CompileFault::Names(fault) if is_program => Ok(joint_wording(alloc, *fault)),
        _ => text_wording(alloc, text, fault),
    }
}

/// Returns the wording of a fault of names that a text, a program by itself, has together with those before it.
fn joint_wording(alloc: Global, fault: NameFault) -> Wording {
    match fault {
        NameFault::TooMany(Kind::Processes) => Wording::of(
            alloc,
            "with the texts before it the text has more than 64 processes",
        ),
        NameFault::TooMany(_) => Wording::of(
            alloc,
            "with the texts before it the text has more than 16 resources",
        ),
        _ => Wording::noted(
            alloc,
            "a text before this one declares this name too",
            "hint: each process of all texts has a name of its own, and a resource has the same capital in each text",
        ),
    }
}

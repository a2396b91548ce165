//! Conversations with a client.

ghost use Rattle.std.specs.Prelude.{◌≡◌, ◌≢◌, ◌≤◌, ◌<◌, ◌⊎◌, ◌∷◌, [], IfErr, IfOk, IfSome, MatchBool, OnOk, false, true};
ghost use Rattle.pb_conversations.specs.Conversations.{AnswersBeforeRead, CountsBoth, CountsWrites, fault_words};
ghost use Rattle.pb_server.specs.Responses.{told_by};
ghost use Rattle.pb_server.specs.Conversations.{AnswersRead, TalksOut, TalksSome, WritesBroken, broken_data};

use crate::answer::answer_content;
use crate::language::Language;
use crate::response::{Fault, failed};
use crate::session::Session;
use crate::writer::write_reply;
use pb_base::{Input, Output};
use pb_conversations::{MAX_MESSAGES, Stop};
use pb_frames::{FrameFault, read_frame};
use serde_json::Value;
use std::alloc::{AllocError, Global};

/// Returns the words for a fault.
fn words_of(fault: FrameFault) -> &'static str
    ensures { result.now ≡ fault_words fault }
{
    match fault {
        FrameFault::Early => "the input ends within a message",
        FrameFault::Malformed => "this is not the header of a message",
        FrameFault::TooLong => "the message is too long",
        FrameFault::Memory => "out of memory",
        FrameFault::Device => "a read failed",
    }
}

/// Returns the last message, which says why no further one was read.
fn broken(alloc: Global, fault: FrameFault) -> Result<Option<Value>, AllocError>
    ensures { IfOk result (λ reply. told_by reply ≡ broken_data fault ∷ []) }
{
    let message = failed(alloc, &Value::Null, Fault::NoJson, words_of(fault))?;
    Ok(Some(message))
}

/// Writes why no further message was read, if that is a fault of the bytes, and returns why the conversation
/// breaks off.
fn break_off<O: Output>(alloc: Global, output: &mut O, fault: FrameFault) -> Stop
    ensures written { WritesBroken result fault (O.written output.old) (O.written output.new) }
    ensures counted { fault ≢ FrameFault.Device → CountsWrites result (O.failures output.old) (O.failures output.new) }
    ensures device { fault ≡ FrameFault.Device → (result ≡ Stop.Device) × (O.failures output.new ≡ O.failures output.old)
        × (O.written output.new ≡ O.written output.old) }
{
    match fault {
        FrameFault::Memory => return Stop::Memory,
        FrameFault::Device => return Stop::Device,
        _ => {}
    }
    let Ok(reply) = broken(alloc, fault) else {
        return Stop::Memory;
    };
    match write_reply(alloc, output, &reply) {
        Ok(()) => Stop::Broken,
        Err(stop) => stop,
    }
}

/// Returns whether a further message is read.
fn goes_on(session: &Session, heard: u64) -> bool
    ensures { MatchBool result ((heard ≤ MAX_MESSAGES) × (session.now.over ≡ false))
        ((session.now.over ≡ true) ⊎ (MAX_MESSAGES < heard)) }
{
    if MAX_MESSAGES < heard {
        return false;
    }
    !session.is_over()
}

/// Answers the messages of an input, each before the next is read, up to the end of the input or until the client
/// goes. If what comes next is not a message, a last message says so, and the conversation breaks off. If out of
/// memory, nothing of a message is written that was not made whole. If a read fails, exactly the messages that were
/// read before are answered.
pub fn converse<L: Language, I: Input, O: Output>(
    alloc: Global,
    language: &L,
    session: &mut Session,
    input: &mut I,
    output: &mut O,
) -> Result<(), Stop>
    ensures all { OnOk result (IfSome (I.rest input.old) (λ bytes.
        TalksOut L.Diagnoses L.Finds session.old bytes (O.written output.old) (O.written output.new) session.new)) }
    ensures some { IfErr result (λ e. IfSome (I.rest input.old) (λ bytes.
        TalksSome L.Diagnoses L.Finds session.old bytes (O.written output.old) (O.written output.new) e)) }
    ensures answered { IfErr result (λ _. I.failures input.new ≢ I.failures input.old →
        AnswersBeforeRead (AnswersRead L.Diagnoses L.Finds session.old) (I.rest input.old) (I.rest input.new)
        (O.written output.old) (O.written output.new) (O.failures output.old) (O.failures output.new)) }
    ensures counted_reads { OnOk result (I.failures input.new ≡ I.failures input.old) }
    ensures counted_writes { OnOk result (O.failures output.new ≡ O.failures output.old) }
    ensures fault { IfErr result (λ e. CountsBoth e (I.failures input.old) (I.failures input.new)
        (O.failures output.old) (O.failures output.new)) }
{
    let mut heard = 0;
    while goes_on(session, heard) {
        let content = match read_frame(alloc, input) {
            Ok(Some(content)) => content,
            Ok(None) => return Ok(()),
            Err(fault) => return Err(break_off(alloc, output, fault)),
        };
        let Ok(reply) = answer_content(alloc, language, session, &content) else {
            return Err(Stop::Memory);
        };
        match write_reply(alloc, output, &reply) {
            Ok(()) => heard += 1,
            Err(stop) => return Err(stop),
        }
    }
    Ok(())
}

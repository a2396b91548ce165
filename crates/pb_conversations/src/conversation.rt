//! Conversations, and the adapters that answer their requests.

ghost use Rattle.std.specs.Prelude.{◌≡◌, ◌≢◌, ◌≤◌, ◌<◌, ◌^◌, ◌⊎◌, ◌∷◌, [], ℕ, List, Bool, IfErr, IfOk, IfSome, MatchBool, OnOk, false, true};
ghost use Rattle.serde_json.specs.Data.{Data};
ghost use Rattle.pb_adapter_requests.specs.Requests.{Asked, request_view};
ghost use Rattle.pb_adapter_requests.specs.Responses.{failed_data, told_by};
ghost use Rattle.pb_conversations.specs.Conversations.{AnswersBeforeRead, AnswersContent, AnswersRead, AreFloatFree, CountsBoth, CountsWrites, TalksOut, TalksSome, WritesBroken};
ghost use Rattle.pb_conversations.specs.Conversations.{broken_data, fault_words};

use crate::writer::{messages_in, write_reply};
use pb_adapter_requests::{Reply, Request, alone, failed, request_of};
use pb_base::{Input, NoMemory, Output};
use pb_frames::{FrameFault, read_frame};
use serde_json::Value;
use std::alloc::{AllocError, Global};

/// The number up to which a conversation reads further messages.
pub const MAX_MESSAGES: u64 = 4_294_967_295;

/// Why a conversation breaks off.
#[derive(Clone, Copy, Debug, PartialEq, Eq, thiserror::Error)]
pub enum Stop {
    /// What comes next in the input is not a message.
    #[error("what comes next is not a message")]
    Broken,
    #[error("out of memory")]
    Memory,
    /// A read or a write failed.
    #[error("a read or a write failed")]
    Device,
}

/// A type that answers the requests of a conversation.
pub trait Adapter {
    /// A request is answered by these messages, numbered from a number on, and leads from a state to another.
    ghost Answers: { Self → ℕ → Asked → List Data → Self → Type 0 };

    /// It answers no further messages.
    ghost over: { Self → Bool };

    /// Answers a request.
    fn answer(&mut self, alloc: Global, seq: u64, request: Request<'_>) -> Result<Reply, NoMemory>
        requires few { seq < 2 ^ 63 }
        ensures answers { IfOk result (λ reply. Answers self.old seq (request_view request.entry) (told_by reply) self.new) }
        ensures float_free { IfOk result (λ reply. AreFloatFree (told_by reply)) };

    /// Returns whether it answers no further messages.
    fn is_over(&self) -> bool
        ensures { result ≡ over self.now };
}

/// Returns the words for a fault.
fn words_of(fault: FrameFault) -> &'static str
    ensures { result.now ≡ fault_words fault }
{
    match fault {
        FrameFault::Early => "the input ends within a message",
        FrameFault::Malformed => "this is not the header of a message",
        FrameFault::TooLong => "the message is too long",
        FrameFault::Memory => "out of memory",
        FrameFault::Device => "a read failed",
    }
}

/// Returns the last message, which says why no further one was read.
fn broken_reply(alloc: Global, seq: u64, fault: FrameFault) -> Result<Reply, AllocError>
    ensures { IfOk result (λ reply. told_by reply ≡ broken_data seq fault ∷ []) }
{
    let response = failed(alloc, seq, 0, "", words_of(fault))?;
    Ok(alone(response))
}

/// Writes why no further message was read, if that is a fault of the bytes, and returns why the conversation
/// breaks off.
fn break_off<O: Output>(alloc: Global, output: &mut O, seq: u64, fault: FrameFault) -> Stop
    ensures written { WritesBroken result fault seq (O.written output.old) (O.written output.new) }
    ensures counted { fault ≢ FrameFault.Device → CountsWrites result (O.failures output.old) (O.failures output.new) }
    ensures device { fault ≡ FrameFault.Device → (result ≡ Stop.Device) × (O.failures output.new ≡ O.failures output.old)
        × (O.written output.new ≡ O.written output.old) }
{
    match fault {
        FrameFault::Memory => return Stop::Memory,
        FrameFault::Device => return Stop::Device,
        _ => {}
    }
    let Ok(reply) = broken_reply(alloc, seq, fault) else {
        return Stop::Memory;
    };
    match write_reply(alloc, output, &reply) {
        Ok(()) => Stop::Broken,
        Err(stop) => stop,
    }
}

/// Returns the reply that a content is no request.
fn no_request(alloc: Global, seq: u64, message: &str) -> Result<Reply, NoMemory>
    ensures { IfOk result (λ reply. told_by reply ≡ failed_data seq 0 [] message.now ∷ []) }
{
    let response = failed(alloc, seq, 0, "", message)?;
    Ok(alone(response))
}

/// Answers the content of a message.
pub fn answer_content<A: Adapter>(
    alloc: Global,
    seq: u64,
    adapter: &mut A,
    content: &[u8],
) -> Result<Reply, NoMemory>
    requires few { seq < 2 ^ 63 }
    ensures answers { IfOk result (λ reply. AnswersContent A.Answers adapter.old seq content.now (told_by reply) adapter.new) }
    ensures float_free { IfOk result (λ reply. AreFloatFree (told_by reply)) }
{
    let value = match Value::from_slice(alloc, content) {
        Ok(value) => value,
        Err(error) => {
            if error.is_memory() {
                return Err(NoMemory);
            }
            return no_request(alloc, seq, "this is not JSON");
        }
    };
    match request_of(&value) {
        Some(request) => adapter.answer(alloc, seq, request),
        None => no_request(alloc, seq, "this is not a request"),
    }
}

/// Returns whether a further message is answered.
fn goes_on<A: Adapter>(adapter: &A, seq: u64) -> bool
    ensures { MatchBool result ((seq ≤ MAX_MESSAGES) × (A.over adapter.now ≡ false))
        ((A.over adapter.now ≡ true) ⊎ (MAX_MESSAGES < seq)) }
{
    if MAX_MESSAGES < seq {
        return false;
    }
    !adapter.is_over()
}

/// Answers the messages of an input, numbered from `first` on, each before the next is read, up to the end of
/// the input or until there is nothing more to answer; returns the number of the next message. If what comes
/// next is not a message, a last message says so, and the conversation breaks off. If out of memory, nothing of a
/// reply is written that was not made whole. If a read fails, exactly the messages that were read before are answered.
pub fn converse<A: Adapter, I: Input, O: Output>(
    alloc: Global,
    first: u64,
    adapter: &mut A,
    input: &mut I,
    output: &mut O,
) -> Result<u64, Stop>
    requires { first ≤ 2 ^ 33 }
    ensures all { IfOk result (λ next. IfSome (I.rest input.old) (λ bytes.
        TalksOut A.Answers A.over adapter.old first bytes (I.rest input.new) (O.written output.old) (O.written output.new)
        adapter.new next)) }
    ensures some { IfErr result (λ e. IfSome (I.rest input.old) (λ bytes.
        TalksSome A.Answers A.over adapter.old first bytes (O.written output.old) (O.written output.new) e)) }
    ensures answered { IfErr result (λ _. I.failures input.new ≢ I.failures input.old →
        AnswersBeforeRead (AnswersRead A.Answers A.over adapter.old first) (I.rest input.old) (I.rest input.new)
        (O.written output.old) (O.written output.new) (O.failures output.old) (O.failures output.new)) }
    ensures few { IfOk result (λ next. next ≤ 2 ^ 33) }
    ensures counted_reads { OnOk result (I.failures input.new ≡ I.failures input.old) }
    ensures counted_writes { OnOk result (O.failures output.new ≡ O.failures output.old) }
    ensures fault { IfErr result (λ e. CountsBoth e (I.failures input.old) (I.failures input.new)
        (O.failures output.old) (O.failures output.new)) }
{
    let mut seq = first;
    while goes_on(adapter, seq) {
        let content = match read_frame(alloc, input) {
            Ok(Some(content)) => content,
            Ok(None) => return Ok(seq),
            Err(fault) => return Err(break_off(alloc, output, seq, fault)),
        };
        let Ok(reply) = answer_content(alloc, seq, adapter, &content) else {
            return Err(Stop::Memory);
        };
        match write_reply(alloc, output, &reply) {
            Ok(()) => seq += messages_in(&reply),
            Err(stop) => return Err(stop),
        }
    }
    Ok(seq)
}

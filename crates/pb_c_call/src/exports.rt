//! The C functions. What C owes for each of them: pointers to memory of the types that are named, which nothing
//! else uses during the call.

ghost use Rattle.std.specs.Prelude.{◌≢◌, ◌⊎◌, [], false, map};
ghost use Rattle.pb_accept.specs.Checks.{SaysOfChecks};
ghost use Rattle.pb_accept.specs.Claims.{SaysOfAny, SaysOfClaims};
ghost use Rattle.pb_accept.specs.Sayings.{line_of};
ghost use Rattle.pb_c_call.specs.Replies.{IsGiven, IsNotRead, Replies, Tellings};
ghost use Rattle.pb_plan_engine.specs.Plans.{SaysOfPlans};
ghost use Rattle.pb_plan_engine.specs.Sayings as plan_sayings;
ghost use Rattle.pb_voice.specs.Voices.{Written};

use crate::alone::answer_alone;
use crate::reply::{Kept, number_of, put_front};
use crate::word::{NoWords, Word, texts_of};
use pb_accept::{write_checks, write_claims};
use pb_base::{Lending, MemoryInput};
use pb_capitals::Changes;
use pb_command_io::Status;
use pb_options::CheckOptions;
use pb_plan_engine::write_plan;
use pb_voice::Form;
use std::alloc::Global;

/// Does what the words of a call say with the bytes of an input, and gives the reply. Its length is written to
/// `needed`, and as much of it as there is room for to `output`. Returns the exit status of the program; if out of
/// memory for the reply, it returns 5 and gives a first part of it.
#[unsafe(no_mangle)]
pub extern "C" fn pb_call(
    alloc: Global,
    words: &[Word<'_>],
    input: &[u8],
    output: &mut [u8],
    needed: &mut usize,
) -> u8
    ensures given { IsGiven (Replies (map (λ word. word.text.now) words.now) input.now) output.new result needed.new
        ⊎ IsNotRead words.now result needed.new }
    ensures no_device { result ≢ 6 }
{
    *needed = 0;
    let texts = match texts_of(alloc, words) {
        Ok(texts) => texts,
        Err(NoWords::NotUtf8) => return Status::Words.number(),
        Err(NoWords::NoMemory) => return Status::Memory.number(),
    };
    let mut source = MemoryInput::new(input);
    let mut reply = Kept::new(alloc);
    let status = answer_alone(alloc, texts.as_slice(), &mut source, &mut reply);
    let bytes = reply.as_slice();
    put_front(output, bytes);
    *needed = bytes.len();
    number_of(status)
}

/// Checks the texts that the input holds, which lines `%%` part, as the command `check` does, and gives the
/// reply as `pb_call` does.
#[unsafe(no_mangle)]
pub extern "C" fn pb_check(alloc: Global, text: &[u8], output: &mut [u8], needed: &mut usize) -> u8
    ensures given { IsGiven (Tellings (Written line_of (SaysOfAny (SaysOfChecks false))) text.now) output.new result needed.new }
    ensures no_device { result ≢ 6 }
{
    let mut source = MemoryInput::new(text);
    let mut reply = Kept::new(alloc);
    let options = CheckOptions {
        heap: None,
        warn: false,
    };
    let status = write_checks(alloc, Form::Lines, options, &mut source, &mut reply);
    let bytes = reply.as_slice();
    put_front(output, bytes);
    *needed = bytes.len();
    number_of(status)
}

/// Says what each process of a text claims of each resource, as the command `claims` does, and gives the reply
/// as `pb_call` does.
#[unsafe(no_mangle)]
pub extern "C" fn pb_claims(alloc: Global, text: &[u8], output: &mut [u8], needed: &mut usize) -> u8
    ensures given { IsGiven (Tellings (Written line_of (SaysOfAny SaysOfClaims)) text.now) output.new result needed.new }
    ensures no_device { result ≢ 6 }
{
    let mut source = MemoryInput::new(text);
    let mut reply = Kept::new(alloc);
    let status = write_claims(alloc, Form::Lines, &mut source, &mut reply);
    let bytes = reply.as_slice();
    put_front(output, bytes);
    *needed = bytes.len();
    number_of(status)
}

/// Plans the texts that the input holds, which lines `%%` part, as one program, as the command `plan` does under the
/// banker, and gives the reply as `pb_call` does.
#[unsafe(no_mangle)]
pub extern "C" fn pb_plan(alloc: Global, texts: &[u8], output: &mut [u8], needed: &mut usize) -> u8
    ensures given { IsGiven (Tellings (Written plan_sayings.line_of (SaysOfPlans Lending.ByBanker [])) texts.now) output.new result needed.new }
    ensures no_device { result ≢ 6 }
{
    let mut source = MemoryInput::new(texts);
    let mut reply = Kept::new(alloc);
    let none = Changes::none();
    let status = write_plan(
        alloc,
        Form::Lines,
        Lending::ByBanker,
        &none,
        &mut source,
        &mut reply,
    );
    let bytes = reply.as_slice();
    put_front(output, bytes);
    *needed = bytes.len();
    number_of(status)
}

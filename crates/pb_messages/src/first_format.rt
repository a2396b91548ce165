//! The message of a text whose code the first format can't say.

ghost use Rattle.std.specs.Prelude.{[], IfOk, None, codes};
ghost use Rattle.pb_code.specs.View.{code_view};
ghost use Rattle.pb_messages.specs.Messages.{IsMessageAt};
ghost use Rattle.pb_messages.specs.Said.{SaysOfFirstFormat, SaysWhetherFirst};

use crate::texts::text_message;
use crate::worded::worded;
use pb_accept::Cause;
use pb_base::NoMemory;
use pb_code::Code;
use pb_message_wording::unsaid_wording;
use pb_object::fits_first_format;
use std::alloc::Global;

/// Returns the message of a text, or that the first format can't say its code; nothing if it can.
pub fn first_format_message(alloc: Global, text: &[u8]) -> Result<Vec<u8>, NoMemory>
    ensures { IfOk result (λ message. SaysOfFirstFormat text.now message.items) }
{
    match text_message(alloc, "", text)? {
        Ok(compiled) => code_message(alloc, text, compiled.verified().code()),
        Err(message) => Ok(message),
    }
}

/// Returns the message that the first format can't say the code of a text; nothing if it can.
fn code_message(alloc: Global, text: &[u8], code: &Code) -> Result<Vec<u8>, NoMemory>
    ensures { IfOk result (λ message. SaysWhetherFirst text.now (code_view code.now) message.items) }
{
    if fits_first_format(code) {
        Ok(Vec::new(alloc))
    } else {
        unsaid_message(alloc, text)
    }
}

/// Returns the message that the first format can't say the code of a text.
fn unsaid_message(alloc: Global, text: &[u8]) -> Result<Vec<u8>, NoMemory>
    ensures { IfOk result (λ message. IsMessageAt [] text.now (codes "E1") None message.items) }
{
    let wording = unsaid_wording(alloc, text)?;
    let cause = Cause {
        code: pb_options::Code::E1,
        at: None,
    };
    worded(alloc, "", text, &cause, &wording)
}

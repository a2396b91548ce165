//! The message of an object that is refused.

ghost use Rattle.std.specs.Prelude.{IfErr, IfOk};
ghost use Rattle.pb_code.specs.Limits.{AreLabels};
ghost use Rattle.pb_code.specs.View.{labels_view};
ghost use Rattle.pb_accept.specs.Loading.{IsLoaded, IsLoadFault};
ghost use Rattle.pb_messages.specs.Said.{TellsObject};

use crate::worded::worded;
use pb_accept::load::{LoadFault, load};
use pb_accept::{object_cause, verify_cause};
use pb_base::NoMemory;
use pb_code::Labels;
use pb_message_wording::{unread_wording, unsafe_wording};
use pb_object::ObjectFault;
use pb_verifier::{Verified, VerifyFault};
use std::alloc::Global;

/// Safe code with its labels, or the message of what is wrong with an object.
pub type Loaded = Result<(Verified, Labels), Vec<u8>>;

/// Returns the safe code of an object, or the message of its first fault.
pub fn object_message(alloc: Global, bytes: &[u8]) -> Result<Loaded, NoMemory>
    ensures fit { IfOk result (λ loaded. IfOk loaded (λ x. AreLabels x.0.code (labels_view x.1))) }
    ensures loaded { IfOk result (λ loaded. IfOk loaded (λ x. IsLoaded bytes.now x.0.code (labels_view x.1))) }
    ensures refused { IfOk result (λ loaded. IfErr loaded (λ message. TellsObject bytes.now message.items)) }
{
    match load(alloc, bytes) {
        Ok((verified, labels)) => Ok(Ok((verified, labels))),
        Err(LoadFault::Object(fault)) => Ok(Err(unread_message(alloc, bytes, fault)?)),
        Err(LoadFault::Unsafe(fault)) => Ok(Err(unsafe_message(alloc, bytes, fault)?)),
    }
}

/// Returns the message of bytes that are not an object.
fn unread_message(alloc: Global, bytes: &[u8], fault: ObjectFault) -> Result<Vec<u8>, NoMemory>
    requires { IsLoadFault bytes.now (LoadFault.Object fault) }
    ensures { IfOk result (λ message. TellsObject bytes.now message.items) }
{
    let Some(cause) = object_cause(fault) else {
        return Err(NoMemory);
    };
    let wording = unread_wording(alloc, bytes, fault);
    worded(alloc, "", bytes, &cause, &wording)
}

/// Returns the message of code that is not safe.
fn unsafe_message(alloc: Global, bytes: &[u8], fault: VerifyFault) -> Result<Vec<u8>, NoMemory>
    requires { IsLoadFault bytes.now (LoadFault.Unsafe fault) }
    ensures { IfOk result (λ message. TellsObject bytes.now message.items) }
{
    let Some(cause) = verify_cause(fault) else {
        return Err(NoMemory);
    };
    let wording = unsafe_wording(alloc, bytes, fault)?;
    worded(alloc, "", bytes, &cause, &wording)
}

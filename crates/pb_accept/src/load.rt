//! Objects, read and verified.
ghost use Rattle.std.specs.Prelude.{◌≡◌, ◌<◌, ℕ, [], ◌∷◌, IfErr, IfOk, List, MatchOption, length};
ghost use Rattle.pb_object.specs.Answers.{HasText};
ghost use Rattle.pb_code.specs.View.{labels_view};
ghost use Rattle.pb_code.specs.declared.format.Format.TheVariants.{Two};
ghost use Rattle.pb_accept.specs.Causes as causes;
ghost use Rattle.pb_accept.specs.Loading.{IsLoaded, IsLoadFault, SaysOfNoCode};
ghost use Rattle.pb_accept.specs.Sayings.{NoCode, NoMemory as OutOfMemory};
ghost use Rattle.pb_command_io.specs.declared.status.Status.TheVariants as status;
ghost use Rattle.pb_voice.specs.Held.{at};
ghost use Rattle.pb_voice.specs.Tellings.{Ends};

use crate::cause::{Cause, object_cause, verify_cause};
use crate::refusal::refusal_text;
use crate::said::Said;
use crate::teller::{Teller, tell_refused};
use pb_base::limits::MAX_INPUT;
use pb_base::{NoMemory, Output};
use pb_code::Labels;
use pb_command_io::{Reply, Status, refused};
use pb_object::{ObjectFault, read_any};
use pb_verifier::{Verified, VerifyFault, verify};
use std::alloc::Global;

/// Why bytes do not give code that is safe to run.
#[derive(Clone, Copy, Debug, PartialEq, Eq)]
pub enum LoadFault {
    /// They are not an object.
    Object(ObjectFault),
    /// Their code has this fault.
    Unsafe(VerifyFault),
}

/// Returns the safe code that the bytes of an object spell, in either format, with its labels.
pub fn load(alloc: Global, bytes: &[u8]) -> Result<(Verified, Labels), LoadFault>
    ensures loaded { IfOk result (λ x. IsLoaded bytes.now x.0.code (labels_view x.1)) }
    ensures writable { IfOk result (λ x. HasText Two x.0.code (labels_view x.1)) }
    ensures fault { IfErr result (IsLoadFault bytes.now) }
    // An object over the limit takes no memory.
    ensures long { MAX_INPUT < length bytes.now → result ≡ Err (LoadFault.Object (ObjectFault.Limit 0)) }
{
    let (code, labels) = match read_any(alloc, bytes) {
        Ok(object) => object,
        Err(fault) => return Err(LoadFault::Object(fault)),
    };
    match verify(alloc, code) {
        Ok(verified) => Ok((verified, labels)),
        Err((_, fault)) => Err(LoadFault::Unsafe(fault)),
    }
}

/// Returns the cause of a refused object; none if it is out of memory.
pub(crate) fn load_cause(fault: LoadFault) -> Option<Cause>
    ensures { result ≡ causes.load_cause fault }
{
    match fault {
        LoadFault::Object(fault) => object_cause(fault),
        LoadFault::Unsafe(fault) => verify_cause(fault),
    }
}

/// Tells that an object is refused for a fault, or out of memory.
pub fn tell_load_fault<O: Output, T: Teller>(
    teller: &mut T,
    output: &mut O,
    fault: LoadFault,
) -> Status
    ensures { MatchOption (causes.load_cause fault)
        (Ends T.tells T.breaks (at O.written O.failures teller.old output.old) (OutOfMemory ∷ []) status.Memory
        (at O.written O.failures teller.new output.new) result)
        (λ c. Ends T.tells T.breaks (at O.written O.failures teller.old output.old) (NoCode fault ∷ []) status.Refused
        (at O.written O.failures teller.new output.new) result) }
{
    tell_refused(teller, output, load_cause(fault), Said::NoCode(fault))
}

/// Returns the reply to bytes that have this fault, or out of memory if that is the fault or there is too
/// little for its line.
pub fn load_refusal(alloc: Global, fault: LoadFault) -> Result<Reply, NoMemory>
    ensures { (bytes : List ℕ) → IsLoadFault bytes fault
        → IfOk result (λ r. SaysOfNoCode bytes r.text.items r.status) }
{
    let text = refusal_text(alloc, load_cause(fault))?;
    refused(text)
}

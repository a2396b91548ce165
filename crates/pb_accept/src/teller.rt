//! Who tells what an engine has to say.

ghost use Rattle.std.specs.Prelude.{◌≡◌, ◌≢◌, [], ◌∷◌, MatchOption, OnOk, OnErr};
ghost use Rattle.pb_accept.specs.Objects.{text_of};
ghost use Rattle.pb_accept.specs.Sayings.{NoMemory, Refused, Saying};
ghost use Rattle.pb_accept.specs.View.{said_view};
ghost use Rattle.pb_codegen.specs.declared.fault.CompileFault.TheVariants as kind;
ghost use Rattle.pb_command_io.specs.declared.status.Status.TheVariants as status;
ghost use Rattle.pb_voice.specs.Held.{At, at};
ghost use Rattle.pb_voice.specs.Tellings.{Ends};
ghost use Rattle.pb_voice.specs.Voices.{breaks_in, tells_in};

use crate::cause::Cause;
use crate::lines::tell_line;
use crate::objects::tell_object;
use crate::said::Said;
use pb_base::{DeviceFault, Output};
use pb_codegen::CompileFault;
use pb_command_io::Status;
use pb_voice::{Form, Voice};

/// A type that tells one thing after another to an output.
pub trait Teller {
    /// A thing was told, and this led from one state to another.
    ghost tells: { At Self → Saying → At Self → Type 0 };

    /// A write failed while a thing was told.
    ghost breaks: { At Self → Saying → At Self → Type 0 };

    /// Tells a thing.
    fn tell<O: Output>(&mut self, output: &mut O, said: Said<'_>) -> Result<(), DeviceFault>
        ensures told { OnOk result (tells (at O.written O.failures self.old output.old) (said_view said.entry)
            (at O.written O.failures self.new output.new)) }
        ensures broken { OnErr result (breaks (at O.written O.failures self.old output.old) (said_view said.entry)
            (at O.written O.failures self.new output.new)) };
}

impl Teller for Voice {
    ghost tells = { tells_in text_of };

    ghost breaks = { breaks_in text_of };

    fn tell<O: Output>(&mut self, output: &mut O, said: Said<'_>) -> Result<(), DeviceFault> {
        match self.form() {
            Form::Lines => tell_line(self, output, said),
            Form::Objects => tell_object(self, output, said),
        }
    }
}

/// Tells the last thing of a call, and returns the status of the call.
pub fn tell_last<O: Output, T: Teller>(
    teller: &mut T,
    output: &mut O,
    said: Said<'_>,
    given: Status,
) -> Status
    requires { given ≢ status.Device }
    ensures { Ends T.tells T.breaks (at O.written O.failures teller.old output.old) (said_view said.entry ∷ []) given
        (at O.written O.failures teller.new output.new) result }
{
    match teller.tell(output, said) {
        Ok(()) => given,
        Err(_) => Status::Device,
    }
}

/// Tells that a text is refused for a fault, or out of memory.
pub fn tell_fault<O: Output, T: Teller>(
    teller: &mut T,
    output: &mut O,
    fault: &CompileFault,
) -> Status
    ensures memory { fault.now ≡ kind.Memory → Ends T.tells T.breaks (at O.written O.failures teller.old output.old)
        (NoMemory ∷ []) status.Memory (at O.written O.failures teller.new output.new) result }
    ensures refused { fault.now ≢ kind.Memory → Ends T.tells T.breaks (at O.written O.failures teller.old output.old)
        (Refused fault.now ∷ []) status.Refused (at O.written O.failures teller.new output.new) result }
{
    match fault {
        CompileFault::Memory => tell_last(teller, output, Said::NoMemory, Status::Memory),
        _ => tell_last(teller, output, Said::Refused(fault), Status::Refused),
    }
}

/// Tells a refusal if it has a cause, else out of memory.
pub(crate) fn tell_refused<O: Output, T: Teller>(
    teller: &mut T,
    output: &mut O,
    cause: Option<Cause>,
    said: Said<'_>,
) -> Status
    ensures { MatchOption cause
        (Ends T.tells T.breaks (at O.written O.failures teller.old output.old) (NoMemory ∷ []) status.Memory
        (at O.written O.failures teller.new output.new) result)
        (λ c. Ends T.tells T.breaks (at O.written O.failures teller.old output.old) (said_view said.entry ∷ []) status.Refused
        (at O.written O.failures teller.new output.new) result) }
{
    match cause {
        Some(_) => tell_last(teller, output, said, Status::Refused),
        None => tell_last(teller, output, Said::NoMemory, Status::Memory),
    }
}

//! Who tells what a plan says.

ghost use Rattle.std.specs.Prelude.{◌≡◌, ◌≢◌, [], ◌∷◌, OnOk, OnErr, map};
ghost use Rattle.pb_plan_engine.specs.Objects.{text_of};
ghost use Rattle.pb_plan_engine.specs.Sayings.{Saying};
ghost use Rattle.pb_plan_engine.specs.View.{said_view};
ghost use Rattle.pb_command_io.specs.declared.status.Status.TheVariants as status;
ghost use Rattle.pb_voice.specs.Held.{At, at};
ghost use Rattle.pb_voice.specs.Tellings.{Breaking, Ends, Telling};
ghost use Rattle.pb_voice.specs.Voices.{breaks_in, tells_in};

use crate::lines::tell_line;
use crate::objects::tell_object;
use crate::said::Said;
use pb_base::{DeviceFault, Output};
use pb_command_io::Status;
use pb_voice::{Form, Voice};

/// A type that tells one thing after another to an output.
pub trait Teller {
    /// A thing was told, and this led from one state to another.
    ghost tells: { At Self → Saying → At Self → Type 0 };

    /// A write failed while a thing was told.
    ghost breaks: { At Self → Saying → At Self → Type 0 };

    /// Tells a thing.
    fn tell<O: Output>(&mut self, output: &mut O, said: &Said) -> Result<(), DeviceFault>
        ensures told { OnOk result (tells (at O.written O.failures self.old output.old) (said_view said.now)
            (at O.written O.failures self.new output.new)) }
        ensures broken { OnErr result (breaks (at O.written O.failures self.old output.old) (said_view said.now)
            (at O.written O.failures self.new output.new)) };
}

impl Teller for Voice {
    ghost tells = { tells_in text_of };

    ghost breaks = { breaks_in text_of };

    fn tell<O: Output>(&mut self, output: &mut O, said: &Said) -> Result<(), DeviceFault> {
        match self.form() {
            Form::Lines => tell_line(self, output, said),
            Form::Objects => tell_object(self, output, said),
        }
    }
}

/// Tells the only thing of a call, and returns the status of the call.
pub(crate) fn tell_last<O: Output, T: Teller>(
    teller: &mut T,
    output: &mut O,
    said: &Said,
    given: Status,
) -> Status
    requires { given ≢ status.Device }
    ensures { Ends T.tells T.breaks (at O.written O.failures teller.old output.old) (said_view said.now ∷ []) given
        (at O.written O.failures teller.new output.new) result }
{
    match teller.tell(output, said) {
        Ok(()) => given,
        Err(_) => Status::Device,
    }
}

/// Tells things, one after another.
fn tell_each<O: Output, T: Teller>(
    teller: &mut T,
    output: &mut O,
    said: &[Said],
) -> Result<(), DeviceFault>
    ensures told { OnOk result (Telling T.tells (at O.written O.failures teller.old output.old) (map said_view said.now)
        (at O.written O.failures teller.new output.new)) }
    ensures broken { OnErr result (Breaking T.tells T.breaks (at O.written O.failures teller.old output.old) (map said_view said.now)
        (at O.written O.failures teller.new output.new)) }
{
    for i in 0..said.len() {
        teller.tell(output, &said[i])?;
    }
    Ok(())
}

/// Tells all things of a call, and returns the status of the call.
pub(crate) fn tell_all<O: Output, T: Teller>(
    teller: &mut T,
    output: &mut O,
    said: &[Said],
    given: Status,
) -> Status
    requires { given ≢ status.Device }
    ensures { Ends T.tells T.breaks (at O.written O.failures teller.old output.old) (map said_view said.now) given
        (at O.written O.failures teller.new output.new) result }
{
    match tell_each(teller, output, said) {
        Ok(()) => given,
        Err(_) => Status::Device,
    }
}

//! Who tells what is found.

ghost use Rattle.std.specs.Prelude.{◌≡◌, ◌≢◌, [], ◌∷◌, OnOk, OnErr, map};
ghost use Rattle.pb_accept.specs.Sayings.{NoMemory, Refused};
ghost use Rattle.pb_base.specs.Lines.{names_view};
ghost use Rattle.pb_code.specs.View.{labels_view};
ghost use Rattle.pb_codegen.specs.declared.fault.CompileFault.TheVariants as kind;
ghost use Rattle.pb_command_io.specs.declared.status.Status.TheVariants as status;
ghost use Rattle.pb_search_engine.specs.Items.{given_item_view};
ghost use Rattle.pb_search_engine.specs.Sayings.{Finds as AnyFinds, Plain as AnyPlain, Saying, said_view, text_of};
ghost use Rattle.pb_voice.specs.Held.{At, at};
ghost use Rattle.pb_voice.specs.Tellings.{Breaking, Ends, Telling};
ghost use Rattle.pb_voice.specs.Voices.{breaks_in, tells_in};

use crate::item::Item;
use crate::item_lines::tell_item_lines;
use crate::item_objects::tell_item_object;
use crate::other::{tell_bad_line, tell_bad_object, tell_lacks_line, tell_lacks_object};
use crate::said::{Said, Shown};
use pb_accept::{Said as PlainSaid, tell_line, tell_object};
use pb_base::{DeviceFault, Names, Output};
use pb_code::Labels;
use pb_codegen::CompileFault;
use pb_command_io::Status;
use pb_voice::{Form, Voice};

/// A type that tells one thing after another to an output.
pub trait Teller {
    /// A thing was told, and this led from one state to another.
    ghost tells: { At Self → Saying → At Self → Type 0 };

    /// A write failed while a thing was told.
    ghost breaks: { At Self → Saying → At Self → Type 0 };

    /// Tells a thing.
    fn tell<O: Output>(&mut self, output: &mut O, said: Said<'_>) -> Result<(), DeviceFault>
        ensures told { OnOk result (tells (at O.written O.failures self.old output.old) (said_view said.entry)
            (at O.written O.failures self.new output.new)) }
        ensures broken { OnErr result (breaks (at O.written O.failures self.old output.old) (said_view said.entry)
            (at O.written O.failures self.new output.new)) };
}

impl Teller for Voice {
    ghost tells = { tells_in text_of };

    ghost breaks = { breaks_in text_of };

    fn tell<O: Output>(&mut self, output: &mut O, said: Said<'_>) -> Result<(), DeviceFault> {
        match self.form() {
            Form::Lines => match said {
                Said::Plain(said) => tell_line(self, output, said),
                Said::BadLine(place) => tell_bad_line(self, output, place),
                Said::Lacks(requirement) => tell_lacks_line(self, output, requirement),
                Said::Finds(shown) => tell_item_lines(self, output, shown),
            },
            Form::Objects => match said {
                Said::Plain(said) => tell_object(self, output, said),
                Said::BadLine(place) => tell_bad_object(self, output, place),
                Said::Lacks(requirement) => tell_lacks_object(self, output, requirement),
                Said::Finds(shown) => tell_item_object(self, output, shown),
            },
        }
    }
}

/// Tells the last thing of a call, and returns the status of the call.
pub fn tell_last<O: Output, T: Teller>(
    teller: &mut T,
    output: &mut O,
    said: Said<'_>,
    given: Status,
) -> Status
    requires { given ≢ status.Device }
    ensures { Ends T.tells T.breaks (at O.written O.failures teller.old output.old) (said_view said.entry ∷ []) given
        (at O.written O.failures teller.new output.new) result }
{
    match teller.tell(output, said) {
        Ok(()) => given,
        Err(_) => Status::Device,
    }
}

/// Tells that a text is refused for a fault, or out of memory.
pub fn tell_fault<O: Output, T: Teller>(
    teller: &mut T,
    output: &mut O,
    fault: &CompileFault,
) -> Status
    ensures memory { fault.now ≡ kind.Memory → Ends T.tells T.breaks (at O.written O.failures teller.old output.old)
        (AnyPlain NoMemory ∷ []) status.Memory (at O.written O.failures teller.new output.new) result }
    ensures refused { fault.now ≢ kind.Memory → Ends T.tells T.breaks (at O.written O.failures teller.old output.old)
        (AnyPlain (Refused fault.now) ∷ []) status.Refused (at O.written O.failures teller.new output.new) result }
{
    match fault {
        CompileFault::Memory => tell_last(
            teller,
            output,
            Said::Plain(PlainSaid::NoMemory),
            Status::Memory,
        ),
        _ => tell_last(
            teller,
            output,
            Said::Plain(PlainSaid::Refused(fault)),
            Status::Refused,
        ),
    }
}

/// Tells what is found, one item after another.
pub fn tell_items<O: Output, T: Teller>(
    teller: &mut T,
    output: &mut O,
    names: &Names,
    labels: &Labels,
    items: &[Item],
) -> Result<(), DeviceFault>
    ensures told { OnOk result (Telling T.tells (at O.written O.failures teller.old output.old)
        (map (AnyFinds (names_view names.now) (labels_view labels.now)) (map given_item_view items.now)) (at O.written O.failures teller.new output.new)) }
    ensures broken { OnErr result (Breaking T.tells T.breaks (at O.written O.failures teller.old output.old)
        (map (AnyFinds (names_view names.now) (labels_view labels.now)) (map given_item_view items.now)) (at O.written O.failures teller.new output.new)) }
{
    for i in 0..items.len() {
        let shown = Shown {
            names,
            labels,
            item: &items[i],
        };
        teller.tell(output, Said::Finds(shown))?;
    }
    Ok(())
}

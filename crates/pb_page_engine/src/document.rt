//! A document that is told.

ghost use Rattle.std.specs.Prelude.{[], ◌∷◌, IfOk, OnErr};
ghost use Rattle.pb_accept.specs.Sayings.{NoMemory as OutOfMemory, Text};
ghost use Rattle.pb_command_io.specs.declared.status.Status.TheVariants as status;
ghost use Rattle.pb_voice.specs.Held.{at};
ghost use Rattle.pb_voice.specs.Tellings.{Ends};

use pb_accept::{Said, Teller, tell_last};
use pb_base::{NoMemory, Output};
use pb_command_io::{Reply, Status};

/// Tells a document with its status, or out of memory.
pub(crate) fn tell_document<O: Output, T: Teller>(
    made: Result<Reply, NoMemory>,
    teller: &mut T,
    output: &mut O,
) -> Status
    ensures document { IfOk made (λ r. Ends T.tells T.breaks (at O.written O.failures teller.old output.old) (Text r.text.items ∷ []) r.status
        (at O.written O.failures teller.new output.new) result) }
    ensures memory { OnErr made (Ends T.tells T.breaks (at O.written O.failures teller.old output.old) (OutOfMemory ∷ []) status.Memory
        (at O.written O.failures teller.new output.new) result) }
{
    match made {
        Ok(reply) => tell_last(teller, output, Said::Text(&reply.text), reply.status),
        Err(_) => tell_last(teller, output, Said::NoMemory, Status::Memory),
    }
}

//! The events of a trace.
ghost use Rattle.std.specs.Prelude.{OnErr, OnOk};
ghost use Rattle.pb_accept.specs.ToldEvents.{shown};
ghost use Rattle.pb_base.specs.Lines.{names_view};
ghost use Rattle.pb_history.specs.Entries.{events_of};
ghost use Rattle.pb_voice.specs.Held.{at};
ghost use Rattle.pb_voice.specs.Tellings.{Breaking, Telling};

use crate::said::{Said, Shown};
use crate::teller::Teller;
use pb_base::{DeviceFault, Names, Output};
use pb_history::Trace;

/// Tells each event of a trace, in order.
pub fn tell_events<O: Output, T: Teller>(
    names: &Names,
    trace: &Trace,
    teller: &mut T,
    output: &mut O,
) -> Result<(), DeviceFault>
    ensures told { OnOk result (Telling T.tells (at O.written O.failures teller.old output.old)
        (shown (names_view names.now) (events_of trace.now.entries)) (at O.written O.failures teller.new output.new)) }
    ensures broken { OnErr result (Breaking T.tells T.breaks (at O.written O.failures teller.old output.old)
        (shown (names_view names.now) (events_of trace.now.entries)) (at O.written O.failures teller.new output.new)) }
{
    for i in 0..trace.events_len() {
        let event = trace.event(i);
        let shown = Shown {
            names,
            event: &event,
        };
        teller.tell(output, Said::Shows(shown))?;
    }
    Ok(())
}

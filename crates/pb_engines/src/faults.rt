//! Whether a fault was shown.
ghost use Rattle.std.specs.Prelude.{◌↔◌, IsTrue};
ghost use Rattle.pb_engines.specs.Outcomes.{ShowsFault};
ghost use Rattle.pb_history.specs.Entries.{events_of};

use pb_base::Event;
use pb_history::Trace;

/// Returns whether some event of a trace is a fault.
pub fn shows_fault(trace: &Trace) -> bool
    ensures { IsTrue result ↔ ShowsFault (events_of trace.now.entries) }
{
    for i in 0..trace.events_len() {
        if let Event::Faulted { .. } = trace.event(i) {
            return true;
        }
    }
    false
}

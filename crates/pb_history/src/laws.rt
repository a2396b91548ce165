//! Laws of traces, each the contract of a function that does nothing.

ghost use Rattle.pb_history.specs.Leads.{SilentPicksLead, TracesMake};
ghost use Rattle.pb_history.specs.Positions.{ReplaysReachPositions};
ghost use Rattle.pb_history.specs.Traces.{SilentPicksAddOneSpan};

/// The picks of a trace make its events.
pub fn traces_make_their_events()
    ensures { TracesMake }
{}

/// Silent picks of one process, made apart from the others, are picks of the code.
pub fn silent_picks_lead()
    ensures { SilentPicksLead }
{}

/// A replay makes enabled picks, and ends in the state at the position after the last of them.
pub fn replays_reach_positions()
    ensures { ReplaysReachPositions }
{}

/// Picks of one arm that show nothing, after others, make one span more, or none if the last span is of that
/// arm and shows nothing.
pub fn silent_picks_add_one_span()
    ensures { SilentPicksAddOneSpan }
{}

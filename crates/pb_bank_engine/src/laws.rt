//! Laws over sessions of the command `bank`, each the contract of a function that does nothing.

ghost use Rattle.pb_bank_engine.specs.Parts.{SessionsGoOn, SessionsPart};

/// A session that goes on from where another one ended is one session with it: it answers the same.
pub fn sessions_go_on()
    ensures { SessionsGoOn }
{}

/// A session can be cut before any of its lines: what is answered is the answers to the first part and then those to the rest.
pub fn sessions_part()
    ensures { SessionsPart }
{}

//! The law of what running workers do, as the contract of a function that does nothing.

ghost use Rattle.pb_engines.specs.RunLaws.{ReportsFollowTheSource};

/// Whatever workers report of the code of a text, the program of the text can make the same events, with as
/// many picks: the history that running workers keep is one that the source could have made.
pub fn reports_follow_the_source()
    ensures { ReportsFollowTheSource }
{}

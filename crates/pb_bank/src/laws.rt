//! Laws over the answers of a bank, each the contract of a function that does nothing.

ghost use Rattle.pb_bank.specs.Reading.{ReadingChangesNothing, RefusedChangesNothing};

/// A line that only asks, as `why`, `order`, `state` or `help`, leaves the bank, its jobs and its queue as they are.
pub fn reading_changes_nothing()
    ensures { ReadingChangesNothing }
{}

/// A line that is refused leaves the bank, its jobs and its queue as they are.
pub fn refused_changes_nothing()
    ensures { RefusedChangesNothing }
{}

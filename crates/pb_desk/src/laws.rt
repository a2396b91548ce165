//! Laws over served banks and their journals, each the contract of a function that does nothing.

ghost use Rattle.pb_desk.specs.Journals.{JobsOfOthersStay, JournalsGoOn, JournalsPart, RequestsAreCarriedOutOnce};
ghost use Rattle.pb_desk.specs.Notices.{GrantsAreToldOnce};

/// What a journal leads to, and then the entries after it, is what they all lead to: a start goes on where the last one ended.
pub fn journals_go_on()
    ensures { JournalsGoOn }
{}

/// A journal can be cut before any of its entries: what is told is what is told of the first ones and then of the rest.
pub fn journals_part()
    ensures { JournalsPart }
{}

/// A request with a number is carried out once, however often it is sent.
pub fn requests_are_carried_out_once()
    ensures { RequestsAreCarriedOutOnce }
{}

/// A command of a job of another session leaves the bank, its jobs and its queue as they are.
pub fn jobs_of_others_stay()
    ensures { JobsOfOthersStay }
{}

/// After a command each session is told of each wish of its jobs that was granted, once and in order, and of nothing else.
pub fn grants_are_told_once()
    ensures { GrantsAreToldOnce }
{}

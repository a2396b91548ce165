//! Laws of what is said of a program, each the contract of a function that does nothing.

ghost use Rattle.pb_search_engine.specs.ExpectedLaws.{AnswersAreRight, AnswersAreRightOfPrograms};
ghost use Rattle.pb_search_engine.specs.SourceOutcomes.{OutcomesAreThoseOfTheProgram};
ghost use Rattle.pb_search_engine.specs.SourceFair.{FairRunsOfProgramsEnd};
ghost use Rattle.pb_search_engine.specs.SourceRuns.{RunsAreThoseOfTheProgram};

/// The outcomes of the code of a text, with the integers and the faults of its processes, are those of the program
/// of the text, whoever lends: a list of all that the code has is a list of all that the program has. So it is with
/// what was printed on the way, by all processes, in its order.
pub fn outcomes_are_those_of_the_program()
    ensures { OutcomesAreThoseOfTheProgram }
{}

/// What `outcomes --expect` says of code is right: if its status is 0 each requirement is met and all runs are as
/// expected, and if it is 10 a requirement is not met, or not all runs are as expected.
pub fn answers_are_right()
    ensures { AnswersAreRight }
{}

/// What `outcomes --expect` says of the code of a text is right of the program of the text, whoever lends: if its status
/// is 0, each requirement is met, all that the program can end with is as expected, without a fault and with the prints
/// on the way, it comes to no deadlock, and each of its runs ends; and if it is 10, a requirement is not met, or the
/// program can end with something else, or come to a deadlock, or has runs of any length.
pub fn answers_are_right_of_programs()
    ensures { AnswersAreRightOfPrograms }
{}

/// The deadlocks of the code of a text are those of the program of the text, whoever lends, with the integers of
/// each process and what it holds. If each run of the code ends, each run of the program does; and if some run of
/// the code never ends, the program has runs of any length.
pub fn runs_are_those_of_the_program()
    ensures { RunsAreThoseOfTheProgram }
{}

/// If some fair run of the program of a text never ends, some fair run of its code does not, whoever lends: pushes and
/// jumps, which are no picks of the program, are made at once after each of its picks. So if it is told that every fair
/// run of the code ends, every fair run of the program does.
pub fn fair_runs_of_programs_end()
    ensures { FairRunsOfProgramsEnd }
{}

//! Laws over the definitions alone, each the contract of a function that does nothing.

ghost use Rattle.pb_debug_commands.specs.Spellings.{CommandsBySpelling};

/// A line of at most 256 bytes says a command exactly if it is the command's spelling, with numbers of at most
/// eight digits and marks up to 4,294,967,295, but for white space at its end; `step` and `back` alone are one step.
pub fn commands_are_read_by_their_spelling()
    ensures { CommandsBySpelling }
{}

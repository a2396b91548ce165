//! Laws over the definitions alone, each the contract of a function that does nothing.

ghost use Rattle.pb_debug.specs.Following.{CodeFollowsSource};

/// At each position of picks of the code of a text that are enabled under the banker, the program of the text is
/// after their shadow, and the line of each live arm is the line of that arm's first statement there, none if its
/// list is empty.
pub fn code_follows_source()
    ensures { CodeFollowsSource }
{}

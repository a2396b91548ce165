//! Laws of what is said, each the contract of a function that does nothing.

ghost use Rattle.pb_debug_texts.specs.Does.{AssignmentsComeAbout, PrintsComeAbout};
ghost use Rattle.pb_debug_texts.specs.Reasons.{ReasonsFollowTheLender};

/// Under either lender the reason of a request lets its arm go on exactly if the request is granted.
pub fn reasons_follow_the_lender()
    ensures { ReasonsFollowTheLender }
{}

/// Where `does` says that an arm assigns a value to an integer, and the pick is made, the integer has that value.
pub fn assignments_come_about()
    ensures { AssignmentsComeAbout }
{}

/// Where `does` says that an arm prints a value, and the pick is made, that value is printed.
pub fn prints_come_about()
    ensures { PrintsComeAbout }
{}

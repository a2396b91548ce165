//! Laws of books, each the contract of a function that does nothing.

ghost use Rattle.pb_shared.specs.Ready.{ReadyArms};

/// An arm is ready exactly if its process is at home, it is live, it is not marked, and it is not at a join
/// of arms that have not all ended.
pub fn ready_arms()
    ensures { ReadyArms }
{}

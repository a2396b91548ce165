//! What a run shows of itself.

use crate::bundle::Bundle;
use crate::operators::FaultKind;
use crate::pick::Pick;

/// What one step shows. Most steps show nothing.
#[derive(Clone, Copy, Debug, PartialEq, Eq)]
pub enum Event {
    /// All amounts of a hold were lent.
    Granted { pick: Pick, bundle: Bundle },
    /// All amounts of a hold came back.
    Returned { pick: Pick, bundle: Bundle },
    /// A number was printed.
    Printed { pick: Pick, value: i64 },
    /// An operator had no result, which ended the process.
    Faulted { pick: Pick, kind: FaultKind },
    /// The body of a process came to its end.
    Finished { process: u8 },
}

//! What a desk says: jobs by slot and resources by number.

ghost use Rattle.std.specs.Prelude.{◌≡◌, ◌++◌, ◌∷◌, [], OnOk};

use crate::refusal::Refusal;
use crate::request::Request;
use crate::slots::Slots;
use pb_base::NoMemory;
use pb_base::limits::MAX_PROCESSES;

/// A set of jobs: of the first slots, as many as are counted, those that are marked.
#[derive(Clone, Copy)]
pub struct Jobs {
    pub marks: [bool; MAX_PROCESSES],
    pub count: usize,
}

/// How much there is of a resource, and how much of it is not lent.
#[derive(Clone, Copy)]
pub struct Stock {
    pub resource: usize,
    pub capital: u32,
    pub cash: u32,
}

/// What a job claims of a resource, what it holds, and what it may still ask for.
#[derive(Clone, Copy)]
pub struct Share {
    pub job: usize,
    pub resource: usize,
    pub claim: u32,
    pub holds: u32,
    pub needs: u32,
}

/// One thing that a desk says.
// To add one: specs/{Tables,Objects}, `put_line` and `put_object`.
#[derive(Drop)]
pub enum Said {
    /// A request is granted.
    Granted(Request),
    /// A loan is set up.
    Held(Request),
    /// A wish is in the queue.
    Wish(Request),
    /// A request passes the claim on this resource.
    OverClaim(usize),
    /// This much cash of this resource is less than a request or another capital needs.
    WaitCash(usize, u32),
    /// These jobs could not finish.
    WaitRest(Jobs),
    /// These jobs claim more.
    Claimed(Jobs),
    /// The jobs in the order in which each next one is the first that fits.
    Order(Slots),
    /// This job lacks this resource when its turn comes.
    Lacks(usize, usize),
    /// An order has this job twice.
    Twice(usize),
    /// An order does not have this job.
    Missing(usize),
    /// The stock of a resource.
    Resource(Stock),
    /// The share of a job in a resource.
    Job(Share),
    /// A request would be granted.
    Allowed,
    /// A wish has joined the queue.
    Queued,
    /// All jobs finish in an order.
    Finishes,
    /// The command is refused.
    Refused(Refusal),
    /// The form of each command.
    Help,
    /// The command is answered.
    Ready,
    /// Out of memory. A desk does not say it.
    NoMemory,
}

/// Says one thing more.
pub(crate) fn say(out: &mut Vec<Said>, said: Said) -> Result<(), NoMemory>
    ensures { OnOk result (out.new.items ≡ out.old.items ++ said ∷ []) }
{
    out.push(said)?;
    Ok(())
}

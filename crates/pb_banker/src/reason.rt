//! What a bank says to jobs.

use pb_base::limits::MAX_PROCESSES;

/// The answer to a job that wants to join.
#[derive(Clone, Copy)]
pub enum Joined {
    /// The job is in this slot.
    In(usize),
    /// Its claim on this resource is over the capital.
    OverCapital(usize),
    /// There are as many jobs as there can be.
    Full,
}

/// Why a request is granted or not.
#[derive(Clone, Copy)]
pub enum Reason {
    /// It is allowed.
    Allowed,
    /// It passes the claim on this resource.
    OverClaim(usize),
    /// There is too little cash of this resource.
    OverCash(usize),
    /// Of the slots that have a row, those marked here could not finish after it.
    Rest([bool; MAX_PROCESSES]),
}

/// What is said of another capital of a resource.
#[derive(Clone, Copy)]
pub enum CapitalSaid {
    /// It is the capital now.
    Changed,
    /// Of the slots that have a row, those marked here claim more.
    Claimed([bool; MAX_PROCESSES]),
    /// More of the resource is lent.
    OverCash,
    /// Of the slots that have a row, those marked here could not finish with it.
    Rest([bool; MAX_PROCESSES]),
}

/// What is said of another claim of a job.
#[derive(Clone, Copy)]
pub enum ClaimSaid {
    /// It is the claim now.
    Changed,
    /// Of the slots that have a row, those marked here could not finish with it.
    Rest([bool; MAX_PROCESSES]),
}

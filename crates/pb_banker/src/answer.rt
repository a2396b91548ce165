//! What the banker returns.

/// The answer to a request.
#[derive(Clone, Copy, Debug, PartialEq, Eq)]
pub enum Answer {
    /// The loan is made.
    Granted,
    /// It is within the claim, but the cash does not suffice or the loan would not be safe.
    NotNow,
    /// It passes the claim.
    OverClaim,
}

//! What the calls say, as numbers.

ghost use Rattle.std.specs.Prelude.{◌≡◌};
ghost use Rattle.pb_c_bank.specs.Banks.{number_of};

use pb_banker::Answer;

/// It was done, or granted.
pub const DONE: u32 = 0;
/// It is within the claim, but the cash does not suffice or the loan would not be safe.
pub const NOT_NOW: u32 = 1;
/// The job would hold more than its claim.
pub const OVER_CLAIM: u32 = 2;
/// There is no such job, or not an amount for each resource.
pub const NO_REQUEST: u32 = 3;
/// The job does not hold so much.
pub const NOT_HELD: u32 = 4;
/// The numbers make no bank.
pub const NO_BANK: u32 = 6;
/// A claim is over the capital.
pub const OVER_CAPITAL: u32 = 7;
/// There are as many jobs as there can be.
pub const FULL: u32 = 8;
/// There is not enough cash.
pub const OVER_CASH: u32 = 9;
/// Not all jobs could finish.
pub const NOT_SAFE: u32 = 10;

/// Returns the number of an answer.
pub fn number_of(answer: Answer) -> u32
    ensures { result ≡ number_of answer }
{
    match answer {
        Answer::Granted => DONE,
        Answer::NotNow => NOT_NOW,
        Answer::OverClaim => OVER_CLAIM,
    }
}

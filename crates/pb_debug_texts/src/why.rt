//! The reasons for which an arm does not go on, and how one is found.

ghost use Rattle.std.specs.Prelude.{◌≡◌, ◌<◌, All, IfOk, IfSome, IfNone};
ghost use Rattle.pb_banker.specs.Lenders.{lender_state, lending_by};
ghost use Rattle.pb_base.specs.Banker.{processes, resources, IsWithinCash, IsWithinClaim};
ghost use Rattle.pb_debug_texts.specs.Reasons.{IsFirstOverCash, IsReason, IsReasonBy};

use pb_banker::{Answer, Banker, Lender};
use pb_base::{Bundle, NoMemory};
pub use pb_circles::asked;
use std::alloc::Global;

/// Why an arm does not go on, or may.
#[derive(Drop)]
pub enum Why {
    /// It is not at a request.
    NotAsking,
    /// It asks for more of a resource than there is cash of it: the first such resource of its request, and
    /// its cash.
    Cash { resource: u8, cash: u32 },
    /// It may have what it asks for: then the processes can finish in this order.
    Order(Vec<u8>),
    /// The cash is enough, but with the new loan none of these processes could finish.
    Rest(Vec<u8>),
    /// The cash alone decides, and is enough.
    Granted,
}

/// A resource and its cash.
#[derive(Clone, Copy)]
struct Shortage {
    resource: u8,
    cash: u32,
}

/// Returns the first resource of a bundle of which the cash is too little.
fn first_shortage(bank: &Lender, bundle: &Bundle) -> Option<Shortage>
    requires below { All (λ pair. pair.resource < resources (lender_state bank.now)) bundle.now }
    ensures some { IfSome result (λ s. IsFirstOverCash (lender_state bank.now) bundle.now s.resource s.cash) }
    ensures none { IfNone result (IsWithinCash (lender_state bank.now) bundle.now) }
{
    for i in 0..bundle.len() {
        let pair = bundle.get(i);
        let cash = bank.cash(usize::from(pair.resource));
        if cash < pair.amount {
            return Some(Shortage {
                resource: pair.resource,
                cash,
            });
        }
    }
    None
}

/// Returns what the banker says of a request of process p that is within its claim and the cash.
fn answer_of(alloc: Global, banker: &Banker, p: usize, bundle: &Bundle) -> Result<Why, NoMemory>
    requires process { p < processes banker.now.state }
    requires below { All (λ pair. pair.resource < resources banker.now.state) bundle.now }
    requires within_claim { IsWithinClaim banker.now.state p bundle.now }
    requires within_cash { IsWithinCash banker.now.state bundle.now }
    ensures { IfOk result (IsReason banker.now.state p bundle.now) }
{
    let mut next = banker.copy();
    match next.ask(p, bundle) {
        Answer::Granted => Ok(Why::Order(next.order(alloc)?)),
        Answer::NotNow | Answer::OverClaim => Ok(Why::Rest(banker.rest_if(alloc, p, bundle)?)),
    }
}

/// Returns what becomes of a request of process p that is within its claim. The error comes only if out of
/// memory.
pub fn reason(alloc: Global, bank: &Lender, p: usize, bundle: &Bundle) -> Result<Why, NoMemory>
    requires process { p < processes (lender_state bank.now) }
    requires below { All (λ pair. pair.resource < resources (lender_state bank.now)) bundle.now }
    requires within_claim { IsWithinClaim (lender_state bank.now) p bundle.now }
    ensures { IfOk result (IsReasonBy (lending_by bank.now) (lender_state bank.now) p bundle.now) }
{
    if let Some(shortage) = first_shortage(bank, bundle) {
        return Ok(Why::Cash {
            resource: shortage.resource,
            cash: shortage.cash,
        });
    }
    match bank {
        Lender::Banker(banker) => answer_of(alloc, banker, p, bundle),
        Lender::Till(_) => Ok(Why::Granted),
    }
}

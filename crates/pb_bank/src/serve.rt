//! The queue, served in its order.

ghost use Rattle.std.specs.Prelude.{◌≡◌, ◌++◌, [], List, All, IfOk, OnOk};
ghost use Rattle.pb_base.specs.Banker.{IsWellFormed};
ghost use Rattle.pb_bank.specs.Desks.{IsQueueOf, IsRequestOf};
ghost use Rattle.pb_bank.specs.Queues.{Serves, ServesQueue, ServesWish};
ghost use Rattle.pb_bank.specs.declared.said.Said.{Said};

use crate::desk::Desk;
use crate::request::Request;
use crate::said::{Said, say};
use pb_banker::{Answer, Bank};
use pb_base::NoMemory;
use std::alloc::Global;

/// Grants a wish if it is allowed, and says so; else appends the wish to `waiting`.
fn serve_wish(
    bank: &mut Bank,
    wish: &Request,
    waiting: &mut Vec<Request>,
    out: &mut Vec<Said>,
) -> Result<(), NoMemory>
    requires of { IsRequestOf bank.old wish.now }
    ensures served { OnOk result (ServesWish wish.now bank.old.state bank.new.state
        out.old.items out.new.items waiting.old.items waiting.new.items) }
    ensures used { bank.new.used ≡ bank.old.used }
    ensures claims { bank.new.state.claims ≡ bank.old.state.claims }
    ensures capital { bank.new.state.capital ≡ bank.old.state.capital }
{
    // Called for its contract alone, which the proof needs.
    let _ = bank.slots();
    match bank.ask(wish.job, &wish.bundle) {
        Answer::Granted => say(out, Said::Granted(*wish)),
        Answer::NotNow | Answer::OverClaim => {
            waiting.push(*wish)?;
            Ok(())
        }
    }
}

/// Serves a queue in its order: grants each wish that is allowed, once those before it are served, and says
/// so. Returns the wishes that wait on.
fn serve(
    alloc: Global,
    bank: &mut Bank,
    wishes: &[Request],
    out: &mut Vec<Said>,
) -> Result<Vec<Request>, NoMemory>
    requires of { All (IsRequestOf bank.old) wishes.now }
    ensures served { IfOk result (λ waiting. (said : List Said)
        × Serves bank.old.state wishes.now said waiting.items bank.new.state
        × (out.new.items ≡ out.old.items ++ said)) }
    ensures used { bank.new.used ≡ bank.old.used }
    ensures claims { bank.new.state.claims ≡ bank.old.state.claims }
    ensures capital { bank.new.state.capital ≡ bank.old.state.capital }
    ensures formed { IsWellFormed bank.old.state }
{
    // Called for its contract alone, which the proof needs.
    let _ = bank.slots();
    let mut waiting = Vec::new(alloc);
    for wish in wishes {
        serve_wish(bank, wish, &mut waiting, out)?;
    }
    Ok(waiting)
}

impl Desk {
    /// Takes these wishes for the queue, and serves it. If out of memory, the queue is empty.
    pub(crate) fn serve(
        &mut self,
        out: &mut Vec<Said>,
        wishes: Vec<Request>,
    ) -> Result<(), NoMemory>
        requires none { self.old.wishes ≡ [] }
        requires queue { IsQueueOf self.old.bank wishes.items }
        ensures { OnOk result ((said : List Said) × ServesQueue (record self.old { wishes = wishes.items }) said self.new
            × (out.new.items ≡ out.old.items ++ said)) }
    {
        let waiting = serve(self.alloc, &mut self.bank, &wishes, out)?;
        self.wishes = waiting;
        Ok(())
    }
}

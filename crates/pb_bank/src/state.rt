//! The state of a bank, as it is said.

ghost use Rattle.std.specs.Prelude.{◌≡◌, ◌<◌, ◌++◌, ◌∷◌, [], OnOk};
ghost use Rattle.pb_base.specs.Banker.{processes, resources};
ghost use Rattle.pb_bank.specs.Answers as spec;

use crate::said::{Said, Share, Stock, say};
use pb_banker::Bank;
use pb_base::NoMemory;

/// Says how much there is of a resource.
fn say_stock(out: &mut Vec<Said>, bank: &Bank, r: usize) -> Result<(), NoMemory>
    requires { r < resources bank.now.state }
    ensures { OnOk result (out.new.items ≡ out.old.items ++ spec.stock_said bank.now.state r ∷ []) }
{
    say(
        out,
        Said::Resource(Stock {
            resource: r,
            capital: bank.capital(r),
            cash: bank.cash(r),
        }),
    )
}

/// Says what a job claims, holds and needs of a resource.
fn say_share(out: &mut Vec<Said>, bank: &Bank, p: usize, r: usize) -> Result<(), NoMemory>
    requires job { p < processes bank.now.state }
    requires resource { r < resources bank.now.state }
    ensures { OnOk result (out.new.items ≡ out.old.items ++ spec.share_said bank.now.state p r ∷ []) }
{
    // Called for its contract alone, which the proof needs.
    let _ = bank.slots();
    let claim = bank.claim(p, r);
    let holds = bank.loan(p, r);
    say(
        out,
        Said::Job(Share {
            job: p,
            resource: r,
            claim,
            holds,
            needs: claim.saturating_sub(holds),
        }),
    )
}

/// Says the shares of a job.
fn say_shares(out: &mut Vec<Said>, bank: &Bank, p: usize) -> Result<(), NoMemory>
    requires { p < processes bank.now.state }
    ensures { OnOk result (out.new.items ≡ out.old.items
        ++ spec.all_said_below (λ r. spec.share_said bank.now.state p r ∷ []) (resources bank.now.state)) }
{
    for r in 0..bank.resources() {
        say_share(out, bank, p, r)?;
    }
    Ok(())
}

/// Says the shares of a slot, if a job has it.
fn say_slot(out: &mut Vec<Said>, bank: &Bank, p: usize) -> Result<(), NoMemory>
    requires { p < processes bank.now.state }
    ensures { OnOk result (out.new.items ≡ out.old.items ++ spec.job_said bank.now p) }
{
    // Called for its contract alone, which the proof needs.
    let _ = bank.slots();
    if !bank.has_job(p) {
        return Ok(());
    }
    say_shares(out, bank, p)
}

/// Says the stock of all resources.
fn say_stocks(out: &mut Vec<Said>, bank: &Bank) -> Result<(), NoMemory>
    ensures { OnOk result (out.new.items ≡ out.old.items
        ++ spec.all_said_below (λ r. spec.stock_said bank.now.state r ∷ []) (resources bank.now.state)) }
{
    for r in 0..bank.resources() {
        say_stock(out, bank, r)?;
    }
    Ok(())
}

/// Says the shares of all jobs.
fn say_slots(out: &mut Vec<Said>, bank: &Bank) -> Result<(), NoMemory>
    ensures { OnOk result (out.new.items ≡ out.old.items ++ spec.all_said_below (spec.job_said bank.now) (processes bank.now.state)) }
{
    for p in 0..bank.slots() {
        say_slot(out, bank, p)?;
    }
    Ok(())
}

/// Says a state.
pub(crate) fn say_bank(out: &mut Vec<Said>, bank: &Bank) -> Result<(), NoMemory>
    ensures { OnOk result (out.new.items ≡ out.old.items ++ spec.state_said bank.now) }
{
    say_stocks(out, bank)?;
    say_slots(out, bank)
}

//! The queue of wishes.

ghost use Rattle.std.specs.Prelude.{◌≡◌, ◌++◌, ◌∷◌, [], IfOk, OnOk};
ghost use Rattle.pb_bank.specs.Queues as queue;

use crate::request::Request;
use crate::said::{Said, say};
use pb_base::NoMemory;
use std::alloc::Global;

/// Returns whether a job has a wish in the queue.
pub(crate) fn has_wish(wishes: &[Request], job: usize) -> bool
    ensures { result ≡ queue.has_wish wishes.now job }
{
    wishes.iter().any(|wish| wish.job == job)
}

/// Appends a wish to `others`, if it is one of another job.
fn keep_other(others: &mut Vec<Request>, wish: &Request, job: usize) -> Result<(), NoMemory>
    ensures { OnOk result (others.new.items ≡ others.old.items ++ queue.without_wish (wish.now ∷ []) job) }
{
    if wish.job != job {
        others.push(*wish)?;
    }
    Ok(())
}

/// Returns the wishes of the other jobs, in their order.
pub(crate) fn without(
    alloc: Global,
    wishes: &[Request],
    job: usize,
) -> Result<Vec<Request>, NoMemory>
    ensures { IfOk result (λ others. others.items ≡ queue.without_wish wishes.now job) }
{
    let mut others = Vec::new(alloc);
    for wish in wishes {
        keep_other(&mut others, wish, job)?;
    }
    Ok(others)
}

/// Says the wishes of the queue.
pub(crate) fn say_wishes(out: &mut Vec<Said>, wishes: &[Request]) -> Result<(), NoMemory>
    ensures { OnOk result (out.new.items ≡ out.old.items ++ queue.wishes_said wishes.now) }
{
    for wish in wishes {
        say(out, Said::Wish(*wish))?;
    }
    Ok(())
}

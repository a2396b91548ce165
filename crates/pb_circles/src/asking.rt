//! What an arm asks for.

ghost use Rattle.std.specs.Prelude.{◌≡◌, ◌==◌, cond, IfSome, IfNone};
ghost use Rattle.pb_base.specs.Bundle as bundles;
ghost use Rattle.pb_base.specs.Steppers.{Bundle};
ghost use Rattle.pb_code.specs.Bundles.{NamesBundles};
ghost use Rattle.pb_code.specs.View.{process_view};
ghost use Rattle.pb_machine.specs.Turns.{IsAtTake};
ghost use Rattle.pb_machine.specs.Views.{thread_view};

use pb_base::{Bundle, Pair};
use pb_code::{Instr, ProcessCode};
use pb_machine::Thread;

/// Returns the bundle for which an arm asks, if it is at a request.
pub fn asked<'c>(code: &'c ProcessCode, thread: &Thread) -> Option<&'c Bundle>
    requires { NamesBundles code.now }
    ensures some { IfSome result (λ bundle. IsAtTake (process_view code.entry.now) (thread_view thread.now) bundle.now) }
    ensures none { IfNone result ((bundle : Bundle) → IsAtTake (process_view code.entry.now) (thread_view thread.now) bundle → ⊥) }
{
    let place = usize::from(thread.place()?);
    match code.instrs.get(place) {
        Some(Instr::Take(k)) => Some(&code.bundles[usize::from(*k)]),
        _ => None,
    }
}

/// Returns the amount of a pair, if it is of this resource, else 0.
fn share(pair: Pair, r: usize) -> u32
    ensures { result ≡ cond (pair.resource == r) pair.amount 0 }
{
    if usize::from(pair.resource) == r {
        pair.amount
    } else {
        0
    }
}

/// Returns the amount of a resource in a bundle: 0 if there is none.
pub fn amount_in(bundle: &Bundle, r: usize) -> u64
    ensures { result ≡ bundles.amount_in bundle.now r }
{
    let mut amount = 0;
    for i in 0..bundle.len() {
        amount += u64::from(share(bundle.get(i), r));
    }
    amount
}

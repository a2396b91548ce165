//! The command `outcomes --expect`: whether all runs of a program are as expected.

ghost use Rattle.std.specs.Prelude.{◌≡◌, ◌≤◌, ◌⊎◌, IfOk, Some, length, map, slice_get, true};
ghost use Rattle.pb_base.specs.declared.lending.Lending.{Lending as AnyLending};
ghost use Rattle.pb_options.specs.Lends.{lending_for};
ghost use Rattle.pb_search.specs.Deadlocks.{FoundDeadlock, deadlock_view};
ghost use Rattle.pb_search.specs.Outcomes.{found_view};
ghost use Rattle.pb_search.specs.Told.{AreSome};
ghost use Rattle.pb_search_engine.specs.Expected.{printing};
ghost use Rattle.pb_search_engine.specs.Items.{given_item_view};
ghost use Rattle.pb_search_engine.specs.SaysExpected.{IsPlainBy, SaysOfAsked, SaysOfEndless, SaysOfExpectedOf, SaysOfRuns, TellsDeadlock, TellsOutcome};
ghost use Rattle.pb_voice.specs.Held.{at};
ghost use Rattle.pb_voice.specs.Tellings.{Speaks};

use crate::answer::{Answer, tell_answer};
use crate::asked::{Asked, read_asked};
use crate::judged::{fair_answer, other_deadlock, other_outcome, plain_answer};
use crate::outcomes::mode;
use crate::print_lines::PrintFault;
use crate::requirements::first_unmet;
use crate::said::Said;
use crate::teller::{Teller, tell_last};
use crate::wanted::{Wanted, first_other};
use pb_accept::Said as PlainSaid;
use pb_base::{NoMemory, Output};
use pb_codegen::Compiled;
use pb_command_io::Status;
use pb_options::OutcomesOptions;
use pb_search::explore::explore_by;
use pb_search::{Extent, Outcomes, Until};
use pb_search_fair::fair_runs;
use std::alloc::Global;

/// Tells whether a compiled text is as the lines ask that follow it, after a line `%%`: whether it has what they require,
/// and all its runs are as the print lines say; and else the first requirement that is not met, or the first outcome or
/// deadlock that is not as expected, or that some run does not end. With `options.fair` a run that does not end counts
/// only if it is fair.
pub fn tell_lines<O: Output, T: Teller>(
    alloc: Global,
    options: OutcomesOptions,
    compiled: &Compiled,
    lines: &[u8],
    teller: &mut T,
    output: &mut O,
) -> Status
    ensures { Speaks T.tells T.breaks (SaysOfExpectedOf options lines.now compiled.now.verified.code compiled.now.labels)
        (at O.written O.failures teller.old output.old) (at O.written O.failures teller.new output.new) result }
{
    match read_asked(alloc, compiled.verified().code(), lines) {
        Ok(asked) => tell_asked(alloc, options, compiled, &asked, teller, output),
        Err(PrintFault::NotPrint(place)) => {
            tell_last(teller, output, Said::BadLine(place), Status::Refused)
        }
        Err(PrintFault::NoMemory) => {
            let said = Said::Plain(PlainSaid::NoMemory);
            tell_last(teller, output, said, Status::Memory)
        }
    }
}

/// Tells whether a compiled text is as it is asked: the first requirement that is not met, or else what is found of its
/// runs.
fn tell_asked<O: Output, T: Teller>(
    alloc: Global,
    options: OutcomesOptions,
    compiled: &Compiled,
    asked: &Asked<'_>,
    teller: &mut T,
    output: &mut O,
) -> Status
    ensures { Speaks T.tells T.breaks (SaysOfAsked options.fair (lending_for options.lend) options.any_order
        asked.now.requirements.items asked.now.prints.items compiled.now.verified.code compiled.now.labels options.states)
        (at O.written O.failures teller.old output.old) (at O.written O.failures teller.new output.new) result }
{
    let code = compiled.verified().code();
    match first_unmet(code, &asked.requirements) {
        Some(requirement) => tell_last(
            teller,
            output,
            Said::Lacks(requirement),
            Status::Unexpected,
        ),
        None => {
            let wanted = Wanted {
                prints: &asked.prints,
                any_order: options.any_order,
            };
            let found = compared(alloc, options, compiled, wanted);
            tell_answer(compiled, found, teller, output)
        }
    }
}

/// Returns what is said of the runs of a compiled text, which are to print this.
fn compared(
    alloc: Global,
    options: OutcomesOptions,
    compiled: &Compiled,
    wanted: Wanted<'_>,
) -> Result<Answer, NoMemory>
    ensures { IfOk result (λ a. SaysOfRuns options.fair (lending_for options.lend) wanted.entry.any_order wanted.entry.prints.now
        compiled.now.verified.code options.states (map given_item_view a.items.items) a.status) }
{
    let verified = compiled.verified();
    let mode = mode(options.lend, true);
    let told = explore_by(alloc, verified, mode, Until::FirstDeadlock, options.states)?;
    match first_other(alloc, wanted, &told.found)? {
        Some(at) => other_outcome(alloc, &told.found[at]),
        None => no_other(alloc, options, compiled, &told),
    }
}

/// Returns what is said if all outcomes that were found are wanted.
fn no_other(
    alloc: Global,
    options: OutcomesOptions,
    compiled: &Compiled,
    told: &Outcomes,
) -> Result<Answer, NoMemory>
    requires some { (lending : AnyLending) × AreSome (printing lending) compiled.now.verified.code
        (map found_view told.now.found.items) (map deadlock_view told.now.deadlocks.items) }
    ensures { IfOk result (λ a.
        ((length told.now.deadlocks.items ≡ 0) × IsPlainBy options.fair (lending_for options.lend)
        compiled.now.verified.code options.states told.now.extent (map given_item_view a.items.items) a.status)
        ⊎ ((d : FoundDeadlock) × (slice_get (map deadlock_view told.now.deadlocks.items) 0 ≡ Some d)
        × TellsDeadlock d (map given_item_view a.items.items) × (a.status ≡ Status.Unexpected))) }
{
    if told.deadlocks.is_empty() {
        return found_plain(alloc, options, compiled, told.extent);
    }
    other_deadlock(alloc, &told.deadlocks[0])
}

/// Returns what is said if all outcomes that were found are wanted and there is no deadlock, by how much was found.
fn found_plain(
    alloc: Global,
    options: OutcomesOptions,
    compiled: &Compiled,
    extent: Extent,
) -> Result<Answer, NoMemory>
    ensures { IfOk result (λ a. IsPlainBy options.fair (lending_for options.lend) compiled.now.verified.code
        options.states extent (map given_item_view a.items.items) a.status) }
{
    if options.fair && extent == (Extent::All { cycles: true }) {
        return found_fair(alloc, options, compiled);
    }
    plain_answer(alloc, extent, options.states)
}

/// Returns what is said if each run that ends is as expected and some run does not end, by the fair ones.
fn found_fair(
    alloc: Global,
    options: OutcomesOptions,
    compiled: &Compiled,
) -> Result<Answer, NoMemory>
    ensures { IfOk result (λ a. SaysOfEndless true (lending_for options.lend) compiled.now.verified.code
        options.states (map given_item_view a.items.items) a.status) }
{
    let lending = options.lend.lending();
    let told = fair_runs(alloc, compiled.verified(), lending, options.states)?;
    fair_answer(alloc, told, options.states)
}

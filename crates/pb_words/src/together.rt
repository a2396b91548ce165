//! Which options of `outcomes` mean something together.

ghost use Rattle.std.specs.Prelude.{◌≡◌, ◌↔◌, IsTrue, true};
ghost use Rattle.pb_words.specs.Together.{AtMostOne, MeanSomething, NoneGiven, has_value, in_place, in_place_of_list, of_no_end};

use pb_options::OutcomesOptions;

/// What is said of options of `outcomes` that mean nothing together.
pub const NOT_TOGETHER: &str =
    "error: these options of 'outcomes' mean nothing together\n\n  one of --expect, --endless, --graph, --run and --deadlock may be given;\n  --any-order goes with --expect alone, --fair with all but --graph, --run and --deadlock,\n  --prints and --first-deadlock with all but --expect, --endless and --graph\n\nFor more information, try '--help'.\n";

/// Returns whether the options mean something together: one thing at most is asked for in place of all outcomes, and
/// no option is given that would change nothing.
pub(crate) fn mean_something(o: &OutcomesOptions) -> bool
    ensures { IsTrue result ↔ MeanSomething o.now }
{
    if !at_most_one(&[
        o.expect,
        o.endless,
        o.graph,
        o.run.is_some(),
        o.deadlock.is_some(),
    ]) {
        return false;
    }
    if o.any_order && !o.expect {
        return false;
    }
    if o.fair && !none_given(&[o.graph, o.run.is_some(), o.deadlock.is_some()]) {
        return false;
    }
    if o.first_deadlock || o.prints {
        return none_given(&[o.expect, o.endless, o.graph]);
    }
    true
}

/// Returns whether at most one of these is given.
fn at_most_one(given: &[bool]) -> bool
    ensures { IsTrue result ↔ AtMostOne given.now }
{
    match given {
        [] => true,
        [true, others @ ..] => none_given(others),
        [false, others @ ..] => at_most_one(others),
    }
}

/// Returns whether none of these is given.
fn none_given(given: &[bool]) -> bool
    ensures { IsTrue result ↔ NoneGiven given.now }
{
    match given {
        [] => true,
        [true, ..] => false,
        [false, others @ ..] => none_given(others),
    }
}

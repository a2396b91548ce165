//! The lines of outcomes.

ghost use Rattle.std.specs.Prelude.{◌≡◌, ◌++◌, OnOk, codes};
ghost use Rattle.std.specs.Fmt.{decimal};
ghost use Rattle.pb_base.specs.Lines.{line};
ghost use Rattle.pb_search_engine.specs.OutcomeLines.{all_line, deadlocks_text, last_line, plural, runs_text};

use pb_base::NoMemory;
use pb_base::limits::MAX_PICKS;
use pb_base::writing::put_number;
use pb_search::Extent;

/// Appends the first line of an outcome or of a deadlock to a text: a word and a number.
pub fn put_head(text: &mut Vec<u8>, word: &[u8], number: usize) -> Result<(), NoMemory>
    ensures { OnOk result (text.new.items ≡ text.old.items ++ line (word.now ++ decimal number)) }
{
    put_number(text, word, number)?;
    text.push(b'\n')?;
    Ok(())
}

/// Appends the last line, which says whether these are all.
pub fn put_last(
    text: &mut Vec<u8>,
    outcomes: usize,
    deadlocks: usize,
    extent: Extent,
    states: u32,
) -> Result<(), NoMemory>
    ensures { OnOk result (text.new.items ≡ text.old.items ++ last_line states outcomes deadlocks extent) }
{
    match extent {
        Extent::All { cycles } => put_count(text, outcomes, deadlocks, cycles),
        Extent::TooMany => put_excess(text, states, b" configurations, there may be others\n"),
        Extent::TooLong => put_excess(text, MAX_PICKS, b" picks, there may be others\n"),
        Extent::AtDeadlock => {
            text.extend_from_slice(b"first deadlock, there may be others\n")?;
            Ok(())
        }
    }
}

/// Appends that there are more than this number of something.
fn put_excess(text: &mut Vec<u8>, number: u32, what: &[u8]) -> Result<(), NoMemory>
    ensures { OnOk result (text.new.items ≡ text.old.items ++ (codes "more than " ++ decimal number ++ what.now)) }
{
    put_number(text, b"more than ", number)?;
    text.extend_from_slice(what)?;
    Ok(())
}

/// Appends the line that says how many outcomes and deadlocks there are and whether some run never ends.
fn put_count(
    text: &mut Vec<u8>,
    outcomes: usize,
    deadlocks: usize,
    cycles: bool,
) -> Result<(), NoMemory>
    ensures { OnOk result (text.new.items ≡ text.old.items ++ all_line outcomes deadlocks cycles) }
{
    put_number(text, b"", outcomes)?;
    text.extend_from_slice(b" outcome")?;
    put_plural(text, outcomes)?;
    put_deadlock_count(text, deadlocks)?;
    put_runs(text, cycles)?;
    text.push(b'\n')?;
    Ok(())
}

/// Appends the end of a word that is said of this number.
fn put_plural(text: &mut Vec<u8>, number: usize) -> Result<(), NoMemory>
    ensures { OnOk result (text.new.items ≡ text.old.items ++ plural number) }
{
    if number != 1 {
        text.push(b's')?;
    }
    Ok(())
}

/// Appends whether some run never ends to a text.
fn put_runs(text: &mut Vec<u8>, cycles: bool) -> Result<(), NoMemory>
    ensures { OnOk result (text.new.items ≡ text.old.items ++ runs_text cycles) }
{
    if cycles {
        text.extend_from_slice(b", some runs do not end")?;
    }
    Ok(())
}

/// Appends how many deadlocks there are to a text, if there are some.
fn put_deadlock_count(text: &mut Vec<u8>, deadlocks: usize) -> Result<(), NoMemory>
    ensures { OnOk result (text.new.items ≡ text.old.items ++ deadlocks_text deadlocks) }
{
    if deadlocks > 0 {
        put_number(text, b", ", deadlocks)?;
        text.extend_from_slice(b" deadlock")?;
        put_plural(text, deadlocks)?;
    }
    Ok(())
}

//! Things that are listed, with `and` between them.

ghost use Rattle.std.specs.Prelude.{◌≡◌, ◌<◌, ◌+◌, ◌++◌, ◌||◌, not, map, IfOk, OnOk};
ghost use Rattle.pb_base.specs.Lines.{name_of, names_view, pair_text};
ghost use Rattle.pb_code.specs.Code.{is_over, thread as thread_in};
ghost use Rattle.pb_debug_texts.specs.Does as said;
ghost use Rattle.pb_machine.specs.Views.{proc_view};

use pb_base::writing::{put, put_number};
use pb_base::{Bundle, Names, NoMemory, Pair};
use pb_machine::{Proc, ThreadState};

/// Appends words and a name by its number to a text; nothing for a number that has no name.
pub(crate) fn put_named(
    text: &mut Vec<u8>,
    words: &[u8],
    names: &[Vec<u8>],
    number: usize,
) -> Result<(), NoMemory>
    ensures { OnOk result (text.new.items
        ≡ text.old.items ++ (words.now ++ name_of (map (λ name. name.items) names.now) number)) }
{
    put(text, words)?;
    match names.get(number) {
        Some(name) => put(text, name),
        None => Ok(()),
    }
}

/// Appends what stands before a thing that is listed to a text, if it is not the first.
fn put_and_before(text: &mut Vec<u8>, number: usize) -> Result<(), NoMemory>
    ensures { OnOk result (text.new.items ≡ text.old.items ++ said.and_before number) }
{
    match number {
        0 => Ok(()),
        _ => put(text, b" and"),
    }
}

/// Appends a pair of a bundle by its number to a text.
fn put_pair_at(text: &mut Vec<u8>, names: &Names, number: usize, pair: Pair) -> Result<(), NoMemory>
    ensures { OnOk result (text.new.items ≡ text.old.items
        ++ (said.and_before number ++ pair_text (names_view names.now) pair)) }
{
    put_and_before(text, number)?;
    put_number(text, b" ", pair.amount)?;
    put_named(text, b" ", &names.resources, usize::from(pair.resource))
}

/// Appends the pairs of a bundle to a text.
pub(crate) fn put_bundle(text: &mut Vec<u8>, names: &Names, bundle: &Bundle) -> Result<(), NoMemory>
    ensures { OnOk result (text.new.items ≡ text.old.items ++ said.bundle_text (names_view names.now) bundle.now) }
{
    for k in 0..bundle.len() {
        put_pair_at(text, names, k, bundle.get(k))?;
    }
    Ok(())
}

/// Appends the name of an arm to a text.
fn put_arm(text: &mut Vec<u8>, names: &Names, p: usize, arm: usize) -> Result<(), NoMemory>
    ensures { OnOk result (text.new.items ≡ text.old.items ++ said.arm_text (names_view names.now) p arm) }
{
    put_named(text, b" ", &names.processes, p)?;
    put_number(text, b".", arm)
}

/// Appends an arm that is listed to a text.
fn put_arm_at(
    text: &mut Vec<u8>,
    names: &Names,
    p: usize,
    first: u8,
    number: usize,
) -> Result<(), NoMemory>
    requires { number < 256 }
    ensures { OnOk result (text.new.items ≡ text.old.items
        ++ (said.and_before number ++ said.arm_text (names_view names.now) p (first + number))) }
{
    put_and_before(text, number)?;
    put_arm(text, names, p, usize::from(first) + number)
}

/// Appends the names of arms of a process to a text.
pub(crate) fn put_arms(
    text: &mut Vec<u8>,
    names: &Names,
    p: usize,
    first: u8,
    count: u8,
) -> Result<(), NoMemory>
    ensures { OnOk result (text.new.items ≡ text.old.items ++ said.arms_text (names_view names.now) p first count) }
{
    for k in 0..usize::from(count) {
        put_arm_at(text, names, p, first, k)?;
    }
    Ok(())
}

/// Returns whether an arm of a process has ended.
fn has_ended(process: &Proc, arm: usize) -> bool
    ensures { result ≡ is_over (thread_in (proc_view process.now).threads arm) }
{
    arm < process.arms() && process.thread(arm).state() == ThreadState::Ended
}

/// Appends an arm to a text if it has not ended, and returns whether it or one before it has not.
fn put_awaited_at(
    text: &mut Vec<u8>,
    names: &Names,
    p: usize,
    process: &Proc,
    arm: usize,
    some: bool,
) -> Result<bool, NoMemory>
    ensures text { OnOk result (text.new.items ≡ text.old.items
        ++ said.awaited_arm (names_view names.now) p (proc_view process.now).threads arm some) }
    ensures some { IfOk result (λ is. is ≡ (some || not (is_over (thread_in (proc_view process.now).threads arm)))) }
{
    if has_ended(process, arm) {
        return Ok(some);
    }
    if some {
        put(text, b" and")?;
    } else {
        put(text, b"waits for")?;
    }
    put_arm(text, names, p, arm)?;
    Ok(true)
}

/// Appends the names of those arms that have not ended to a text, and returns whether there are some.
pub(crate) fn put_awaited(
    text: &mut Vec<u8>,
    names: &Names,
    p: usize,
    process: &Proc,
    first: u8,
    count: u8,
) -> Result<bool, NoMemory>
    ensures text { OnOk result (text.new.items ≡ text.old.items
        ++ said.awaited_text (names_view names.now) p (proc_view process.now).threads first count) }
    ensures some { IfOk result (λ some. some ≡ said.awaits (proc_view process.now).threads first count) }
{
    let mut some = false;
    for k in 0..usize::from(count) {
        some = put_awaited_at(text, names, p, process, usize::from(first) + k, some)?;
    }
    Ok(some)
}

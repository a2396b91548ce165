//! Small functions that append to the bytes of a line or a text.

ghost use Rattle.std.specs.Prelude.{◌≡◌, ◌<◌, ◌++◌, length, All, OnOk};
ghost use Rattle.pb_base.specs.Lines.{line, names_view, name_of, pick_text, pair_text, pairs_text};

use crate::bundle::Bundle;
use crate::memory::NoMemory;
use crate::names::Names;
use crate::pair::Pair;
use crate::pick::Pick;
use itoa::{Buffer, Integer};

/// Appends words to `out`.
pub fn put(out: &mut Vec<u8>, words: &[u8]) -> Result<(), NoMemory>
    ensures { OnOk result (out.new.items ≡ out.old.items ++ words.now) }
{
    out.extend_from_slice(words)?;
    Ok(())
}

/// Appends words to `out`, and ends the line.
pub fn put_line(out: &mut Vec<u8>, words: &[u8]) -> Result<(), NoMemory>
    ensures { OnOk result (out.new.items ≡ out.old.items ++ line words.now) }
{
    put(out, words)?;
    put(out, b"\n")
}

/// Appends a number in decimal to `out`, with a minus sign if it is below zero.
pub fn put_digits<I: Integer>(out: &mut Vec<u8>, number: I) -> Result<(), NoMemory>
    ensures { OnOk result (out.new.items ≡ out.old.items ++ I.text number) }
{
    let mut digits = Buffer::new();
    put(out, digits.format(number).as_bytes())
}

/// Appends words and then a number to `out`.
pub fn put_number<I: Integer>(out: &mut Vec<u8>, words: &[u8], number: I) -> Result<(), NoMemory>
    ensures { OnOk result (out.new.items ≡ out.old.items ++ (words.now ++ I.text number)) }
{
    put(out, words)?;
    put_digits(out, number)
}

/// Appends words and then a name to `out`.
pub fn put_name(out: &mut Vec<u8>, words: &[u8], name: &[u8]) -> Result<(), NoMemory>
    ensures { OnOk result (out.new.items ≡ out.old.items ++ (words.now ++ name.now)) }
{
    put(out, words)?;
    put(out, name)
}

/// Appends the name of a process to `out`.
pub fn put_process(out: &mut Vec<u8>, names: &Names, process: u8) -> Result<(), NoMemory>
    requires { process < length (names_view names.now).processes }
    ensures { OnOk result (out.new.items ≡
        out.old.items ++ name_of (names_view names.now).processes process) }
{
    put(out, names.processes[process as usize].as_slice())
}

/// Appends a pick to `out`, as `P.a`: its process and its arm.
pub fn put_pick(out: &mut Vec<u8>, names: &Names, pick: Pick) -> Result<(), NoMemory>
    requires { pick.process < length (names_view names.now).processes }
    ensures { OnOk result (out.new.items ≡ out.old.items ++ pick_text (names_view names.now) pick) }
{
    put_process(out, names, pick.process)?;
    put_number(out, b".", pick.arm)
}

/// Appends an amount and its resource to `out`, as ` k R`.
pub fn put_pair(out: &mut Vec<u8>, names: &Names, pair: Pair) -> Result<(), NoMemory>
    requires { pair.resource < length (names_view names.now).resources }
    ensures { OnOk result (out.new.items ≡ out.old.items ++ pair_text (names_view names.now) pair) }
{
    put_number(out, b" ", pair.amount)?;
    put_name(
        out,
        b" ",
        names.resources[pair.resource as usize].as_slice(),
    )
}

/// Appends the pairs of a bundle to `out`, in their order.
pub fn put_pairs(out: &mut Vec<u8>, names: &Names, bundle: &Bundle) -> Result<(), NoMemory>
    requires { All (λ pair. pair.resource < length (names_view names.now).resources) bundle.now }
    ensures { OnOk result (out.new.items ≡ out.old.items ++ pairs_text (names_view names.now) bundle.now) }
{
    for i in 0..bundle.len() {
        put_pair(out, names, bundle.get(i))?;
    }
    Ok(())
}

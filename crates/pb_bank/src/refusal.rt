//! Why a command is refused.

ghost use Rattle.std.specs.Prelude.{◌≡◌, ◌++◌, OnOk, map};
ghost use Rattle.pb_base.specs.Lines.{names_view};
ghost use Rattle.pb_bank.specs.Sayings.{refusal_about};
ghost use Rattle.pb_bank.specs.Tables as said;
ghost use Rattle.pb_bank.specs.Words as spec;
ghost use Rattle.pb_bank.specs.Words.{words_of};

use crate::lines::name_at;
use crate::words::nth_word;
use pb_base::writing::{put, put_name};
use pb_base::{Names, NoMemory};

/// Why a command is refused. It changes nothing then. Words are counted from 0 after the command.
#[derive(Clone, Copy, Debug, PartialEq, Eq)]
pub enum Refusal {
    /// The line is not a command, or is over 4,096 bytes.
    Command,
    /// The word with this number stands where a comma belongs.
    NoComma(usize),
    /// An amount, the word with this number, is not a number, or is over 1,000,000.
    Amount(usize),
    /// A name is over 32 bytes, or has bytes that names may not have.
    Name,
    /// No resource has the name that the word with this number is.
    NoResource(usize),
    /// No job has the name that the word with this number is.
    NoJob(usize),
    /// This resource is named twice.
    Twice(usize),
    /// The name, the first word, is taken.
    Taken,
    /// There was a job before the resource.
    Late,
    /// There are 16 resources or 64 jobs beside the one that the first word names.
    Full,
    /// A claim is over the capital of this resource.
    OverCapital(usize),
    /// The job does not hold as much of this resource.
    NotHeld(usize),
    /// The job, the first word, has a wish in the queue.
    HasWish,
    /// The job, the first word, has no wish in the queue.
    NoWish,
    /// The job holds or waits for more of this resource.
    InUse(usize),
}

/// Returns a byte of a word as it is shown.
fn shown_byte(b: u8) -> u8
    ensures { result ≡ spec.shown_byte b }
{
    if 32 < b && b < 127 { b } else { b'?' }
}

/// Appends a word as it is shown to `out`.
fn put_shown(out: &mut Vec<u8>, word: &[u8]) -> Result<(), NoMemory>
    ensures { OnOk result (out.new.items ≡ out.old.items ++ map spec.shown_byte word.now) }
{
    for byte in word {
        put(out, &[shown_byte(*byte)])?;
    }
    Ok(())
}

/// Appends the word with a number of a text to `out`, as it is shown.
fn put_word(out: &mut Vec<u8>, text: &[u8], at: usize) -> Result<(), NoMemory>
    ensures { OnOk result (out.new.items ≡ out.old.items ++ spec.shown_word (words_of text.now) at) }
{
    put_shown(out, nth_word(text, at))
}

/// Returns the code of a refusal.
pub(crate) fn code_of(refusal: Refusal) -> &'static [u8]
    ensures { result.now ≡ said.refusal_code refusal }
{
    match refusal {
        Refusal::Command | Refusal::NoComma(_) => b"B1",
        Refusal::Amount(_) => b"B2",
        Refusal::Name => b"B3",
        Refusal::NoResource(_) => b"B4",
        Refusal::NoJob(_) => b"B5",
        Refusal::Twice(_) => b"B6",
        Refusal::Taken => b"B7",
        Refusal::Late => b"B8",
        Refusal::Full => b"B9",
        Refusal::OverCapital(_) => b"B10",
        Refusal::NotHeld(_) => b"B11",
        Refusal::HasWish => b"B12",
        Refusal::NoWish => b"B13",
        Refusal::InUse(_) => b"B14",
    }
}

/// Appends the words of a refusal to `out`, before what it is about.
pub(crate) fn put_words(out: &mut Vec<u8>, refusal: Refusal) -> Result<(), NoMemory>
    ensures { OnOk result (out.new.items ≡ out.old.items ++ said.refusal_words refusal) }
{
    match refusal {
        Refusal::Command => put(out, b"not a command"),
        Refusal::NoComma(_) => put(out, b"not a command: a comma is missing before "),
        Refusal::Amount(_) => put(out, b"an amount is not in 0..=1000000: "),
        Refusal::Name => put(out, b"not a name of 1 to 32 bytes"),
        Refusal::NoResource(_) => put(out, b"no such resource: "),
        Refusal::NoJob(_) => put(out, b"no such job: "),
        Refusal::Twice(_) => put(out, b"a resource is named twice: "),
        Refusal::Taken => put(out, b"the name is taken: "),
        Refusal::Late => put(out, b"a job was there before the resource"),
        Refusal::Full => put(out, b"there are as many as there can be: "),
        Refusal::OverCapital(_) => put(out, b"a claim is over the capital: "),
        Refusal::NotHeld(_) => put(out, b"the job does not hold as much: "),
        Refusal::HasWish => put(out, b"the job has a wish in the queue: "),
        Refusal::NoWish => put(out, b"the job has no wish in the queue: "),
        Refusal::InUse(_) => put(out, b"the job holds or waits for more: "),
    }
}

/// Appends what a refusal is about to `out`: of a command after which this text stands.
pub(crate) fn put_about(
    out: &mut Vec<u8>,
    names: &Names,
    text: &[u8],
    refusal: Refusal,
) -> Result<(), NoMemory>
    ensures { OnOk result (out.new.items
        ≡ out.old.items ++ refusal_about (names_view names.now) (words_of text.now) refusal) }
{
    match refusal {
        Refusal::Command | Refusal::Name | Refusal::Late => Ok(()),
        Refusal::NoComma(at) | Refusal::Amount(at) | Refusal::NoResource(at) | Refusal::NoJob(at) =>
            put_word(out, text, at),
        Refusal::Taken | Refusal::Full | Refusal::HasWish | Refusal::NoWish => {
            put_word(out, text, 0)
        }
        Refusal::Twice(r) | Refusal::OverCapital(r) | Refusal::NotHeld(r) | Refusal::InUse(r) =>
            put(out, name_at(&names.resources, r)),
    }
}

/// Appends the line of a refusal to `out`: of a command after which this text stands.
pub(crate) fn put_refusal(
    out: &mut Vec<u8>,
    names: &Names,
    text: &[u8],
    refusal: Refusal,
) -> Result<(), NoMemory>
    ensures { OnOk result (out.new.items
        ≡ out.old.items ++ said.refusal_text (refusal_about (names_view names.now) (words_of text.now) refusal) refusal) }
{
    put_name(out, b"refused ", code_of(refusal))?;
    put(out, b" ")?;
    put_words(out, refusal)?;
    put_about(out, names, text, refusal)?;
    put(out, b"\n")
}

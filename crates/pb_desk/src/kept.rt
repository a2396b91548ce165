//! Texts that are kept with their numbers.

ghost use Rattle.std.specs.Prelude.{◌≡◌, ◌++◌, OnOk};
ghost use Rattle.pb_desk.specs.Applies.{text_again};
ghost use Rattle.pb_desk.specs.Sessions.{text_of, with_one};

use crate::refusal::{Refusal, put_refusal};
use pb_base::NoMemory;
use pb_base::writing::put;
use std::marker::Model;

/// The most texts of a kind that are kept of a session.
const MOST_KEPT: usize = 64;

/// A text with its number.
#[derive(Drop)]
pub struct Kept {
    pub(crate) number: u64,
    pub(crate) text: Vec<u8>,
}

impl Model for Kept {
    ghost use Rattle.pb_desk.specs.Sessions.{KeptValue};

    ghost Value = { KeptValue };

    ghost view = { λ k. record { number = k.number; text = k.text.items } };
}

/// Keeps one more text. Of 64 the oldest goes.
pub(crate) fn keep(kept: &mut Vec<Kept>, one: Kept) -> Result<(), NoMemory>
    ensures { OnOk result (kept.new.items ≡ with_one kept.old.items one) }
{
    if MOST_KEPT <= kept.len() {
        let _oldest = kept.remove(0);
    }
    kept.push(one)?;
    Ok(())
}

/// Appends the text with a number to `out`, or that it is no longer kept.
pub(crate) fn put_kept(out: &mut Vec<u8>, kept: &[Kept], number: u64) -> Result<(), NoMemory>
    ensures { OnOk result (out.new.items ≡ out.old.items ++ text_again (text_of kept.now number)) }
{
    for one in kept {
        if one.number == number {
            return put(out, &one.text);
        }
    }
    put_refusal(out, Refusal::NotKept)
}

//! A session.

ghost use Rattle.std.specs.Prelude.{◌≡◌, ◌+◌, ◌==◌, ◌++◌, IfOk, OnOk};
ghost use Rattle.pb_desk.specs.Applies.{is_done, text_again};
ghost use Rattle.pb_desk.specs.Sessions as spec;

use crate::kept::{Kept, keep, put_kept};
use pb_base::NoMemory;
use std::alloc::Global;
use std::marker::Model;

/// Who talks to the bank: a key and a lease, the answers to the last requests, and the last notices.
#[derive(Drop)]
pub struct Session {
    pub(crate) id: u64,
    pub(crate) key: Vec<u8>,
    pub(crate) lease: u64,
    pub(crate) last: u64,
    pub(crate) answers: Vec<Kept>,
    pub(crate) noted: u64,
    pub(crate) notices: Vec<Kept>,
}

impl Model for Session {
    ghost use Rattle.pb_desk.specs.Sessions.{SessionValue};

    ghost Value = { SessionValue };

    ghost view = { λ s. record {
      id = s.id;
      key = s.key.items;
      lease = s.lease;
      last = s.last;
      answers = s.answers.items;
      noted = s.noted;
      notices = s.notices.items;
    } };
}

impl Session {
    /// Returns a session that has just begun.
    pub(crate) fn new(alloc: Global, id: u64, key: Vec<u8>, lease: u64) -> Session
        ensures { result ≡ spec.just_begun id key.items lease }
    {
        Session {
            id,
            key,
            lease,
            last: 0,
            answers: Vec::new(alloc),
            noted: 0,
            notices: Vec::new(alloc),
        }
    }

    /// Returns whether this is its number.
    pub(crate) fn is_of(&self, id: u64) -> bool
        ensures { result ≡ (self.now.id == id) }
    {
        self.id == id
    }

    /// Returns whether the request with a number was carried out.
    pub(crate) fn has_done(&self, number: u64) -> bool
        ensures { result ≡ is_done self.now number }
    {
        !(number == 0) && !(self.last < number)
    }

    /// Appends the answer to a request that was carried out to `out`, or that it is no longer kept.
    pub(crate) fn put_answer(&self, out: &mut Vec<u8>, number: u64) -> Result<(), NoMemory>
        ensures { OnOk result (out.new.items ≡ out.old.items ++ text_again (spec.text_of self.now.answers number)) }
    {
        put_kept(out, &self.answers, number)
    }

    /// Keeps the answer to a request, if it has a number.
    pub(crate) fn answer(&mut self, number: u64, text: Vec<u8>) -> Result<(), NoMemory>
        ensures { OnOk result (self.new ≡ spec.answered self.old number text.items) }
    {
        if number == 0 {
            return Ok(());
        }
        keep(&mut self.answers, Kept { number, text })?;
        self.last = number;
        Ok(())
    }

    /// Keeps a notice, and returns its number. (If all numbers are used up, as if out of memory.)
    pub(crate) fn note(&mut self, text: Vec<u8>) -> Result<u64, NoMemory>
        ensures noted { OnOk result (self.new ≡ spec.noted self.old text.items) }
        ensures number { IfOk result (λ number. number ≡ self.old.noted + 1) }
    {
        let Some(number) = self.noted.checked_add(1) else {
            return Err(NoMemory);
        };
        keep(&mut self.notices, Kept { number, text })?;
        self.noted = number;
        Ok(number)
    }
}

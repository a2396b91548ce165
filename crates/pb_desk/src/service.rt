//! A served bank.

ghost use Rattle.std.specs.Prelude.{◌≡◌, codes};
ghost use Rattle.std.specs.Str.{bytes_eq};
ghost use Rattle.pb_desk.specs.Refusals as refused;

use crate::owners::{owner_at, slot_of};
use crate::refusal::Refusal;
use crate::session::Session;
use crate::words::{begins_with, subject};
use pb_bank::Desk;
use pb_base::NoMemory;
use std::alloc::Global;
use std::marker::Model;

/// What the names of jobs begin with that are the server's.
const RESERVED: &str = "-hole-";

/// A bank with the sessions over it: which jobs are whose, and what each session was told.
#[derive(Drop)]
pub struct Service {
    pub(crate) alloc: Global,
    pub(crate) desk: Desk,
    pub(crate) owners: Vec<u64>,
    pub(crate) sessions: Vec<Session>,
    pub(crate) newest: u64,
}

impl Model for Service {
    ghost use Rattle.pb_desk.specs.Services.{ServiceValue};

    ghost Value = { ServiceValue };

    ghost view = { λ v. record {
      desk = v.desk;
      owners = v.owners.items;
      sessions = v.sessions.items;
      newest = v.newest;
    } };
}

impl Service {
    /// Returns the session whose job has this name, 0 if none has it.
    fn owner_of(&self, name: &[u8]) -> u64
        ensures { result ≡ refused.owner_of self.now name.now }
    {
        match slot_of(&self.desk.names().processes, name) {
            Some(p) => owner_at(&self.owners, p),
            None => 0,
        }
    }

    /// Returns whether the job of this name is one of another session.
    fn is_of_another(&self, id: u64, name: &[u8]) -> bool
        ensures { result ≡ refused.is_another (refused.owner_of self.now name.now) id }
    {
        let owner = self.owner_of(name);
        if owner == 0 {
            return false;
        }
        !(owner == id)
    }

    /// Returns why a session may not say a line, if it may not.
    pub(crate) fn refusal_of(&self, id: u64, by_operator: bool, line: &[u8]) -> Option<Refusal>
        ensures { result ≡ refused.refusal_of self.now id by_operator line.now }
    {
        if begins_with(line, "resource") {
            return Some(Refusal::OfOperators);
        }
        if begins_with(line, "capital") {
            return if by_operator {
                None
            } else {
                Some(Refusal::OfOperators)
            };
        }
        if begins_with(line, "job") {
            return if is_reserved(subject(line)) {
                Some(Refusal::Reserved)
            } else {
                None
            };
        }
        if self.is_of_another(id, subject(line)) {
            Some(Refusal::OfAnother)
        } else {
            None
        }
    }
}

/// Returns whether a name is one of the server's.
fn is_reserved(name: &[u8]) -> bool
    ensures { result ≡ refused.is_reserved name.now }
{
    if name.len() < RESERVED.len() {
        return name == RESERVED.as_bytes();
    }
    let (first, _) = name.split_at(RESERVED.len());
    first == RESERVED.as_bytes()
}

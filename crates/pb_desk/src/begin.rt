//! A start: resources and sessions.

ghost use Rattle.std.specs.Prelude.{◌≡◌, ◌++◌, ◌∷◌, [], List, IfOk, OnOk};
ghost use Rattle.pb_desk.specs.Applies as spec;
ghost use Rattle.pb_desk.specs.Services.{ServiceValue, IsFirst};
ghost use Rattle.pb_desk.specs.declared.told.Told.{Told};

use crate::answers::{ask, text_of};
use crate::commands::{tell_answer, tell_refusal};
use crate::refusal::Refusal;
use crate::service::Service;
use crate::session::Session;
use crate::told::Told;
use crate::words::begins_with;
use pb_bank::Desk;
use pb_base::NoMemory;
use pb_base::writing::{put, put_digits, put_line};
use std::alloc::Global;

/// Appends the answer to who begins a session to `out`.
fn put_session(out: &mut Vec<u8>, id: u64, key: &[u8], lease: u64) -> Result<(), NoMemory>
    ensures { OnOk result (out.new.items ≡ out.old.items ++ spec.session_text id key.now lease) }
{
    put(out, b"session ")?;
    put_digits(out, id)?;
    put(out, b" ")?;
    put(out, key)?;
    put(out, b" ")?;
    put_digits(out, lease)?;
    put(out, b"\n")?;
    put_line(out, b"ready")
}

impl Service {
    /// Returns a bank with no resources, no jobs and no sessions.
    pub fn new(alloc: Global) -> Result<Service, NoMemory>
        ensures { IfOk result IsFirst }
    {
        let desk = Desk::new(alloc)?;
        Ok(Service {
            alloc,
            desk,
            owners: Vec::new(alloc),
            sessions: Vec::new(alloc),
            newest: 0,
        })
    }

    /// Begins a session with a number that is above each one before, or refuses it.
    pub fn begin(
        &mut self,
        out: &mut Vec<Told>,
        id: u64,
        key: Vec<u8>,
        lease: u64,
    ) -> Result<(), NoMemory>
        ensures { OnOk result ((all : List Told)
            × spec.Applies self.old (spec.Begin id key.items lease) all self.new
            × (out.new.items ≡ out.old.items ++ all)) }
    {
        if id <= self.newest {
            return tell_refusal(out, self.alloc, id, 0, Refusal::NoSession);
        }
        let mut text = Vec::new(self.alloc);
        put_session(&mut text, id, &key, lease)?;
        tell_answer(out, self.alloc, id, 0, &text)?;
        self.sessions
            .push(Session::new(self.alloc, id, key, lease))?;
        self.newest = id;
        Ok(())
    }

    /// Declares a resource of the first start, or refuses another command.
    pub fn declare(&mut self, out: &mut Vec<Told>, line: &[u8]) -> Result<(), NoMemory>
        ensures { OnOk result ((all : List Told) × spec.Applies self.old (spec.Declare line.now) all self.new
            × (out.new.items ≡ out.old.items ++ all)) }
    {
        if !begins_with(line, "resource") {
            return tell_refusal(out, self.alloc, 0, 0, Refusal::OfOperators);
        }
        let said = ask(&mut self.desk, self.alloc, line)?;
        let text = text_of(&self.desk, self.alloc, line, &said)?;
        tell_answer(out, self.alloc, 0, 0, &text)
    }
}

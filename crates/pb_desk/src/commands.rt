//! Commands of sessions.

ghost use Rattle.std.specs.Prelude.{◌≡◌, ◌++◌, ◌∷◌, [], List, IfOk, OnOk};
ghost use Rattle.pb_desk.specs.Applies as spec;
ghost use Rattle.pb_desk.specs.Refusals.{refusal_text};
ghost use Rattle.pb_desk.specs.Services.{answer_to, with_answer};
ghost use Rattle.pb_desk.specs.Sessions.{SessionValue, session_of, text_of};
ghost use Rattle.pb_desk.specs.declared.told.Told.{Told};

use crate::answers::{ask, copy_of, text_of};
use crate::notices::notify_all;
use crate::owners::owners_after;
use crate::refusal::{Refusal, put_refusal};
use crate::service::Service;
use crate::sessions::{done_of, keep_answer, put_answer_of};
use crate::told::{Message, Told};
use crate::words::begins_with;
use pb_bank::Said;
use pb_base::NoMemory;
use std::alloc::Global;

/// Returns what is said of wishes that waited: of a request that is granted at once nobody needs a notice.
fn of_wishes<'t>(line: &[u8], said: &'t [Said]) -> &'t [Said]
    ensures { result.now ≡ spec.of_wishes line.now said.now }
{
    if begins_with(line, "ask") || begins_with(line, "want") {
        return &said[..0];
    }
    said
}

/// Tells the answer to a request.
pub(crate) fn tell_answer(
    out: &mut Vec<Told>,
    alloc: Global,
    id: u64,
    number: u64,
    text: &[u8],
) -> Result<(), NoMemory>
    ensures { OnOk result (out.new.items ≡ out.old.items ++ answer_to id number text.now ∷ []) }
{
    let text = copy_of(alloc, text)?;
    out.push(Told::Answer(Message {
        session: id,
        number,
        text,
    }))?;
    Ok(())
}

/// Tells that a request is refused.
pub(crate) fn tell_refusal(
    out: &mut Vec<Told>,
    alloc: Global,
    id: u64,
    number: u64,
    refusal: Refusal,
) -> Result<(), NoMemory>
    ensures { OnOk result (out.new.items ≡ out.old.items ++ answer_to id number (refusal_text refusal) ∷ []) }
{
    let mut text = Vec::new(alloc);
    put_refusal(&mut text, refusal)?;
    out.push(Told::Answer(Message {
        session: id,
        number,
        text,
    }))?;
    Ok(())
}

impl Service {
    /// Returns whether the request with a number was carried out, of a session that is there.
    pub(crate) fn is_done(&self, id: u64, number: u64) -> Option<bool>
        ensures { result ≡ spec.done_of (session_of self.now.sessions id) number }
    {
        done_of(&self.sessions, id, number)
    }

    /// Returns the answer to a request that was carried out.
    fn kept_answer(&self, id: u64, number: u64) -> Result<Vec<u8>, NoMemory>
        ensures { IfOk result (λ text. (s : SessionValue) → session_of self.now.sessions id ≡ Some s
            → text.items ≡ spec.text_again (text_of s.answers number)) }
    {
        let mut text = Vec::new(self.alloc);
        put_answer_of(&self.sessions, &mut text, id, number)?;
        Ok(text)
    }

    /// Refuses a command of a session, which is answered and kept so.
    fn refuse(
        &mut self,
        out: &mut Vec<Told>,
        id: u64,
        number: u64,
        refusal: Refusal,
    ) -> Result<(), NoMemory>
        ensures after { OnOk result (self.new ≡ with_answer self.old id number (refusal_text refusal)) }
        ensures told { OnOk result (out.new.items ≡ out.old.items ++ answer_to id number (refusal_text refusal) ∷ []) }
    {
        let mut text = Vec::new(self.alloc);
        put_refusal(&mut text, refusal)?;
        tell_refusal(out, self.alloc, id, number, refusal)?;
        keep_answer(&mut self.sessions, id, number, text)
    }

    /// Gives a command of a session to the bank, tells the answer, and each session whose job has a wish granted.
    fn carry_out(
        &mut self,
        out: &mut Vec<Told>,
        id: u64,
        number: u64,
        line: &[u8],
    ) -> Result<(), NoMemory>
        ensures { OnOk result ((all : List Told) × spec.CarriesOut None self.old id number line.now all self.new
            × (out.new.items ≡ out.old.items ++ all)) }
    {
        let said = ask(&mut self.desk, self.alloc, line)?;
        let text = text_of(&self.desk, self.alloc, line, &said)?;
        let owners = owners_after(self.alloc, &self.desk.names().processes, &self.owners, id)?;
        tell_answer(out, self.alloc, id, number, &text)?;
        notify_all(
            &mut self.sessions,
            self.alloc,
            out,
            &owners,
            self.desk.names(),
            of_wishes(line, &said),
        )?;
        keep_answer(&mut self.sessions, id, number, text)?;
        self.owners = owners;
        Ok(())
    }

    /// Carries out a command of a session, unless its request was carried out already: then it is answered again, and changes
    /// nothing. The number of a request is above 0; an answer to the number 0 is not kept. A job of another session is refused.
    ///
    /// If out of memory, a part may have been done.
    pub fn command(
        &mut self,
        out: &mut Vec<Told>,
        id: u64,
        number: u64,
        by_operator: bool,
        line: &[u8],
    ) -> Result<(), NoMemory>
        ensures { OnOk result ((all : List Told)
            × spec.Applies self.old (spec.Command id number by_operator line.now) all self.new
            × (out.new.items ≡ out.old.items ++ all)) }
    {
        match self.is_done(id, number) {
            None => tell_refusal(out, self.alloc, id, number, Refusal::NoSession),
            Some(true) => {
                let text = self.kept_answer(id, number)?;
                tell_answer(out, self.alloc, id, number, &text)
            }
            Some(false) => match self.refusal_of(id, by_operator, line) {
                Some(refusal) => self.refuse(out, id, number, refusal),
                None => self.carry_out(out, id, number, line),
            },
        }
    }
}

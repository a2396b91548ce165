//! One of several sessions.

ghost use Rattle.std.specs.Prelude.{◌≡◌, ◌<◌, ◌++◌, length, OnOk, IfSome};
ghost use Rattle.pb_desk.specs.Applies as applies;
ghost use Rattle.pb_desk.specs.Services.{notice_to};
ghost use Rattle.pb_desk.specs.Sessions as spec;
ghost use Rattle.pb_desk.specs.Sessions.{SessionValue};

use crate::answers::copy_of;
use crate::session::Session;
use crate::told::{Message, Told};
use pb_base::NoMemory;
use std::alloc::Global;

/// Returns the place of the session with a number.
pub(crate) fn place_of(sessions: &[Session], id: u64) -> Option<usize>
    ensures place { result ≡ spec.session_place 0 sessions.now id }
    ensures within { IfSome result (λ p. p < length sessions.now) }
{
    for i in 0..sessions.len() {
        let is = sessions[i].is_of(id);
        if is {
            return Some(i);
        }
    }
    None
}

/// Sends a notice to a session, if it is there.
pub(crate) fn note_to(
    sessions: &mut Vec<Session>,
    alloc: Global,
    out: &mut Vec<Told>,
    id: u64,
    text: Vec<u8>,
) -> Result<(), NoMemory>
    ensures sessions { OnOk result (sessions.new.items ≡ spec.changed (λ s. spec.noted s text.items) sessions.old.items id) }
    ensures told { OnOk result (out.new.items ≡ out.old.items ++ notice_to (spec.session_of sessions.old.items id) text.items) }
{
    let Some(p) = place_of(sessions, id) else {
        return Ok(());
    };
    let copy = copy_of(alloc, &text)?;
    let number = sessions[p].note(copy)?;
    out.push(Told::Notice(Message {
        session: id,
        number,
        text,
    }))?;
    Ok(())
}

/// Keeps the answer to a request of a session, if it is there.
pub(crate) fn keep_answer(
    sessions: &mut Vec<Session>,
    id: u64,
    number: u64,
    text: Vec<u8>,
) -> Result<(), NoMemory>
    ensures { OnOk result (sessions.new.items ≡ spec.changed (λ s. spec.answered s number text.items) sessions.old.items id) }
{
    let Some(p) = place_of(sessions, id) else {
        return Ok(());
    };
    sessions[p].answer(number, text)
}

/// Returns whether a request of a session was carried out, if the session is there.
pub(crate) fn done_of(sessions: &[Session], id: u64, number: u64) -> Option<bool>
    ensures { result ≡ applies.done_of (spec.session_of sessions.now id) number }
{
    let Some(p) = place_of(sessions, id) else {
        return None;
    };
    Some(sessions[p].has_done(number))
}

/// Appends the answer to a request of a session that was carried out to `out`, if the session is there.
pub(crate) fn put_answer_of(
    sessions: &[Session],
    out: &mut Vec<u8>,
    id: u64,
    number: u64,
) -> Result<(), NoMemory>
    ensures { OnOk result ((s : SessionValue) → spec.session_of sessions.now id ≡ Some s
        → out.new.items ≡ out.old.items ++ applies.text_again (spec.text_of s.answers number)) }
{
    let Some(p) = place_of(sessions, id) else {
        return Ok(());
    };
    sessions[p].put_answer(out, number)
}

/// Removes a session.
pub(crate) fn remove(sessions: &mut Vec<Session>, id: u64)
    ensures { sessions.new.items ≡ spec.sessions_but sessions.old.items id }
{
    sessions.retain(|session| !session.is_of(id));
}

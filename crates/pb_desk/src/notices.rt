//! Notices of wishes that are granted.

ghost use Rattle.std.specs.Prelude.{◌≡◌, ◌++◌, OnOk};
ghost use Rattle.pb_base.specs.Lines.{names_view};
ghost use Rattle.pb_desk.specs.Services as spec;

use crate::owners::owner_at;
use crate::session::Session;
use crate::sessions::note_to;
use crate::told::Told;
use pb_bank::{Said, put_line_of};
use pb_base::{Names, NoMemory};
use std::alloc::Global;

/// Sends a notice to the session whose job has a wish granted, if this was said.
fn notify(
    sessions: &mut Vec<Session>,
    alloc: Global,
    out: &mut Vec<Told>,
    owners: &[u64],
    names: &Names,
    said: &Said,
) -> Result<(), NoMemory>
    ensures after { OnOk result (sessions.new.items
        ≡ spec.after_one owners.now (names_view names.now) sessions.old.items said.now) }
    ensures told { OnOk result (out.new.items
        ≡ out.old.items ++ spec.notices_of owners.now (names_view names.now) sessions.old.items said.now) }
{
    match said {
        Said::Granted(request) => {
            let id = owner_at(owners, request.job);
            let mut text = Vec::new(alloc);
            put_line_of(&mut text, names, b"", said)?;
            note_to(sessions, alloc, out, id, text)
        }
        _ => Ok(()),
    }
}

/// Sends a notice of each wish that is granted.
pub(crate) fn notify_all(
    sessions: &mut Vec<Session>,
    alloc: Global,
    out: &mut Vec<Told>,
    owners: &[u64],
    names: &Names,
    all: &[Said],
) -> Result<(), NoMemory>
    ensures after { OnOk result (sessions.new.items
        ≡ spec.after_each owners.now (names_view names.now) sessions.old.items all.now) }
    ensures told { OnOk result (out.new.items
        ≡ out.old.items ++ spec.notices_of_all owners.now (names_view names.now) sessions.old.items all.now) }
{
    for said in all {
        notify(sessions, alloc, out, owners, names, said)?;
    }
    Ok(())
}

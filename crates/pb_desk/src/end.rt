//! The end of a session.

ghost use Rattle.std.specs.Prelude.{◌≡◌, ◌==◌, ◌++◌, List, codes, length, map, IfOk, OnOk};
ghost use Rattle.pb_base.specs.Lines.{name_of};
ghost use Rattle.pb_desk.specs.Applies as spec;
ghost use Rattle.pb_desk.specs.Services.{owner_at};
ghost use Rattle.pb_desk.specs.Sessions.{sessions_but};
ghost use Rattle.pb_desk.specs.declared.told.Told.{Told};

use crate::answers::ask;
use crate::commands::{tell_answer, tell_refusal};
use crate::notices::notify_all;
use crate::owners::{owner_at, owners_after};
use crate::refusal::Refusal;
use crate::service::Service;
use crate::sessions::remove;
use crate::told::Told;
use pb_base::NoMemory;
use pb_base::writing::put;
use std::alloc::Global;

/// Returns the command by which the job of a slot leaves.
fn leave_line(alloc: Global, names: &[Vec<u8>], p: usize) -> Result<Vec<u8>, NoMemory>
    ensures { IfOk result (λ line. line.items ≡ codes "leave " ++ name_of (map (λ name. name.items) names.now) p) }
{
    let mut line = Vec::new(alloc);
    put(&mut line, b"leave ")?;
    if p < names.len() {
        put(&mut line, names[p].as_slice())?;
    }
    Ok(line)
}

impl Service {
    /// Lets the job of a slot leave, and tells each session whose job has a wish granted.
    fn leave_slot(&mut self, out: &mut Vec<Told>, p: usize) -> Result<(), NoMemory>
        ensures { OnOk result ((all : List Told) × spec.LeavesSlot self.old p all self.new
            × (out.new.items ≡ out.old.items ++ all)) }
    {
        let line = leave_line(self.alloc, &self.desk.names().processes, p)?;
        let said = ask(&mut self.desk, self.alloc, &line)?;
        let owners = owners_after(self.alloc, &self.desk.names().processes, &self.owners, 0)?;
        notify_all(
            &mut self.sessions,
            self.alloc,
            out,
            &owners,
            self.desk.names(),
            &said,
        )?;
        self.owners = owners;
        Ok(())
    }

    /// Returns whether the job of a slot is one of the session's.
    fn is_owner(&self, p: usize, id: u64) -> bool
        ensures { result ≡ (owner_at self.now p == id) }
    {
        owner_at(&self.owners, p) == id
    }

    /// Lets the job of a slot leave, if it is one of the session's.
    fn leave_if(&mut self, out: &mut Vec<Told>, id: u64, p: usize) -> Result<(), NoMemory>
        ensures { OnOk result ((all : List Told) × spec.LeavesIf (owner_at self.old p == id) self.old p all self.new
            × (out.new.items ≡ out.old.items ++ all)) }
    {
        let is = self.is_owner(p, id);
        if is {
            return self.leave_slot(out, p);
        }
        Ok(())
    }

    /// Lets the jobs of a session leave, which have some of the first slots.
    fn leave_all(&mut self, out: &mut Vec<Told>, id: u64, count: usize) -> Result<(), NoMemory>
        ensures { OnOk result ((all : List Told) × spec.Leaves id self.old count all self.new
            × (out.new.items ≡ out.old.items ++ all)) }
    {
        for p in 0..count {
            self.leave_if(out, id, p)?;
        }
        Ok(())
    }

    /// Removes a session and returns the number of slots that it may have jobs in.
    fn forget(&mut self, id: u64) -> usize
        ensures after { self.new ≡ record self.old { sessions = sessions_but self.old.sessions id } }
        ensures slots { result ≡ length self.old.owners }
    {
        remove(&mut self.sessions, id);
        self.owners.len()
    }

    /// Ends a session, if it is there: its jobs leave, in the order of their slots, and each other session whose job has a wish
    /// granted is told so.
    pub fn end(&mut self, out: &mut Vec<Told>, id: u64) -> Result<(), NoMemory>
        ensures { OnOk result ((all : List Told) × spec.Applies self.old (spec.End id) all self.new
            × (out.new.items ≡ out.old.items ++ all)) }
    {
        if self.is_done(id, 0).is_none() {
            return tell_refusal(out, self.alloc, id, 0, Refusal::NoSession);
        }
        tell_answer(out, self.alloc, id, 0, b"ready\n")?;
        let count = self.forget(id);
        self.leave_all(out, id, count)
    }
}

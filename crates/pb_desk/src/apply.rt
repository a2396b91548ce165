//! A line of a journal, applied.

ghost use Rattle.std.specs.Prelude.{◌≡◌, ◌++◌, List, OnOk};
ghost use Rattle.pb_desk.specs.Applies as spec;
ghost use Rattle.pb_desk.specs.Entries.{entry_view};
ghost use Rattle.pb_desk.specs.declared.told.Told.{Told};

use crate::answers::copy_of;
use crate::entry::{Entry, entry_in};
use crate::service::Service;
use crate::told::Told;
use pb_base::NoMemory;

impl Service {
    /// Applies an entry of a journal.
    fn apply_entry(&mut self, out: &mut Vec<Told>, entry: Entry<'_>) -> Result<(), NoMemory>
        ensures { OnOk result ((all : List Told) × spec.Applies self.old (entry_view entry.entry) all self.new
            × (out.new.items ≡ out.old.items ++ all)) }
    {
        match entry {
            Entry::Begin(id, key, lease) => {
                let key = copy_of(self.alloc, key)?;
                self.begin(out, id, key, lease)
            }
            Entry::End(id) => self.end(out, id),
            Entry::Command(id, number, by_operator, line) => {
                self.command(out, id, number, by_operator, line)
            }
            Entry::Declare(line) => self.declare(out, line),
        }
    }

    /// Applies a line of a journal, which is given without its line feed, and tells what comes of it. A line that spells no entry
    /// does nothing.
    ///
    /// If out of memory, a part may have been done.
    pub fn apply(&mut self, out: &mut Vec<Told>, line: &[u8]) -> Result<(), NoMemory>
        ensures { OnOk result ((all : List Told) × spec.AppliesLine self.old line.now all self.new
            × (out.new.items ≡ out.old.items ++ all)) }
    {
        match entry_in(line) {
            Some(entry) => self.apply_entry(out, entry),
            None => Ok(()),
        }
    }
}

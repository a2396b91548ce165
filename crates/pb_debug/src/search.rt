//! Searches along the picks.

ghost use Rattle.std.specs.Prelude.{◌<◌, ◌≤◌, length, IfOk};
ghost use Rattle.pb_debug_positions.specs.Searches.{Does, IsFirst, IsLast, Shows};

use crate::debugger::Debugger;
use pb_base::{Event, NoMemory, Step};
use pb_debug_positions::{Watch, first_in, last_in};

impl<'c> Debugger<'c> {
    /// Returns the number of the first pick from the position on that does what is looked for.
    pub(crate) fn find_next(&self, watch: Watch) -> Result<Option<u32>, NoMemory>
        ensures { IfOk result (IsFirst (Does self.now.verified.code self.now.labels self.now.picks watch) self.now.position
            (length self.now.picks)) }
    {
        let mut walker = self.walker_here()?;
        Ok(first_in(&mut walker, self.verified, self.labels, &self.trace, watch))
    }

    /// Returns the number of the last pick from one position on and before another that does what is looked
    /// for.
    fn last_between(&self, start: u32, end: u32, watch: Watch) -> Result<Option<u32>, NoMemory>
        requires before { start ≤ end }
        requires within { end ≤ length self.now.picks }
        ensures { IfOk result (IsLast (Does self.now.verified.code self.now.labels self.now.picks watch) start end) }
    {
        let mut walker = self.walker_at(start)?;
        Ok(last_in(
            &mut walker,
            self.verified,
            self.labels,
            &self.trace,
            end,
            watch,
        ))
    }

    /// Returns the number of the last pick before a position that does what is looked for.
    pub(crate) fn find_last(&self, past: u32, watch: Watch) -> Result<Option<u32>, NoMemory>
        requires { past ≤ length self.now.picks }
        ensures { IfOk result (IsLast (Does self.now.verified.code self.now.labels self.now.picks watch) 0 past) }
    {
        let mut end = past;
        while 0 < end {
            let start = (end - 1) / self.interval * self.interval;
            let last = self.last_between(start, end, watch)?;
            if last.is_some() {
                return Ok(last);
            }
            end = start;
        }
        Ok(None)
    }

    /// Returns the event of a pick that shows one.
    pub(crate) fn event_of(&self, k: u32) -> Result<Event, NoMemory>
        requires within { k < length self.now.picks }
        requires shows { Does self.now.verified.code self.now.labels self.now.picks Watch.Event k }
        ensures { IfOk result (Shows self.now.verified.code self.now.picks k) }
    {
        let mut walker = self.walker_at(k)?;
        match walker.advance(self.verified, &self.trace) {
            Step::Did(event) => Ok(event),
            Step::Silent | Step::NotEnabled => unreachable!(),
        }
    }
}

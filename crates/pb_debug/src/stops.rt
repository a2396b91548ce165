//! Where a person stops along the picks, and what is shown there.

ghost use Rattle.std.specs.Prelude.{◌≡◌, ◌<◌, ◌≤◌, ◌-◌, length, slice_get, IfNone, IfOk, IfSome, Some};
ghost use Rattle.pb_code.specs.View.{labels_view};
ghost use Rattle.pb_debug.specs.Value.{IsPosition, state_of};
ghost use Rattle.pb_debug_positions.specs.Searches.{IsFirst, IsLast};
ghost use Rattle.pb_debug_stops.specs.Stops.{Arrives, Moves};

use crate::debugger::Debugger;
use pb_base::{NoMemory, Pick};
use pb_code::Labels;
use pb_debug_stops::{first_arrival, first_move, last_arrival, last_move};
use pb_verifier::Verified;

impl<'c> Debugger<'c> {
    /// Returns the code.
    pub fn verified(&self) -> &Verified
        ensures code { result.now ≡ self.now.verified }
        ensures placed { IsPosition self.now }
    {
        self.verified
    }

    /// Returns the source line of each place of the code, and the names of the integers.
    pub fn labels(&self) -> &Labels
        ensures labels { labels_view result.now ≡ self.now.labels }
        ensures placed { IsPosition self.now }
    {
        self.labels
    }

    /// Returns how many processes there are, at most 64.
    pub fn processes(&self) -> usize
        ensures processes { result ≡ length (state_of self.now).processes }
        ensures few { length (state_of self.now).processes ≤ 64 }
        ensures placed { IsPosition self.now }
    {
        // Called for its contract alone, which the proof needs.
        let _ = self.position();
        self.walker.machine.processes()
    }

    /// Returns the pick just before the position; none at position 0.
    pub fn last_pick(&self) -> Option<Pick>
        ensures some { IfSome result (λ pick. slice_get self.now.picks (self.now.position - 1) ≡ Some pick) }
        ensures later { IfSome result (λ _. 0 < self.now.position) }
        ensures none { IfNone result (self.now.position ≡ 0) }
    {
        let position = self.position();
        if position == 0 {
            return None;
        }
        Some(self.trace.pick(position - 1))
    }

    /// Returns the number of the first pick from the position on that brings an arm of its process to one of
    /// these lines.
    pub fn next_stop(&self, lines: &[u32]) -> Result<Option<u32>, NoMemory>
        ensures { IfOk result (IsFirst (Arrives self.now.verified.code self.now.labels self.now.picks lines.now)
            self.now.position (length self.now.picks)) }
    {
        let mut walker = self.walker_here()?;
        let mut behind = self.walker_here()?;
        Ok(first_arrival(
            &mut walker,
            &mut behind,
            self.verified,
            self.labels,
            &self.trace,
            lines,
        ))
    }

    /// Returns the number of the last pick from one position on and before another that brings an arm to one of
    /// these lines.
    fn last_stop_between(
        &self,
        start: u32,
        end: u32,
        lines: &[u32],
    ) -> Result<Option<u32>, NoMemory>
        requires before { start ≤ end }
        requires within { end ≤ length self.now.picks }
        ensures { IfOk result (IsLast (Arrives self.now.verified.code self.now.labels self.now.picks lines.now) start end) }
    {
        let mut walker = self.walker_at(start)?;
        let mut behind = self.walker_at(start)?;
        Ok(last_arrival(
            &mut walker,
            &mut behind,
            self.verified,
            self.labels,
            &self.trace,
            end,
            lines,
        ))
    }

    /// Returns the number of the last pick before a position that brings an arm of its process to one of these
    /// lines.
    pub fn last_stop(&self, past: u32, lines: &[u32]) -> Result<Option<u32>, NoMemory>
        requires { past ≤ length self.now.picks }
        ensures { IfOk result (IsLast (Arrives self.now.verified.code self.now.labels self.now.picks lines.now) 0 past) }
    {
        let mut end = past;
        while 0 < end {
            let start = (end - 1) / self.interval * self.interval;
            let last = self.last_stop_between(start, end, lines)?;
            if last.is_some() {
                return Ok(last);
            }
            end = start;
        }
        Ok(None)
    }

    /// Returns the number of the first pick from the position on that moves an arm of a process to another
    /// line.
    pub fn next_move(&self, p: usize, arm: usize) -> Result<Option<u32>, NoMemory>
        ensures { IfOk result (IsFirst (Moves self.now.verified.code self.now.labels self.now.picks p arm)
            self.now.position (length self.now.picks)) }
    {
        let mut walker = self.walker_here()?;
        Ok(first_move(&mut walker, self.verified, self.labels, &self.trace, p, arm))
    }

    /// Returns the number of the last pick from one position on and before another that moves an arm to another
    /// line.
    fn last_move_between(
        &self,
        start: u32,
        end: u32,
        p: usize,
        arm: usize,
    ) -> Result<Option<u32>, NoMemory>
        requires before { start ≤ end }
        requires within { end ≤ length self.now.picks }
        ensures { IfOk result (IsLast (Moves self.now.verified.code self.now.labels self.now.picks p arm) start end) }
    {
        let mut walker = self.walker_at(start)?;
        Ok(last_move(
            &mut walker,
            self.verified,
            self.labels,
            &self.trace,
            end,
            p,
            arm,
        ))
    }

    /// Returns the number of the last pick before a position that moves an arm of a process to another line.
    pub fn last_move(&self, past: u32, p: usize, arm: usize) -> Result<Option<u32>, NoMemory>
        requires { past ≤ length self.now.picks }
        ensures { IfOk result (IsLast (Moves self.now.verified.code self.now.labels self.now.picks p arm) 0 past) }
    {
        let mut end = past;
        while 0 < end {
            let start = (end - 1) / self.interval * self.interval;
            let last = self.last_move_between(start, end, p, arm)?;
            if last.is_some() {
                return Ok(last);
            }
            end = start;
        }
        Ok(None)
    }
}

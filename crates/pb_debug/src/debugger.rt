//! Positions in the replay of a list of picks.

ghost use Rattle.std.specs.Prelude.{◌≡◌, ◌<◌, ◌≤◌, ◌+◌, ◌-◌, length, IfOk, IfErr, OnOk, OnErr, option_map};
ghost use Rattle.pb_code.specs.Limits.{AreLabels};
ghost use Rattle.pb_code.specs.View.{labels_view};
ghost use Rattle.pb_history.specs.Entries.{picks_of};
ghost use Rattle.pb_history.specs.Replays.{IsStopped, IsStoppedBy, spread};
ghost use Rattle.pb_debug_positions.specs.Intervals.{interval_of};
ghost use Rattle.pb_debug_positions.specs.Walks.{ReplaysBy, WalksBy};

use crate::fault::DebugFault;
use pb_base::limits::MAX_PICKS;
use pb_base::{Lending, NoMemory, Pick};
use pb_code::Labels;
use pb_codegen::Compiled;
use pb_debug_positions::{Replaying, Walker, replay_counted_picks, replay_picks};
use pb_history::{CountedPick, ReplayFault, Trace};
use pb_machine::Machine;
use pb_verifier::Verified;
use std::alloc::Global;
use std::marker::Model;

/// The replay of a list of picks of some code under a lending, seen at a position: from 0, before the first
/// pick, up to the number of picks. Copies of the machine are kept at the multiples of a distance, and a move
/// goes on from the last of them that is not past its end. Picks may be appended; the distance stays what it
/// was for the picks at first.
#[derive(Drop)]
pub struct Debugger<'c> {
    pub(crate) alloc: Global,
    pub(crate) lending: Lending,
    pub(crate) verified: &'c Verified,
    pub(crate) labels: &'c Labels,
    pub(crate) trace: Trace,
    pub(crate) source: Option<&'c [u8]>,
    pub(crate) interval: u32,
    pub(crate) checkpoints: Vec<Machine>,
    pub(crate) walker: Walker,
    pub(crate) last_cost: u32,
}

impl<'c> Model for Debugger<'c> {
    ghost use Rattle.pb_debug.specs.Value.{Debugging};

    ghost Value = { Debugging };

    ghost use Rattle.pb_debug.specs.Checkpoints.{view_of, IsSound};

    ghost view = { view_of };

    ghost invariant = { IsSound };
}

impl<'c> Debugger<'c> {
    ghost use Rattle.pb_debug.specs.Refusals.{IsMoveFault};
    ghost use Rattle.pb_debug.specs.Value.{IsPosition, at_start, moved_to, showing};

    /// Returns the debugger of a compiled text and these picks under the banker, at position 0. It refuses as
    /// `replay` does: the first pick that is not enabled, or out of memory. Under another lending the debugger of
    /// a compiled text is that of its code and its labels, by `from_object`.
    pub fn new(
        alloc: Global,
        compiled: &'c Compiled,
        picks: &[Pick],
    ) -> Result<Debugger<'c>, ReplayFault>
        requires few { length picks.now ≤ MAX_PICKS }
        ensures opened { IfOk result (λ d.
            d ≡ at_start Lending.ByBanker compiled.entry.now.verified compiled.entry.now.labels picks.now) }
        ensures placed { IfOk result IsPosition }
        ensures stopped { IfErr result (λ fault. IsStopped compiled.entry.now.verified.code picks.now fault) }
    {
        Debugger::from_object(
            alloc,
            compiled.verified(),
            compiled.labels(),
            Lending::ByBanker,
            picks,
        )
    }

    /// Returns the same as `new` of all the picks one by one, which are never spread out in memory.
    pub fn new_counted(
        alloc: Global,
        compiled: &'c Compiled,
        picks: &[CountedPick],
    ) -> Result<Debugger<'c>, ReplayFault>
        requires few { length (spread picks.now) ≤ MAX_PICKS }
        ensures opened { IfOk result (λ d.
            d ≡ at_start Lending.ByBanker compiled.entry.now.verified compiled.entry.now.labels (spread picks.now)) }
        ensures placed { IfOk result IsPosition }
        ensures stopped { IfErr result (λ fault. IsStopped compiled.entry.now.verified.code (spread picks.now) fault) }
    {
        Debugger::from_object_counted(
            alloc,
            compiled.verified(),
            compiled.labels(),
            Lending::ByBanker,
            picks,
        )
    }

    /// Returns the debugger of code from anywhere, with labels that fit it, and these picks under a lending, at
    /// position 0. It refuses as `replay_by` does: the first pick that is not enabled, or out of memory.
    pub fn from_object(
        alloc: Global,
        verified: &'c Verified,
        labels: &'c Labels,
        lending: Lending,
        picks: &[Pick],
    ) -> Result<Debugger<'c>, ReplayFault>
        requires fit { AreLabels verified.now.code (labels_view labels.now) }
        requires few { length picks.now ≤ MAX_PICKS }
        ensures opened { IfOk result (λ d.
            d ≡ at_start lending verified.entry.now (labels_view labels.entry.now) picks.now) }
        ensures placed { IfOk result IsPosition }
        ensures stopped { IfErr result (λ fault. IsStoppedBy lending verified.entry.now.code picks.now fault) }
    {
        let replaying = replay_picks(alloc, verified, lending, picks)?;
        Ok(Debugger::of_replaying(alloc, verified, labels, lending, replaying)?)
    }

    /// Returns the same as `from_object` of all the picks one by one, which are never spread out in memory.
    pub fn from_object_counted(
        alloc: Global,
        verified: &'c Verified,
        labels: &'c Labels,
        lending: Lending,
        picks: &[CountedPick],
    ) -> Result<Debugger<'c>, ReplayFault>
        requires fit { AreLabels verified.now.code (labels_view labels.now) }
        requires few { length (spread picks.now) ≤ MAX_PICKS }
        ensures opened { IfOk result (λ d.
            d ≡ at_start lending verified.entry.now (labels_view labels.entry.now) (spread picks.now)) }
        ensures placed { IfOk result IsPosition }
        ensures stopped { IfErr result (λ fault. IsStoppedBy lending verified.entry.now.code (spread picks.now) fault) }
    {
        let replaying = replay_counted_picks(alloc, verified, lending, picks)?;
        Ok(Debugger::of_replaying(alloc, verified, labels, lending, replaying)?)
    }

    /// Returns the debugger of a replay that has made all its picks, at position 0.
    fn of_replaying(
        alloc: Global,
        verified: &'c Verified,
        labels: &'c Labels,
        lending: Lending,
        replaying: Replaying,
    ) -> Result<Debugger<'c>, NoMemory>
        requires fit { AreLabels verified.now.code (labels_view labels.now) }
        requires few { length (picks_of replaying.trace.entries) ≤ MAX_PICKS }
        requires replays { ReplaysBy lending verified.now replaying }
        requires interval { replaying.interval ≡ interval_of (length (picks_of replaying.trace.entries)) }
        ensures opened { IfOk result (λ d.
            d ≡ at_start lending verified.entry.now (labels_view labels.entry.now) (picks_of replaying.trace.entries)) }
        ensures placed { IfOk result IsPosition }
    {
        // Called for its contract alone, which the proof needs.
        let _ = verified.code();
        let machine = Machine::new_by(alloc, verified, lending)?;
        let Replaying {
            trace,
            interval,
            checkpoints,
            ..
        } = replaying;
        Ok(Debugger {
            alloc,
            lending,
            verified,
            labels,
            trace,
            source: None,
            interval,
            checkpoints,
            walker: Walker { machine, at: 0 },
            last_cost: 0,
        })
    }

    /// Returns the debugger with a text whose lines a session shows, or with none, as at first.
    pub fn with_source(self, source: Option<&'c [u8]>) -> Debugger<'c>
        ensures shown { result ≡ showing (option_map (λ text. text.now) source.entry) self.entry }
        ensures placed { IsPosition result }
    {
        let mut debugger = self;
        debugger.source = source;
        debugger
    }

    /// Returns how the lender decides.
    pub fn lending(&self) -> Lending
        ensures lending { result ≡ self.now.lending }
        ensures placed { IsPosition self.now }
    {
        self.lending
    }

    /// Returns how many picks there are: the last position, at most 10,000,000.
    pub fn len(&self) -> u32
        ensures len { result ≡ length self.now.picks }
        ensures placed { IsPosition self.now }
    {
        self.trace.len()
    }

    /// Returns the position.
    pub fn position(&self) -> u32
        ensures position { result ≡ self.now.position }
        ensures placed { IsPosition self.now }
    {
        self.walker.at
    }

    /// Returns the position that the last move led to, less that of the last checkpoint up to it; 0 before
    /// any move. A refused move changes nothing.
    pub fn last_cost(&self) -> u32
        ensures cost { result ≡ self.now.last_cost }
        ensures placed { IsPosition self.now }
    {
        self.last_cost
    }

    /// Returns one more machine at the position.
    pub(crate) fn walker_here(&self) -> Result<Walker, NoMemory>
        ensures walks { IfOk result (WalksBy self.now.lending self.now.verified self.now.picks) }
        ensures at { IfOk result (λ w. w.at ≡ self.now.position) }
    {
        let machine = self.walker.machine.copy(self.alloc)?;
        Ok(Walker {
            machine,
            at: self.walker.at,
        })
    }

    /// Returns a machine at a position, from the last checkpoint that is not past it.
    pub(crate) fn walker_at(&self, position: u32) -> Result<Walker, NoMemory>
        requires { position ≤ length self.now.picks }
        ensures walks { IfOk result (WalksBy self.now.lending self.now.verified self.now.picks) }
        ensures at { IfOk result (λ w. w.at ≡ position) }
    {
        let nearest = position / self.interval;
        let machine = self.checkpoints[nearest as usize].copy(self.alloc)?;
        let mut walker = Walker {
            machine,
            at: nearest * self.interval,
        };
        walker.walk_to(self.verified, &self.trace, position);
        Ok(walker)
    }

    /// Goes to a position. `PastEnd` if it is past the last; after an error nothing has changed.
    pub fn to(&mut self, position: u32) -> Result<(), DebugFault>
        ensures moved { OnOk result (self.new ≡ moved_to self.old position) }
        ensures within { OnOk result (position ≤ length self.old.picks) }
        ensures refused { IfErr result (IsMoveFault (length self.old.picks < position)) }
        ensures unchanged { OnErr result (self.new ≡ self.old) }
        ensures placed { IsPosition self.new }
    {
        if self.trace.len() < position {
            return Err(DebugFault::PastEnd);
        }
        self.walker = self.walker_at(position)?;
        self.last_cost = position % self.interval;
        Ok(())
    }

    /// Goes on by a number of picks. `PastEnd` if that is past the last; after an error nothing has changed.
    pub fn step(&mut self, count: u32) -> Result<(), DebugFault>
        ensures moved { OnOk result (self.new ≡ moved_to self.old (self.old.position + count)) }
        ensures within { OnOk result (self.old.position + count ≤ length self.old.picks) }
        ensures refused { IfErr result (IsMoveFault (length self.old.picks < self.old.position + count)) }
        ensures unchanged { OnErr result (self.new ≡ self.old) }
        ensures placed { IsPosition self.new }
    {
        let left = self.len() - self.position();
        if left < count {
            return Err(DebugFault::PastEnd);
        }
        self.to(self.position() + count)
    }

    /// Goes back by a number of picks. `PastEnd` if that is before the first; after an error nothing has
    /// changed.
    pub fn back(&mut self, count: u32) -> Result<(), DebugFault>
        ensures moved { OnOk result (self.new ≡ moved_to self.old (self.old.position - count)) }
        ensures within { OnOk result (count ≤ self.old.position) }
        ensures refused { IfErr result (IsMoveFault (self.old.position < count)) }
        ensures unchanged { OnErr result (self.new ≡ self.old) }
        ensures placed { IsPosition self.new }
    {
        let position = self.position();
        if position < count {
            return Err(DebugFault::PastEnd);
        }
        self.to(position - count)
    }
}

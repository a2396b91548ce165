//! A replay that keeps copies of its machine on the way.

ghost use Rattle.std.specs.Prelude.{◌≡◌, ◌+◌, ◌*◌, ◌<◌, ◌≤◌, ◌++◌, [], List, length, replicate, IfErr, IfOk, OnErr, OnOk};
ghost use Rattle.pb_base.specs.declared.lending.Lending.{Lending as LendingValue};
ghost use Rattle.pb_base.specs.declared.pick.Pick.{Pick as AnyPick};
ghost use Rattle.pb_debug_positions.specs.Intervals.{interval_of};
ghost use Rattle.pb_debug_positions.specs.Walks.{AreCheckpoints, IsCheckpoint, Replays, ReplaysBy};
ghost use Rattle.pb_history.specs.Entries.{picks_of};
ghost use Rattle.pb_history.specs.Replays.{IsStoppedBy, spread};
ghost use Rattle.pb_verifier.specs.Verified.{VerifiedCode};

use pb_base::limits::MAX_PICKS;
use pb_base::{Lending, NoMemory, Pick};
use pb_history::replay::repeat;
use pb_history::{CountedPick, ReplayFault, Trace};
use pb_machine::Machine;
use pb_verifier::Verified;
use std::alloc::Global;

/// The least distance of checkpoints, and how many there are at most but one.
const MIN_INTERVAL: u32 = 4_096;

const CHECKPOINTS: u32 = 64;

/// Returns the distance of checkpoints for this number of picks.
fn interval_for(picks: u32) -> u32
    requires { picks ≤ MAX_PICKS }
    ensures interval { result ≡ interval_of picks }
    ensures some { 0 < result }
    ensures small { result ≤ MAX_PICKS }
{
    MIN_INTERVAL.max((picks + CHECKPOINTS - 1) / CHECKPOINTS)
}

/// Keeps a copy of a machine, if it is at the next multiple of the distance of checkpoints.
pub fn keep(
    alloc: Global,
    checkpoints: &mut Vec<Machine>,
    interval: u32,
    machine: &Machine,
    at: u32,
) -> Result<(), NoMemory>
    requires some { 0 < interval }
    requires small { interval ≤ MAX_PICKS }
    requires few { at ≤ MAX_PICKS }
    requires before { at ≤ length checkpoints.old.items * interval }
    requires after { length checkpoints.old.items * interval ≤ at + interval }
    ensures checkpoints { OnOk result ((lending : LendingValue) (v : VerifiedCode) (picks : List AnyPick)
        → AreCheckpoints lending v picks interval checkpoints.old.items → IsCheckpoint lending v picks at machine.now
        → AreCheckpoints lending v picks interval checkpoints.new.items) }
    ensures enough { OnOk result (at < length checkpoints.new.items * interval) }
    ensures fewest { OnOk result (length checkpoints.new.items * interval ≤ at + interval) }
    ensures unchanged { OnErr result (checkpoints.new.items ≡ checkpoints.old.items) }
{
    let next = checkpoints.len() * interval as usize;
    if (at as usize) < next {
        return Ok(());
    }
    let copy = machine.copy(alloc)?;
    checkpoints.push(copy)?;
    Ok(())
}

/// A replay that goes on: the machine after the picks made so far, their trace, and copies of the machine at
/// the multiples of a distance.
#[derive(Drop)]
pub struct Replaying {
    pub machine: Machine,
    pub trace: Trace,
    pub interval: u32,
    pub checkpoints: Vec<Machine>,
}

impl Replaying {
    /// Returns a replay of no picks under a lending, with the checkpoint before the first.
    pub fn new(
        alloc: Global,
        verified: &Verified,
        lending: Lending,
        interval: u32,
    ) -> Result<Replaying, NoMemory>
        requires some { 0 < interval }
        requires small { interval ≤ MAX_PICKS }
        ensures replays { IfOk result (ReplaysBy lending verified.now) }
        ensures none { IfOk result (λ r. r.trace.entries ≡ []) }
        ensures interval { IfOk result (λ r. r.interval ≡ interval) }
    {
        let machine = Machine::new_by(alloc, verified, lending)?;
        let mut checkpoints = Vec::new(alloc);
        keep(alloc, &mut checkpoints, interval, &machine, 0)?;
        Ok(Replaying {
            machine,
            trace: Trace::new(alloc),
            interval,
            checkpoints,
        })
    }

    /// Returns how many of `most` picks there are up to the next multiple of the distance.
    fn up_to_next(&self, most: u32) -> u32
        requires few { length self.now.trace.entries ≤ MAX_PICKS }
        requires small { self.now.interval ≤ MAX_PICKS }
        requires before { length self.now.trace.entries < length self.now.checkpoints.items * self.now.interval }
        requires after { length self.now.checkpoints.items * self.now.interval
            ≤ length self.now.trace.entries + self.now.interval }
        ensures most { result ≤ most }
        ensures some { 0 < most → 0 < result }
        ensures next { length self.now.trace.entries + result
            ≤ length self.now.checkpoints.items * self.now.interval }
    {
        let next = self.checkpoints.len() * self.interval as usize;
        let left = next - self.trace.len() as usize;
        most.min(left as u32)
    }

    /// Makes a pick as often as its count says, as `repeat` does, and keeps the checkpoints on the way.
    pub fn make(
        &mut self,
        alloc: Global,
        verified: &Verified,
        counted: CountedPick,
    ) -> Result<(), ReplayFault>
        requires replays { Replays verified.now self.old }
        requires fits { length self.old.trace.entries + counted.count ≤ MAX_PICKS }
        requires some { 0 < self.old.interval }
        requires small { self.old.interval ≤ MAX_PICKS }
        ensures replays { OnOk result ((lending : LendingValue) → ReplaysBy lending verified.now self.old
            → ReplaysBy lending verified.now self.new) }
        ensures picks { OnOk result (picks_of self.new.trace.entries
            ≡ picks_of self.old.trace.entries ++ replicate counted.count counted.pick) }
        ensures interval { OnOk result (self.new.interval ≡ self.old.interval) }
        ensures stopped { IfErr result (λ fault. (lending : LendingValue) → ReplaysBy lending verified.now self.old
            → IsStoppedBy lending verified.now.code
            (picks_of self.old.trace.entries ++ replicate counted.count counted.pick) fault) }
    {
        let pick = counted.pick;
        let mut left = counted.count;
        while left > 0 {
            let count = self.up_to_next(left);
            repeat(
                verified,
                &mut self.machine,
                &mut self.trace,
                CountedPick { pick, count },
            )?;
            left -= count;
            keep(
                alloc,
                &mut self.checkpoints,
                self.interval,
                &self.machine,
                self.trace.len(),
            )?;
        }
        Ok(())
    }

    /// Makes these picks in turn, the first of all.
    fn make_each(
        &mut self,
        alloc: Global,
        verified: &Verified,
        picks: &[Pick],
    ) -> Result<(), ReplayFault>
        requires replays { Replays verified.now self.old }
        requires none { self.old.trace.entries ≡ [] }
        requires few { length picks.now ≤ MAX_PICKS }
        requires some { 0 < self.old.interval }
        requires small { self.old.interval ≤ MAX_PICKS }
        ensures replays { OnOk result ((lending : LendingValue) → ReplaysBy lending verified.now self.old
            → ReplaysBy lending verified.now self.new) }
        ensures picks { OnOk result (picks_of self.new.trace.entries ≡ picks.now) }
        ensures interval { OnOk result (self.new.interval ≡ self.old.interval) }
        ensures stopped { IfErr result (λ fault. (lending : LendingValue) → ReplaysBy lending verified.now self.old
            → IsStoppedBy lending verified.now.code picks.now fault) }
    {
        for i in 0..picks.len() {
            let counted = CountedPick {
                pick: picks[i],
                count: 1,
            };
            self.make(alloc, verified, counted)?;
        }
        Ok(())
    }

    /// Makes each of these picks as often as its count says, the first of all.
    fn make_all(
        &mut self,
        alloc: Global,
        verified: &Verified,
        picks: &[CountedPick],
    ) -> Result<(), ReplayFault>
        requires replays { Replays verified.now self.old }
        requires none { self.old.trace.entries ≡ [] }
        requires few { length (spread picks.now) ≤ MAX_PICKS }
        requires some { 0 < self.old.interval }
        requires small { self.old.interval ≤ MAX_PICKS }
        ensures replays { OnOk result ((lending : LendingValue) → ReplaysBy lending verified.now self.old
            → ReplaysBy lending verified.now self.new) }
        ensures picks { OnOk result (picks_of self.new.trace.entries ≡ spread picks.now) }
        ensures interval { OnOk result (self.new.interval ≡ self.old.interval) }
        ensures stopped { IfErr result (λ fault. (lending : LendingValue) → ReplaysBy lending verified.now self.old
            → IsStoppedBy lending verified.now.code (spread picks.now) fault) }
    {
        for i in 0..picks.len() {
            self.make(alloc, verified, picks[i])?;
        }
        Ok(())
    }
}

/// Makes these picks in turn under a lending, as `replay_by` does, and keeps checkpoints on the way.
pub fn replay_picks(
    alloc: Global,
    verified: &Verified,
    lending: Lending,
    picks: &[Pick],
) -> Result<Replaying, ReplayFault>
    requires { length picks.now ≤ MAX_PICKS }
    ensures replays { IfOk result (ReplaysBy lending verified.now) }
    ensures picks { IfOk result (λ r. picks_of r.trace.entries ≡ picks.now) }
    ensures interval { IfOk result (λ r. r.interval ≡ interval_of (length picks.now)) }
    ensures stopped { IfErr result (IsStoppedBy lending verified.now.code picks.now) }
{
    let interval = interval_for(picks.len() as u32);
    let mut replaying = Replaying::new(alloc, verified, lending, interval)?;
    replaying.make_each(alloc, verified, picks)?;
    Ok(replaying)
}

/// Returns how many picks these are one by one.
fn count_all(picks: &[CountedPick]) -> u32
    requires { length (spread picks.now) ≤ MAX_PICKS }
    ensures { result ≡ length (spread picks.now) }
{
    let mut count: u32 = 0;
    for i in 0..picks.len() {
        let counted = picks[i];
        count += counted.count;
    }
    count
}

/// Makes each of these picks as often as its count says under a lending, as `replay_counted_by` does, and keeps
/// checkpoints on the way.
pub fn replay_counted_picks(
    alloc: Global,
    verified: &Verified,
    lending: Lending,
    picks: &[CountedPick],
) -> Result<Replaying, ReplayFault>
    requires { length (spread picks.now) ≤ MAX_PICKS }
    ensures replays { IfOk result (ReplaysBy lending verified.now) }
    ensures picks { IfOk result (λ r. picks_of r.trace.entries ≡ spread picks.now) }
    ensures interval { IfOk result (λ r. r.interval ≡ interval_of (length (spread picks.now))) }
    ensures stopped { IfErr result (IsStoppedBy lending verified.now.code (spread picks.now)) }
{
    let interval = interval_for(count_all(picks));
    let mut replaying = Replaying::new(alloc, verified, lending, interval)?;
    replaying.make_all(alloc, verified, picks)?;
    Ok(replaying)
}

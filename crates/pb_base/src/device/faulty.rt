//! Inputs and outputs in memory of which one call fails, for tests.

ghost use Rattle.std.specs.Prelude.{◌≡◌, ◌≤◌, ◌<◌, ◌++◌, ◌-◌, ◌↔◌, [], Some, ◌⊎◌, take, drop, min, length, IsTrue, IfOk, IsErr, OnOk, OnErr};
ghost use Rattle.pb_base.specs.Device.{dropped, one_more_failure, one_call_less};

use crate::device::memory::{MemoryInput, MemoryOutput};
use crate::device::{DeviceFault, Input, Output};
use crate::memory::NoMemory;
use std::alloc::Global;
use std::marker::Model;

/// Bytes in memory, as an input that gives a few bytes a call, and of which one read fails.
#[derive(Drop)]
pub struct FaultyInput<'t> {
    bytes: MemoryInput<'t>,
    most: usize,
    passing: Option<u64>,
    failures: u64,
}

impl<'t> Model for FaultyInput<'t> {
    ghost use Rattle.std.specs.Prelude.{◌<◌};
    ghost use Rattle.pb_base.specs.Device.{FaultySource};

    ghost Value = { FaultySource };

    ghost view = { λ s. record { bytes = s.bytes; most = s.most; passing = s.passing; failures = s.failures } };

    ghost invariant = { λ s. 0 < s.most };
}

impl<'t> FaultyInput<'t> {
    /// Returns an input over these bytes that gives at most `most` of them a call. The first `passing` reads
    /// pass, the one after them fails, and all later ones pass.
    pub fn new(bytes: &'t [u8], passing: u64, most: usize) -> FaultyInput<'t>
        requires { 0 < most }
        ensures { result ≡ record {
          bytes = bytes.entry.now;
          most = most;
          passing = Some passing;
          failures = 0;
        } }
    {
        FaultyInput {
            bytes: MemoryInput::new(bytes),
            most,
            passing: Some(passing),
            failures: 0,
        }
    }

    /// Returns how many reads have failed.
    pub fn failures(&self) -> u64
        ensures { result ≡ self.now.failures }
    {
        self.failures
    }
}

impl Input for FaultyInput<'_> {
    ghost rest = { λ s. Some s.bytes };

    ghost failures = { λ s. s.failures };

    fn read(&mut self, buf: &mut [u8]) -> Result<usize, DeviceFault>
        ensures bound { IfOk result (λ n. n ≤ length buf.new) }
        ensures given { IfOk result (λ n. take n self.old.bytes ≡ take n buf.new) }
        ensures taken { IfOk result (λ n. Some self.new.bytes ≡ dropped (Some self.old.bytes) n) }
        ensures end { IfOk result (λ n. n ≡ 0 → (buf.new ≡ []) ⊎ (self.old.bytes ≡ [])) }
        ensures count { IfOk result (λ n. n ≡ min (min (length buf.new) self.old.most) (length self.old.bytes)) }
        ensures counted { OnOk result (self.new.failures ≡ self.old.failures) }
        ensures fault { OnErr result ((Some self.new.bytes ≡ Some self.old.bytes)
            × (self.new.failures ≡ one_more_failure self.old.failures)) }
        ensures once { IsErr result ↔ (self.old.passing ≡ Some 0) }
        ensures passing { self.new.passing ≡ one_call_less self.old.passing }
        ensures most { self.new.most ≡ self.old.most }
    {
        if fails_now(&mut self.passing) {
            self.failures = self.failures.saturating_add(1);
            return Err(DeviceFault);
        }
        let most = self.most.min(buf.len());
        Ok(self.bytes.give(&mut buf[..most]))
    }
}

/// Room in memory, as an output that takes a few bytes a call, and of which one write fails.
#[derive(Drop)]
pub struct FaultyOutput {
    memory: MemoryOutput,
    most: usize,
    passing: Option<u64>,
    failures: u64,
}

impl Model for FaultyOutput {
    ghost use Rattle.std.specs.Prelude.{◌<◌};
    ghost use Rattle.pb_base.specs.Device.{FaultySink};

    ghost Value = { FaultySink };

    ghost view = { λ s. record {
      bytes = s.memory.bytes;
      room = s.memory.room;
      most = s.most;
      passing = s.passing;
      failures = s.failures;
    } };

    ghost invariant = { λ s. 0 < s.most };
}

impl FaultyOutput {
    /// Returns an output with room for `room` bytes that takes at most `most` of them a call. The first
    /// `passing` writes pass, the one after them fails, and all later ones pass while there is room.
    pub fn new(
        alloc: Global,
        room: usize,
        passing: u64,
        most: usize,
    ) -> Result<FaultyOutput, NoMemory>
        requires { 0 < most }
        ensures { IfOk result (λ r. r ≡ record {
          bytes = [];
          room = room;
          most = most;
          passing = Some passing;
          failures = 0;
        }) }
    {
        Ok(FaultyOutput {
            memory: MemoryOutput::new(alloc, room)?,
            most,
            passing: Some(passing),
            failures: 0,
        })
    }

    /// Returns the bytes that were written.
    pub fn as_slice(&self) -> &[u8]
        ensures { result.now ≡ self.now.bytes }
    {
        self.memory.as_slice()
    }

    /// Returns how many writes have failed.
    pub fn failures(&self) -> u64
        ensures { result ≡ self.now.failures }
    {
        self.failures
    }
}

impl Output for FaultyOutput {
    ghost written = { λ s. Some s.bytes };

    ghost failures = { λ s. s.failures };

    fn write(&mut self, bytes: &[u8]) -> Result<usize, DeviceFault>
        ensures some { IfOk result (λ n. 0 < length bytes.now → 0 < n) }
        ensures count { IfOk result (λ n. n ≡ min (min (length bytes.now) self.old.most)
            (self.old.room - length self.old.bytes)) }
        ensures taken { IfOk result (λ n. self.new.bytes ≡ self.old.bytes ++ take n bytes.now) }
        ensures counted { OnOk result (self.new.failures ≡ self.old.failures) }
        ensures fault { OnErr result ((self.new.bytes ≡ self.old.bytes)
            × (self.new.failures ≡ one_more_failure self.old.failures)) }
        ensures once { self.old.passing ≡ Some 0 → IsErr result }
        ensures else_full { OnErr result ((self.old.passing ≡ Some 0)
            ⊎ (length self.old.bytes ≡ self.old.room)) }
        ensures passing { self.new.passing ≡ one_call_less self.old.passing }
        ensures same { (self.new.room ≡ self.old.room) × (self.new.most ≡ self.old.most) }
    {
        if fails_now(&mut self.passing) {
            self.failures = self.failures.saturating_add(1);
            return Err(DeviceFault);
        }
        let most = self.most.min(bytes.len());
        match self.memory.write(&bytes[..most]) {
            Ok(count) => Ok(count),
            Err(fault) => {
                self.failures = self.failures.saturating_add(1);
                Err(fault)
            }
        }
    }
}

/// Returns whether the call fails that begins now, before which `passing` were to pass; none fails after
/// that.
fn fails_now(passing: &mut Option<u64>) -> bool
    ensures now { IsTrue result ↔ (passing.old ≡ Some 0) }
    ensures left { passing.new ≡ one_call_less passing.old }
{
    match *passing {
        None => false,
        Some(0) => {
            *passing = None;
            true
        }
        Some(calls) => {
            *passing = Some(calls - 1);
            false
        }
    }
}

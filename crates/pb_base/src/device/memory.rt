//! Inputs and outputs in memory.

ghost use Rattle.std.specs.Prelude.{◌≡◌, ◌≤◌, ◌<◌, ◌++◌, ◌-◌, [], Some, ◌⊎◌, take, drop, min, length, IfOk, OnOk, OnErr};
ghost use Rattle.pb_base.specs.Device.{one_more_failure};

use crate::device::{DeviceFault, Input, Output};
use crate::memory::NoMemory;
use std::alloc::Global;
use std::marker::Model;

/// Bytes in memory, as an input.
#[derive(Drop)]
pub struct MemoryInput<'t> {
    rest: &'t [u8],
}

impl<'t> Model for MemoryInput<'t> {
    ghost use Rattle.std.specs.Prelude.{ℕ, List};

    ghost Value = { List ℕ };

    ghost view = { λ s. s.rest.now };
}

impl<'t> MemoryInput<'t> {
    /// Returns an input that gives these bytes.
    pub fn new(bytes: &'t [u8]) -> MemoryInput<'t>
        ensures { result ≡ bytes.entry.now }
    {
        MemoryInput { rest: bytes }
    }

    /// Moves the next bytes, as many as fit, into the front of `buf`, and returns how many.
    pub(crate) fn give(&mut self, buf: &mut [u8]) -> usize
        ensures count { result ≡ min (length buf.new) (length self.old) }
        ensures given { take result self.old ≡ take result buf.new }
        ensures taken { self.new ≡ drop result self.old }
    {
        let count = buf.len().min(self.rest.len());
        let (next, rest) = self.rest.split_at(count);
        buf[..count].copy_from_slice(next);
        self.rest = rest;
        count
    }
}

impl Input for MemoryInput<'_> {
    ghost rest = { λ s. Some s };

    ghost failures = { λ _. 0 };

    fn read(&mut self, buf: &mut [u8]) -> Result<usize, DeviceFault> {
        Ok(self.give(buf))
    }
}

/// Room in memory for a number of bytes that is fixed when it is made, as an output.
#[derive(Drop)]
pub struct MemoryOutput {
    bytes: Vec<u8>,
    room: usize,
    failures: u64,
}

impl Model for MemoryOutput {
    ghost use Rattle.std.specs.Prelude.{◌≤◌, vec_capacity, vec_len};
    ghost use Rattle.pb_base.specs.Device.{Memory};

    ghost Value = { Memory };

    ghost view = { λ s. record { bytes = s.bytes.items; room = s.room; failures = s.failures } };

    ghost invariant = { λ s. (vec_len s.bytes ≤ s.room) × (s.room ≤ vec_capacity s.bytes) };
}

impl MemoryOutput {
    /// Returns an output that takes `room` bytes. They are set aside now, or the result is `NoMemory`.
    pub fn new(alloc: Global, room: usize) -> Result<MemoryOutput, NoMemory>
        ensures { IfOk result (λ r. r ≡ record { bytes = []; room = room; failures = 0 }) }
    {
        Ok(MemoryOutput {
            bytes: Vec::with_capacity(alloc, room)?,
            room,
            failures: 0,
        })
    }

    /// Returns the bytes that were written.
    pub fn as_slice(&self) -> &[u8]
        ensures { result.now ≡ self.now.bytes }
    {
        self.bytes.as_slice()
    }

    /// Returns how many writes have failed.
    pub fn failures(&self) -> u64
        ensures { result ≡ self.now.failures }
    {
        self.failures
    }
}

impl Output for MemoryOutput {
    ghost written = { λ s. Some s.bytes };

    ghost failures = { λ s. s.failures };

    fn write(&mut self, bytes: &[u8]) -> Result<usize, DeviceFault>
        ensures bound { IfOk result (λ n. n ≤ length bytes.now) }
        ensures some { IfOk result (λ n. 0 < length bytes.now → 0 < n) }
        ensures taken { IfOk result (λ n. self.new.bytes ≡ self.old.bytes ++ take n bytes.now) }
        ensures counted { OnOk result (self.new.failures ≡ self.old.failures) }
        ensures fault { OnErr result ((self.new.bytes ≡ self.old.bytes)
            × (self.new.failures ≡ one_more_failure self.old.failures)) }
        ensures room { self.new.room ≡ self.old.room }
        ensures count { IfOk result (λ n. n ≡ min (length bytes.now)
            (self.old.room - length self.old.bytes)) }
        ensures full { OnErr result (length self.old.bytes ≡ self.old.room) }
    {
        let count = bytes.len().min(self.room.saturating_sub(self.bytes.len()));
        if count == 0 && !bytes.is_empty() {
            self.failures = self.failures.saturating_add(1);
            return Err(DeviceFault);
        }
        match self.bytes.extend_from_slice(&bytes[..count]) {
            Ok(()) => Ok(count),
            Err(_) => {
                self.failures = self.failures.saturating_add(1);
                Err(DeviceFault)
            }
        }
    }
}

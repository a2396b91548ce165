//! Standard input and standard output.

ghost use Rattle.std.specs.Prelude.{◌≡◌, ◌≤◌, ◌<◌, None, length, IfSome};

use crate::device::{DeviceFault, Input, Output};
use std::io::{ErrorKind, Read, Stdin, Stdout, Write};

/// Standard input. What it holds is not known to any contract.
#[derive(Drop)]
pub struct StandardInput {
    stream: Stdin,
    failures: u64,
}

impl StandardInput {
    /// Returns the device of a stream, with no failure counted yet.
    pub fn new(stream: Stdin) -> StandardInput
        ensures { result.failures ≡ 0 }
    {
        StandardInput {
            stream,
            failures: 0,
        }
    }

    /// Returns how many reads have failed.
    pub fn failures(&self) -> u64
        ensures { result ≡ self.now.failures }
    {
        self.failures
    }
}

impl Input for StandardInput {
    ghost rest = { λ _. None };

    ghost failures = { λ s. s.failures };

    fn read(&mut self, buf: &mut [u8]) -> Result<usize, DeviceFault> {
        match read_uninterrupted(&mut self.stream, buf) {
            Some(count) => Ok(count),
            None => {
                self.failures = self.failures.saturating_add(1);
                Err(DeviceFault)
            }
        }
    }
}

fn read_uninterrupted(stream: &mut Stdin, buf: &mut [u8]) -> Option<usize>
    ensures { IfSome result (λ n. n ≤ length buf.new) }
{
    for _ in 0..u64::MAX {
        match stream.read(buf) {
            Ok(count) => return Some(count),
            Err(error) if error.kind() == ErrorKind::Interrupted => {}
            Err(_) => return None,
        }
    }
    None
}

/// Standard output. What it was given is not known to any contract.
#[derive(Drop)]
pub struct StandardOutput {
    stream: Stdout,
    failures: u64,
}

impl StandardOutput {
    /// Returns the device of a stream, with no failure counted yet.
    pub fn new(stream: Stdout) -> StandardOutput
        ensures { result.failures ≡ 0 }
    {
        StandardOutput {
            stream,
            failures: 0,
        }
    }

    /// Returns how many writes have failed.
    pub fn failures(&self) -> u64
        ensures { result ≡ self.now.failures }
    {
        self.failures
    }
}

impl Output for StandardOutput {
    ghost written = { λ _. None };

    ghost failures = { λ s. s.failures };

    fn write(&mut self, bytes: &[u8]) -> Result<usize, DeviceFault> {
        match write_uninterrupted(&mut self.stream, bytes) {
            Some(count) => Ok(count),
            None => {
                self.failures = self.failures.saturating_add(1);
                Err(DeviceFault)
            }
        }
    }
}

fn write_uninterrupted(stream: &mut Stdout, bytes: &[u8]) -> Option<usize>
    ensures { IfSome result (λ n. (n ≤ length bytes.now) × (0 < length bytes.now → 0 < n)) }
{
    for _ in 0..u64::MAX {
        match stream.write(bytes) {
            Ok(0) if !bytes.is_empty() => return None,
            Ok(count) => return Some(count),
            Err(error) if error.kind() == ErrorKind::Interrupted => {}
            Err(_) => return None,
        }
    }
    None
}

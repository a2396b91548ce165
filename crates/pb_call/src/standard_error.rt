//! Standard error as an output.

ghost use Rattle.std.specs.Prelude.{◌≡◌, ◌≤◌, ◌<◌, None, length, IfSome};

use pb_base::{DeviceFault, Output};
use std::io::{ErrorKind, Stderr, Write};

/// Standard error. What it was given is not known to any contract.
#[derive(Drop)]
pub struct StandardError {
    stream: Stderr,
    failures: u64,
}

impl StandardError {
    /// Returns the device over this stream. No failure is counted yet.
    pub fn new(stream: Stderr) -> StandardError
        ensures { result.failures ≡ 0 }
    {
        StandardError {
            stream,
            failures: 0,
        }
    }
}

impl Output for StandardError {
    ghost written = { λ _. None };

    ghost failures = { λ s. s.failures };

    fn write(&mut self, bytes: &[u8]) -> Result<usize, DeviceFault> {
        match write_uninterrupted(&mut self.stream, bytes) {
            Some(count) => Ok(count),
            None => {
                self.failures = self.failures.saturating_add(1);
                Err(DeviceFault)
            }
        }
    }
}

fn write_uninterrupted(stream: &mut Stderr, bytes: &[u8]) -> Option<usize>
    ensures { IfSome result (λ n. (n ≤ length bytes.now) × (0 < length bytes.now → 0 < n)) }
{
    for _ in 0..u64::MAX {
        match stream.write(bytes) {
            Ok(0) if !bytes.is_empty() => return None,
            Ok(count) => return Some(count),
            Err(error) if error.kind() == ErrorKind::Interrupted => {}
            Err(_) => return None,
        }
    }
    None
}

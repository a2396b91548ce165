//! What a session answers, kept in memory.

ghost use Rattle.std.specs.Prelude.{◌≡◌, [], Some};

use pb_base::{DeviceFault, Output};
use std::alloc::Global;
use std::marker::Model;

/// Bytes that were written, in memory that grows. A write fails if out of memory.
#[derive(Drop)]
pub struct Said {
    bytes: Vec<u8>,
    failures: u64,
}

impl Model for Said {
    ghost use Rattle.pb_conversations.specs.Conversations.{SaidBytes};

    ghost Value = { SaidBytes };

    ghost view = { λ s. record { bytes = s.bytes.items; failures = s.failures } };
}

impl Said {
    /// Returns an output to which nothing was written.
    pub fn new(alloc: Global) -> Said
        ensures { result ≡ record { bytes = []; failures = 0 } }
    {
        Said {
            bytes: Vec::new(alloc),
            failures: 0,
        }
    }

    /// Returns the bytes that were written.
    pub fn as_slice(&self) -> &[u8]
        ensures { result.now ≡ self.now.bytes }
    {
        self.bytes.as_slice()
    }
}

impl Output for Said {
    ghost written = { λ s. Some s.bytes };

    ghost failures = { λ s. s.failures };

    fn write(&mut self, bytes: &[u8]) -> Result<usize, DeviceFault> {
        match self.bytes.extend_from_slice(bytes) {
            Ok(()) => Ok(bytes.len()),
            Err(_) => {
                self.failures = self.failures.saturating_add(1);
                Err(DeviceFault)
            }
        }
    }
}

//! The line that is being read.

ghost use Rattle.std.specs.Prelude.{◌≡◌, [], ◌≤◌, length};
ghost use Rattle.pb_bank_engine.specs.Sessions.{kept_with};

use pb_bank::{MAX_COMMAND, is_blank};
use std::marker::Model;

/// The bytes of a line that are kept: one more than a command may have.
const ROOM: usize = MAX_COMMAND + 1;

/// The first bytes of a line: all of them after the blanks that it begins with, up to one more than a command may
/// have. So a line of any length takes no memory.
#[derive(Drop)]
pub struct Line {
    bytes: [u8; ROOM],
    len: usize,
}

impl Model for Line {
    ghost use Rattle.std.specs.Prelude.{ℕ, List, take, ◌≤◌};

    ghost Value = { List ℕ };

    ghost view = { λ b. take b.len b.bytes };

    ghost invariant = { λ b. b.len ≤ 4097 };
}

impl Line {
    /// Returns a line of which nothing was read.
    pub fn new() -> Line
        ensures { result ≡ [] }
    {
        Line {
            bytes: [0; ROOM],
            len: 0,
        }
    }

    /// Adds a byte, while there is room; but no blank before all others.
    pub fn put(&mut self, byte: u8)
        ensures { self.new ≡ kept_with self.old byte }
    {
        if self.len == 0 && is_blank(byte) {
            return;
        }
        if self.len < ROOM {
            self.bytes[self.len] = byte;
            self.len += 1;
        }
    }

    /// Begins the next line.
    pub fn clear(&mut self)
        ensures { self.new ≡ [] }
    {
        self.len = 0;
    }

    /// Returns what is kept of the line.
    pub fn as_slice(&self) -> &[u8]
        ensures { result.now ≡ self.now }
    {
        let bytes = &self.bytes;
        &bytes[..self.len]
    }
}

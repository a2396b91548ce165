//! What a command writes, in memory, and how it is told in JSON lines.

ghost use Rattle.std.specs.Prelude.{◌≡◌, ◌≢◌, ◌⊎◌, [], Some};
ghost use Rattle.pb_command_io.specs.Answers.{Says};
ghost use Rattle.pb_command_io.specs.Faults.{TellsWriteFaults};
ghost use Rattle.pb_json_lines.specs.JsonLines.{json_lines};
ghost use Rattle.pb_json_lines.specs.Replies.{ReadFailed, SaysInJson, memory_object};

use crate::form::Dialect;
use crate::text::json_lines;
use pb_base::{DeviceFault, Output, write_all};
use pb_command_io::{Page, Status};
use std::alloc::Global;
use std::marker::Model;

/// An output in memory, which takes as many bytes as there is memory for.
#[derive(Drop)]
pub struct Gathered {
    bytes: Vec<u8>,
    failures: u64,
}

impl Model for Gathered {
    ghost use Rattle.pb_json_lines.specs.Replies.{Gathering};

    ghost Value = { Gathering };

    ghost view = { λ s. record { bytes = s.bytes.items; failures = s.failures } };
}

impl Gathered {
    /// Returns an output with no bytes. It takes no memory yet.
    pub fn new(alloc: Global) -> Gathered
        ensures { result ≡ record { bytes = []; failures = 0 } }
    {
        Gathered {
            bytes: Vec::new(alloc),
            failures: 0,
        }
    }

    /// Returns the bytes that were written.
    pub fn as_slice(&self) -> &[u8]
        ensures { result.now ≡ self.now.bytes }
    {
        self.bytes.as_slice()
    }

    /// Returns how many writes have failed, for want of memory.
    pub fn failures(&self) -> u64
        ensures { result ≡ self.now.failures }
    {
        self.failures
    }
}

impl Output for Gathered {
    ghost written = { λ s. Some s.bytes };

    ghost failures = { λ s. s.failures };

    fn write(&mut self, bytes: &[u8]) -> Result<usize, DeviceFault> {
        match self.bytes.extend_from_slice(bytes) {
            Ok(()) => Ok(bytes.len()),
            Err(_) => {
                self.failures = self.failures.saturating_add(1);
                Err(DeviceFault)
            }
        }
    }
}

/// Writes that memory does not suffice.
fn tell_memory<O: Output>(alloc: Global, output: &mut O) -> Status
    ensures text { Says (O.written output.old) (O.written output.new) memory_object Status.Memory result }
    ensures faults { TellsWriteFaults (O.failures output.old) (O.failures output.new) result }
{
    Page::new(alloc).finish_with(output, b"{\"kind\":\"memory\"}", Status::Memory)
}

/// Writes the JSON lines of a text, and returns the status if no write failed.
fn tell_lines<O: Output>(
    alloc: Global,
    text: &[u8],
    given: Status,
    dialect: Dialect,
    output: &mut O,
) -> Status
    requires { given ≢ Status.Device }
    ensures text { Says (O.written output.old) (O.written output.new) (json_lines dialect text.now) given result
        ⊎ Says (O.written output.old) (O.written output.new) memory_object Status.Memory result }
    ensures faults { TellsWriteFaults (O.failures output.old) (O.failures output.new) result }
{
    let Ok(lines) = json_lines(alloc, dialect, text) else {
        return tell_memory(alloc, output);
    };
    match write_all(output, lines.as_slice()) {
        Ok(()) => given,
        Err(_) => Status::Device,
    }
}

/// Writes the JSON lines of what a command wrote, in the forms of its lines, and returns its status. If it was out of
/// memory, that is told; after a failed read nothing is written.
pub fn tell_json<O: Output>(
    alloc: Global,
    gathered: &Gathered,
    given: Status,
    dialect: Dialect,
    output: &mut O,
) -> Status
    ensures unread { ReadFailed given gathered.now.failures → (output.new ≡ output.old) × (result ≡ Status.Device) }
    ensures text { (ReadFailed given gathered.now.failures → ⊥)
        → SaysInJson dialect gathered.now.bytes given (O.written output.old) (O.written output.new) result }
    ensures faults { (ReadFailed given gathered.now.failures → ⊥)
        → TellsWriteFaults (O.failures output.old) (O.failures output.new) result }
{
    match given {
        Status::Device if gathered.failures() == 0 => Status::Device,
        Status::Device => tell_memory(alloc, output),
        Status::Done
        | Status::Refused
        | Status::Words
        | Status::Limit
        | Status::Fault
        | Status::Memory
        | Status::Threads
        | Status::Deadlock
        | Status::Unexpected => tell_lines(alloc, gathered.as_slice(), given, dialect, output),
    }
}

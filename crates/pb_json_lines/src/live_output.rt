//! An output whose lines can be told as JSON lines, as they come.

ghost use Rattle.std.specs.Prelude.{◌≡◌, ◌≢◌, ◌≤◌, ◌<◌, ◌++◌, [], None, Some, IfOk, OnOk, OnErr, drop, length, take};
ghost use Rattle.pb_base.specs.Device.{appended, one_more_failure, AddsPrefix};
ghost use Rattle.pb_command_io.specs.Answers.{Says};
ghost use Rattle.pb_command_io.specs.Faults.{TellsWriteFaults};
ghost use Rattle.pb_json_lines.specs.Live.{EndsLine, IsEnded, begun, failures_of_writers, seen_by_writers, told_alone};
ghost use Rattle.pb_json_lines.specs.Replies.{memory_object};

use crate::alone::{put_all, put_ended};
use crate::form::Dialect;
use crate::telling::Telling;
use pb_base::{DeviceFault, Output, write_all};
use pb_command_io::Status;
use std::alloc::Global;
use std::marker::Model;

/// An output that passes on what it is given to another one, until it is asked for the JSON lines of it: then the object
/// of each line is written as soon as the line has ended. If that fails, no later write is accepted.
#[derive(Drop)]
pub struct LiveOutput<O: Output> {
    alloc: Global,
    inner: O,
    writes: u64,
    dialect: Option<Dialect>,
    heard: Vec<u8>,
    told: usize,
    telling: Telling,
    refused: u64,
}

impl<O: Output> Model for LiveOutput<O> {
    ghost use Rattle.pb_json_lines.specs.Live.{IsLive, LiveSink};

    ghost Value = { LiveSink };

    ghost view = { λ s. record { written = O.written s.inner; writes = s.writes; dialect = s.dialect; heard = s.heard.items; telling = s.telling; refused = s.refused } };

    ghost invariant = { λ s. IsLive s.dialect s.heard.items s.told s.telling (O.written s.inner) s.writes };
}

/// How many bytes were told, and how it went.
#[derive(Clone, Copy)]
struct Told {
    count: usize,
    telling: Telling,
}

/// Writes the objects of those lines of a text that have ended.
fn tell_ended<O: Output>(alloc: Global, dialect: Dialect, text: &[u8], output: &mut O) -> Told
    ensures within { result.telling ≡ Telling.Whole → result.count ≤ length text.now }
    ensures ended { result.telling ≡ Telling.Whole → EndsLine (take result.count text.now) }
    ensures told { result.telling ≡ Telling.Whole
        → O.written output.new ≡ appended (O.written output.old) (told_alone dialect (take result.count text.now)) }
    ensures broken { result.telling ≢ Telling.Whole
        → AddsPrefix (O.written output.old) (O.written output.new) (told_alone dialect text.now) }
    ensures untouched { result.telling ≡ Telling.NoMemory → output.new ≡ output.old }
{
    let mut out = Vec::new(alloc);
    let Ok(count) = put_ended(&mut out, dialect, text) else {
        return Told {
            count: 0,
            telling: Telling::NoMemory,
        };
    };
    match write_all(output, out.as_slice()) {
        Ok(()) => Told {
            count,
            telling: Telling::Whole,
        },
        Err(_) => Told {
            count,
            telling: Telling::Failed,
        },
    }
}

/// Writes the objects of all lines of a text, of which the last may have no line feed.
fn tell_all<O: Output>(alloc: Global, dialect: Dialect, text: &[u8], output: &mut O) -> Telling
    ensures told { result ≡ Telling.Whole
        → O.written output.new ≡ appended (O.written output.old) (told_alone dialect text.now) }
    ensures broken { result ≢ Telling.Whole
        → AddsPrefix (O.written output.old) (O.written output.new) (told_alone dialect text.now) }
    ensures untouched { result ≡ Telling.NoMemory → output.new ≡ output.old }
{
    let mut out = Vec::new(alloc);
    if put_all(alloc, &mut out, dialect, text).is_err() {
        return Telling::NoMemory;
    }
    match write_all(output, out.as_slice()) {
        Ok(()) => Telling::Whole,
        Err(_) => Telling::Failed,
    }
}

/// How a telling went, and how many writes have failed.
#[derive(Clone, Copy)]
struct Flushed {
    telling: Telling,
    writes: u64,
}

/// Writes the objects of the lines that are left, if all went well so far.
fn flush<O: Output>(
    alloc: Global,
    dialect: Dialect,
    heard: &[u8],
    told: usize,
    telling: Telling,
    writes: u64,
    output: &mut O,
) -> Flushed
    requires { telling ≡ Telling.Whole → told ≤ length heard.now }
    ensures kept { telling ≢ Telling.Whole
        → (output.new ≡ output.old) × (result.telling ≡ telling) × (result.writes ≡ writes) }
    ensures told { telling ≡ Telling.Whole → result.telling ≡ Telling.Whole
        → O.written output.new ≡ appended (O.written output.old) (told_alone dialect (drop told heard.now)) }
    ensures broken { telling ≡ Telling.Whole → result.telling ≢ Telling.Whole
        → AddsPrefix (O.written output.old) (O.written output.new) (told_alone dialect (drop told heard.now)) }
    ensures failed { telling ≡ Telling.Whole → result.telling ≡ Telling.Failed → result.writes ≡ one_more_failure writes }
    ensures counted { telling ≡ Telling.Whole → result.telling ≢ Telling.Failed → result.writes ≡ writes }
{
    if telling != Telling::Whole {
        return Flushed { telling, writes };
    }
    let telling = tell_all(alloc, dialect, &heard[told..], output);
    match telling {
        Telling::Failed => Flushed {
            telling,
            writes: writes.saturating_add(1),
        },
        Telling::Whole | Telling::NoMemory => Flushed { telling, writes },
    }
}

/// How a telling ended, and how many writes have failed.
#[derive(Clone, Copy)]
struct Ended {
    status: Status,
    writes: u64,
}

/// Writes that memory did not suffice, if it did not, and returns the status of a telling.
fn end<O: Output>(telling: Telling, given: Status, writes: u64, output: &mut O) -> Ended
    ensures whole { telling ≡ Telling.Whole
        → (output.new ≡ output.old) × (result.status ≡ given) × (result.writes ≡ writes) }
    ensures failed { telling ≡ Telling.Failed
        → (output.new ≡ output.old) × (result.status ≡ Status.Device) × (result.writes ≡ writes) }
    ensures no_memory { telling ≡ Telling.NoMemory
        → Says (O.written output.old) (O.written output.new) memory_object Status.Memory result.status
        × TellsWriteFaults writes result.writes result.status }
{
    match telling {
        Telling::Whole => Ended {
            status: given,
            writes,
        },
        Telling::Failed => Ended {
            status: Status::Device,
            writes,
        },
        Telling::NoMemory => match write_all(output, b"{\"kind\":\"memory\"}\n") {
            Ok(()) => Ended {
                status: Status::Memory,
                writes,
            },
            Err(_) => Ended {
                status: Status::Device,
                writes: writes.saturating_add(1),
            },
        },
    }
}

impl<O: Output> LiveOutput<O> {
    /// Returns an output that passes on what it is given to this one.
    pub fn new(alloc: Global, inner: O) -> LiveOutput<O>
        ensures { result ≡ record {
          written = O.written inner;
          writes = 0;
          dialect = None;
          heard = [];
          telling = Telling.Whole;
          refused = 0;
        } }
    {
        LiveOutput {
            alloc,
            inner,
            writes: 0,
            dialect: None,
            heard: Vec::new(alloc),
            told: 0,
            telling: Telling::Whole,
            refused: 0,
        }
    }

    /// Returns the output after it.
    pub fn behind(&self) -> &O
        ensures { O.written result.now ≡ self.now.written }
    {
        &self.inner
    }

    /// Begins to write JSON lines, in these forms, of what it is given from now on.
    pub fn tell_lines(&mut self, dialect: Dialect)
        ensures { self.new ≡ begun dialect self.old }
    {
        self.dialect = Some(dialect);
        self.heard.clear();
        self.told = 0;
        self.telling = Telling::Whole;
        self.refused = 0;
    }

    /// Writes what is left of the JSON lines, passes on what it is given from now on, and returns the status of a
    /// call whose command ended with `given`: `Device` if a write failed; `Memory` if memory did not suffice for a
    /// line, which is then told. An output that tells no lines is left as it is.
    pub fn end_lines(&mut self, given: Status) -> Status
        ensures { IsEnded self.old given self.new result }
    {
        let Some(dialect) = self.dialect else {
            return given;
        };
        let flushed = flush(
            self.alloc,
            dialect,
            &self.heard,
            self.told,
            self.telling,
            self.writes,
            &mut self.inner,
        );
        let ended = end(flushed.telling, given, flushed.writes, &mut self.inner);
        self.dialect = None;
        self.told = 0;
        self.writes = ended.writes;
        ended.status
    }

    /// Passes bytes on.
    fn pass(&mut self, bytes: &[u8]) -> Result<usize, DeviceFault>
        requires { self.old.dialect ≡ None }
        ensures passes { self.new.dialect ≡ None }
        ensures bound { IfOk result (λ n. n ≤ length bytes.now) }
        ensures some { IfOk result (λ n. 0 < length bytes.now → 0 < n) }
        ensures taken { IfOk result (λ n. self.new.written ≡ appended self.old.written (take n bytes.now)) }
        ensures counted { OnOk result (self.new.writes ≡ self.old.writes) }
        ensures fault { OnErr result ((self.new.written ≡ self.old.written)
            × (self.new.writes ≡ one_more_failure self.old.writes)) }
    {
        match self.inner.write(bytes) {
            Ok(count) => Ok(count),
            Err(fault) => {
                self.writes = self.writes.saturating_add(1);
                Err(fault)
            }
        }
    }

    /// Hears bytes, and tells each line that ends among them. If that fails, the next write is refused.
    fn hear(&mut self, dialect: Dialect, bytes: &[u8]) -> Result<(), DeviceFault>
        requires { self.old.dialect ≡ Some dialect }
        ensures tells { self.new.dialect ≡ Some dialect }
        ensures heard { OnOk result (self.new.heard ≡ self.old.heard ++ bytes.now) }
        ensures counted { OnOk result (self.new.refused ≡ self.old.refused) }
        ensures fault { OnErr result ((self.new.heard ≡ self.old.heard)
            × (self.new.refused ≡ one_more_failure self.old.refused)) }
    {
        if self.telling != Telling::Whole {
            self.refused = self.refused.saturating_add(1);
            return Err(DeviceFault);
        }
        if self.heard.extend_from_slice(bytes).is_err() {
            self.telling = Telling::NoMemory;
            self.refused = self.refused.saturating_add(1);
            return Err(DeviceFault);
        }
        let rest = &self.heard[self.told..];
        let told = tell_ended(self.alloc, dialect, rest, &mut self.inner);
        self.telling = told.telling;
        match told.telling {
            Telling::Whole => self.told += told.count,
            Telling::Failed => self.writes = self.writes.saturating_add(1),
            Telling::NoMemory => {}
        }
        Ok(())
    }
}

impl<O: Output> Output for LiveOutput<O> {
    ghost written = { seen_by_writers };

    ghost failures = { failures_of_writers };

    fn write(&mut self, bytes: &[u8]) -> Result<usize, DeviceFault> {
        match self.dialect {
            None => self.pass(bytes),
            Some(dialect) => {
                self.hear(dialect, bytes)?;
                Ok(bytes.len())
            }
        }
    }
}

//! Text on its way to an output.
ghost use Rattle.std.specs.Prelude.{◌≡◌, ◌≢◌, ◌++◌, ℕ, List, [], OnOk, OnErr, MatchBool};
ghost use Rattle.pb_base.specs.Device.{appended, one_more_failure, AddsPrefix};
ghost use Rattle.pb_base.specs.Lines.{line};
ghost use Rattle.pb_command_io.specs.Answers.{Leaves, Says};
ghost use Rattle.pb_command_io.specs.Faults.{TellsWriteFaults};

use crate::status::Status;
use pb_base::{DeviceFault, Output, write_all};
use std::alloc::Global;
use std::marker::Model;

/// From this length on a page is written.
const FULL: usize = 4_096;

/// Text that waits to be written, so that an output is not called for each line. After a fault of the output
/// nothing waits, and nothing more should be written.
#[derive(Drop)]
pub struct Page {
    text: Vec<u8>,
}

impl Model for Page {
    ghost use Rattle.std.specs.Prelude.{ℕ, List};

    ghost Value = { List ℕ };

    ghost view = { λ s. s.text.items };
}

impl Page {
    /// Returns a page with no text. It takes no memory yet.
    pub fn new(alloc: Global) -> Page
        ensures { result ≡ [] }
    {
        Page {
            text: Vec::new(alloc),
        }
    }

    /// Puts a text on the page, if the page is not full and can grow.
    fn keep(&mut self, text: &[u8]) -> bool
        ensures { MatchBool result (self.new ≡ self.old ++ text.now) (self.new ≡ self.old) }
    {
        self.text.len() < FULL && self.text.extend_from_slice(text).is_ok()
    }

    /// Writes a text, or has it wait on the page. If the page cannot grow the text is written at once, so
    /// being out of memory is not a fault here. After a fault some first part of what waited and of the text
    /// is written, and nothing waits.
    pub fn say<O: Output>(&mut self, output: &mut O, text: &[u8]) -> Result<(), DeviceFault>
        ensures ok { OnOk result (Leaves (O.written output.old) (O.written output.new) (self.old ++ text.now) self.new) }
        ensures counted { OnOk result (O.failures output.new ≡ O.failures output.old) }
        ensures prefix { OnErr result (AddsPrefix (O.written output.old) (O.written output.new) (self.old ++ text.now)) }
        ensures fault { OnErr result (O.failures output.new ≡ one_more_failure (O.failures output.old)) }
        ensures given_up { OnErr result (self.new ≡ []) }
    {
        if self.keep(text) {
            return Ok(());
        }
        self.flush(output)?;
        write_all(output, text)
    }

    /// Writes a line, which ends in a line feed, as `say` writes a text.
    pub fn say_line<O: Output>(&mut self, output: &mut O, text: &[u8]) -> Result<(), DeviceFault>
        ensures ok { OnOk result (Leaves (O.written output.old) (O.written output.new) (self.old ++ line text.now) self.new) }
        ensures counted { OnOk result (O.failures output.new ≡ O.failures output.old) }
        ensures prefix { OnErr result (AddsPrefix (O.written output.old) (O.written output.new) (self.old ++ line text.now)) }
        ensures fault { OnErr result (O.failures output.new ≡ one_more_failure (O.failures output.old)) }
        ensures given_up { OnErr result (self.new ≡ []) }
    {
        self.say(output, text)?;
        self.say(output, b"\n")
    }

    /// Writes what waits. After a fault some first part of it is written, and nothing waits.
    pub fn flush<O: Output>(&mut self, output: &mut O) -> Result<(), DeviceFault>
        ensures ok { OnOk result ((O.written output.new ≡ appended (O.written output.old) self.old) × (self.new ≡ [])) }
        ensures counted { OnOk result (O.failures output.new ≡ O.failures output.old) }
        ensures prefix { OnErr result (AddsPrefix (O.written output.old) (O.written output.new) self.old) }
        ensures fault { OnErr result (O.failures output.new ≡ one_more_failure (O.failures output.old)) }
        ensures given_up { OnErr result (self.new ≡ []) }
    {
        let written = write_all(output, self.text.as_slice());
        self.text.clear();
        written
    }

    /// Writes what waits, and returns the status if no write failed.
    pub fn finish<O: Output>(self, output: &mut O, status: Status) -> Status
        requires { status ≢ Status.Device }
        ensures text { Says (O.written output.old) (O.written output.new) self status result }
        ensures faults { TellsWriteFaults (O.failures output.old) (O.failures output.new) result }
    {
        match write_all(output, self.text.as_slice()) {
            Ok(()) => status,
            Err(_) => Status::Device,
        }
    }

    /// Writes what waits and a last line, and returns the status if no write failed.
    pub fn finish_with<O: Output>(mut self, output: &mut O, last: &[u8], status: Status) -> Status
        requires { status ≢ Status.Device }
        ensures text { Says (O.written output.old) (O.written output.new) (self ++ line last.now) status result }
        ensures faults { TellsWriteFaults (O.failures output.old) (O.failures output.new) result }
    {
        match self.say_line(output, last) {
            Ok(()) => self.finish(output, status),
            Err(_) => Status::Device,
        }
    }
}

//! A teller that writes to an output.

ghost use Rattle.std.specs.Prelude.{◌≡◌, ◌≢◌, [], OnOk, OnErr};
ghost use Rattle.std.specs.List.{flat_map};
ghost use Rattle.pb_command_io.specs.Answers.{Says};
ghost use Rattle.pb_command_io.specs.Faults.{TellsWriteFaults};
ghost use Rattle.pb_voice.specs.Held.{at};
ghost use Rattle.pb_voice.specs.Voices.{Adds, Breaks};

use crate::form::Form;
use pb_base::{DeviceFault, Output};
use pb_command_io::{Page, Status};
use std::alloc::Global;
use std::marker::Model;

/// Writes things in one form, the same one from first to last. It takes no memory but that of its page: if this cannot
/// grow, what it has is written.
#[derive(Drop)]
pub struct Voice {
    form: Form,
    page: Page,
}

impl Model for Voice {
    ghost use Rattle.pb_voice.specs.Held.{Held};

    ghost Value = { Held };

    ghost view = { λ s. record { form = s.form; waits = s.page } };
}

impl Voice {
    /// Returns a voice that writes in this form, and of which nothing waits.
    pub fn new(alloc: Global, form: Form) -> Voice
        ensures { result ≡ record { form = form; waits = [] } }
    {
        Voice {
            form,
            page: Page::new(alloc),
        }
    }

    /// Returns the form.
    pub fn form(&self) -> Form
        ensures { result ≡ self.now.form }
    {
        self.form
    }

    /// Says a text.
    pub fn say<O: Output>(&mut self, output: &mut O, text: &[u8]) -> Result<(), DeviceFault>
        ensures ok { OnOk result (Adds (at O.written O.failures self.old output.old) text.now (at O.written O.failures self.new output.new)) }
        ensures err { OnErr result (Breaks (at O.written O.failures self.old output.old) text.now (at O.written O.failures self.new output.new)) }
    {
        self.page.say(output, text)
    }

    /// Says pieces of a text.
    pub fn say_all<O: Output>(
        &mut self,
        output: &mut O,
        pieces: &[&[u8]],
    ) -> Result<(), DeviceFault>
        ensures ok { OnOk result (Adds (at O.written O.failures self.old output.old) (flat_map (λ piece. piece.now) pieces.now)
            (at O.written O.failures self.new output.new)) }
        ensures err { OnErr result (Breaks (at O.written O.failures self.old output.old) (flat_map (λ piece. piece.now) pieces.now)
            (at O.written O.failures self.new output.new)) }
    {
        for i in 0..pieces.len() {
            self.say(output, pieces[i])?;
        }
        Ok(())
    }

    /// Writes what waits, and returns the status of a call that ended with this one: `Device` if a write failed, before
    /// or now.
    pub fn finish<O: Output>(self, output: &mut O, status: Status) -> Status
        ensures text { status ≢ Status.Device → Says (O.written output.old) (O.written output.new) self.waits status result }
        ensures faults { status ≢ Status.Device → TellsWriteFaults (O.failures output.old) (O.failures output.new) result }
        ensures device { status ≡ Status.Device → (output.new ≡ output.old) × (result ≡ Status.Device) }
    {
        match status {
            Status::Device => Status::Device,
            _ => self.page.finish(output, status),
        }
    }
}

//! Events, kept in little room each.

ghost use Rattle.std.specs.Prelude.{◌≡◌, ◌-◌, ◌<◌, ◌≤◌, ◌++◌, ◌∷◌, [], length, slice_get, Some, OnOk};
ghost use Rattle.pb_history.specs.Kept.{whole as whole_event};

use pb_base::limits::MAX_PICKS;
use pb_base::{Bundle, Event, FaultKind, NoMemory, Pick};
use std::alloc::Global;
use std::marker::Model;

/// An event, which names its bundle by number, so that none takes more than 16 bytes.
#[derive(Clone, Copy)]
pub(crate) enum KeptEvent {
    Granted { pick: Pick, bundle: u32 },
    Returned { pick: Pick, bundle: u32 },
    Printed { pick: Pick, value: i64 },
    Faulted { pick: Pick, kind: FaultKind },
    Finished { process: u8 },
}

const _: () = prove!(size_of::<KeptEvent>() <= 16);

/// Events in their order. The bundles of grants and returns are kept apart, so that a print takes no room for
/// one.
#[derive(Drop)]
pub(crate) struct Events {
    events: Vec<KeptEvent>,
    bundles: Vec<Bundle>,
}

impl Model for Events {
    ghost use Rattle.pb_history.specs.Kept.{EventRow, events_in, AreKept};

    ghost Value = { EventRow };

    ghost view = { events_in };

    ghost invariant = { AreKept };
}

impl Events {
    /// Returns no events.
    pub(crate) fn new(alloc: Global) -> Events
        ensures { result.events ≡ [] }
    {
        Events {
            events: Vec::new(alloc),
            bundles: Vec::new(alloc),
        }
    }

    /// Returns how many events there are.
    pub(crate) fn len(&self) -> usize
        ensures { result ≡ length self.now.events }
    {
        self.events.len()
    }

    /// Returns the event with this number, counted from 0.
    pub(crate) fn get(&self, i: usize) -> Event
        requires { i < length self.now.events }
        ensures { slice_get self.now.events i ≡ Some result }
    {
        match self.events[i] {
            KeptEvent::Granted { pick, bundle } => Event::Granted {
                pick,
                bundle: self.bundles[bundle as usize],
            },
            KeptEvent::Returned { pick, bundle } => Event::Returned {
                pick,
                bundle: self.bundles[bundle as usize],
            },
            KeptEvent::Printed { pick, value } => Event::Printed { pick, value },
            KeptEvent::Faulted { pick, kind } => Event::Faulted { pick, kind },
            KeptEvent::Finished { process } => Event::Finished { process },
        }
    }

    /// Makes room for `more` further events.
    pub(crate) fn reserve(&mut self, more: usize) -> Result<(), NoMemory>
        ensures events { self.new.events ≡ self.old.events }
        ensures room { OnOk result (more ≤ self.new.room) }
        ensures more { self.old.room ≤ self.new.room }
    {
        self.events.reserve(more)?;
        self.bundles.reserve(more)?;
        Ok(())
    }

    /// Adds an event.
    pub(crate) fn push(&mut self, event: Event)
        requires room { 0 < self.old.room }
        requires few { length self.old.events < MAX_PICKS }
        ensures events { self.new.events ≡ self.old.events ++ event ∷ [] }
        ensures room { self.old.room - 1 ≤ self.new.room }
    {
        let next = self.bundles.len() as u32;
        let kept = match event {
            Event::Granted { pick, bundle } => {
                self.bundles.push_reserved(bundle);
                KeptEvent::Granted { pick, bundle: next }
            }
            Event::Returned { pick, bundle } => {
                self.bundles.push_reserved(bundle);
                KeptEvent::Returned { pick, bundle: next }
            }
            Event::Printed { pick, value } => KeptEvent::Printed { pick, value },
            Event::Faulted { pick, kind } => KeptEvent::Faulted { pick, kind },
            Event::Finished { process } => KeptEvent::Finished { process },
        };
        self.events.push_reserved(kept);
    }
}

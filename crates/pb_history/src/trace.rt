//! The picks that were made, and what each showed.

ghost use Rattle.std.specs.Prelude.{◌≡◌, ℕ, ◌+◌, ◌-◌, ◌<◌, ◌≤◌, ◌++◌, ◌∷◌, [], length, slice_get, option_to_list, Some, None, OnOk, OnErr};
ghost use Rattle.pb_history.specs.Entries.{Entry, IsRest, events_of, picks_of, run_of, silent_picks, spans_of};

use crate::counted::CountedPick;
use crate::events::Events;
use crate::span::Span;
use crate::spans::Spans;
use pb_base::limits::MAX_PICKS;
use pb_base::{Event, NoMemory, Pick};
use std::alloc::Global;
use std::marker::Model;

/// Picks in the order in which they were made, at most 10,000,000, each with its event or with none. They are
/// kept in spans: silent picks of one arm, and a pick of that arm which shows an event, are one span.
#[derive(Drop)]
pub struct Trace {
    spans: Spans,
    events: Events,
}

impl Model for Trace {
    ghost use Rattle.pb_history.specs.Traces.{Trail, trail_of, IsTrace};

    ghost Value = { Trail };

    ghost view = { trail_of };

    ghost invariant = { IsTrace };
}

impl Trace {
    /// Returns a trace of no picks. No memory is taken.
    pub fn new(alloc: Global) -> Trace
        ensures { result.entries ≡ [] }
    {
        Trace {
            spans: Spans::new(alloc),
            events: Events::new(alloc),
        }
    }

    /// Returns how many picks there are.
    pub fn len(&self) -> u32
        ensures { result ≡ length self.now.entries }
    {
        self.spans.len()
    }

    /// Returns the pick with this number, counted from 0. Its span is found by halving.
    pub fn pick(&self, i: u32) -> Pick
        requires { i < length self.now.entries }
        ensures { slice_get (picks_of self.now.entries) i ≡ Some result }
    {
        let rest = self.spans.rest(i);
        rest.pick
    }

    /// Returns the pick with this number, counted from 0, and how many picks its span has from there on. The
    /// span is found by halving.
    pub fn rest_of_span(&self, i: u32) -> CountedPick
        requires { i < length self.now.entries }
        ensures some { 0 < result.count }
        ensures picks { (k : ℕ) → k < result.count → slice_get (picks_of self.now.entries) (i + k) ≡ Some result.pick }
        ensures span { IsRest (spans_of self.now.entries) i result }
    {
        self.spans.rest(i)
    }

    /// Returns how many picks show an event.
    pub fn events_len(&self) -> usize
        ensures { result ≡ length (events_of self.now.entries) }
    {
        self.events.len()
    }

    /// Returns the event with this number, counted from 0, in the order of the picks.
    pub fn event(&self, i: usize) -> Event
        requires { i < length (events_of self.now.entries) }
        ensures { slice_get (events_of self.now.entries) i ≡ Some result }
    {
        self.events.get(i)
    }

    /// Returns how many spans there are. No two that follow one another could be one.
    pub fn spans_len(&self) -> usize
        ensures { result ≡ length (spans_of self.now.entries) }
    {
        self.spans.count()
    }

    /// Returns the span with this number, counted from 0. The event of a span that shows is that of the next
    /// such span.
    pub fn span(&self, i: usize) -> Span
        requires { i < length (spans_of self.now.entries) }
        ensures { slice_get (spans_of self.now.entries) i ≡ Some result }
    {
        self.spans.get(i)
    }

    /// Makes room for `more` further calls of `push_run`, `push_silent` and `push_shown`. The entries stay
    /// the same, even if out of memory, and there is no less room than before.
    pub fn reserve(&mut self, more: usize) -> Result<(), NoMemory>
        ensures same { self.new.entries ≡ self.old.entries }
        ensures room { OnOk result (more ≤ self.new.room) }
        ensures more { self.old.room ≤ self.new.room }
    {
        self.spans.reserve(more)?;
        self.events.reserve(more)
    }

    /// Adds a pick, with its event or with none. If out of memory, the trace is unchanged.
    pub fn push(&mut self, pick: Pick, event: Option<Event>) -> Result<(), NoMemory>
        requires { length self.old.entries < MAX_PICKS }
        ensures ok { OnOk result
            (self.new.entries ≡ self.old.entries ++ record { pick = pick; event = event } ∷ []) }
        ensures err { OnErr result (self.new.entries ≡ self.old.entries) }
        ensures room { OnErr result (self.old.room ≤ self.new.room) }
    {
        self.reserve(1)?;
        match event {
            Some(event) => self.push_shown(pick, event),
            None => self.push_silent(pick, 1),
        }
        Ok(())
    }

    /// Adds `count` picks of one arm that show nothing. If out of memory, the trace is unchanged.
    pub fn push_many(&mut self, pick: Pick, count: u32) -> Result<(), NoMemory>
        requires { length self.old.entries + count ≤ MAX_PICKS }
        ensures ok { OnOk result (self.new.entries ≡ self.old.entries ++ silent_picks pick count) }
        ensures err { OnErr result (self.new.entries ≡ self.old.entries) }
        ensures room { OnErr result (self.old.room ≤ self.new.room) }
    {
        self.reserve(1)?;
        self.push_silent(pick, count);
        Ok(())
    }

    /// Adds `count` picks of one arm that show nothing. There is room.
    pub fn push_silent(&mut self, pick: Pick, count: u32)
        requires room { 0 < self.old.room }
        requires fits { length self.old.entries + count ≤ MAX_PICKS }
        ensures entries { self.new.entries ≡ self.old.entries ++ silent_picks pick count }
        ensures room { self.old.room - 1 ≤ self.new.room }
    {
        self.push_run(pick, count, None);
    }

    /// Adds a pick and its event. There is room.
    pub fn push_shown(&mut self, pick: Pick, event: Event)
        requires room { 0 < self.old.room }
        requires fits { length self.old.entries < MAX_PICKS }
        ensures entries { self.new.entries
            ≡ self.old.entries ++ record { pick = pick; event = Some event } ∷ [] }
        ensures room { self.old.room - 1 ≤ self.new.room }
    {
        self.push_run(pick, 0, Some(event));
    }

    /// Adds `silent` picks of one arm that show nothing, and then, if there is an event, one of that arm
    /// which shows it. There is room.
    pub fn push_run(&mut self, pick: Pick, silent: u32, event: Option<Event>)
        requires room { 0 < self.old.room }
        requires fits { length self.old.entries + silent + length (option_to_list event) ≤ MAX_PICKS }
        ensures entries { self.new.entries ≡ self.old.entries ++ run_of pick silent event }
        ensures room { self.old.room - 1 ≤ self.new.room }
    {
        match event {
            Some(event) => {
                let count = silent + 1;
                self.spans.add(Span {
                    pick,
                    count,
                    shows: true,
                });
                self.events.push(event);
            }
            None if silent > 0 => self.spans.add(Span {
                pick,
                count: silent,
                shows: false,
            }),
            None => {}
        }
    }
}

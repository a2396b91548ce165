//! Spans, kept by where each ends.

ghost use Rattle.std.specs.Prelude.{◌≡◌, ℕ, ◌+◌, ◌-◌, ◌<◌, ◌≤◌, [], length, take, slice_get, Some, OnOk};
ghost use Rattle.pb_history.specs.Entries.{added, all_picks, size, IsRest};
ghost use Rattle.pb_history.specs.Ends.{goes_on};

use crate::counted::CountedPick;
use crate::span::{Span, are_same};
use pb_base::limits::MAX_PICKS;
use pb_base::{NoMemory, Pick};
use std::alloc::Global;
use std::marker::Model;

/// A span, by the number of its last pick, counted from 1 at the start of the trace.
#[derive(Clone, Copy)]
pub(crate) struct SpanEnd {
    pick: Pick,
    shows: bool,
    end: u32,
}

/// Spans that follow one another, with at most 10,000,000 picks.
#[derive(Drop)]
pub(crate) struct Spans {
    ends: Vec<SpanEnd>,
    len: u32,
}

impl Model for Spans {
    ghost use Rattle.pb_history.specs.Ends.{SpanRow, span_row, AreRising};

    ghost Value = { SpanRow };

    ghost view = { span_row };

    ghost invariant = { AreRising };
}

impl Spans {
    /// Returns no spans.
    pub(crate) fn new(alloc: Global) -> Spans
        ensures { result.spans ≡ [] }
    {
        Spans {
            ends: Vec::new(alloc),
            len: 0,
        }
    }

    /// Returns how many picks there are.
    pub(crate) fn len(&self) -> u32
        ensures { result ≡ size self.now.spans }
    {
        self.len
    }

    /// Returns how many spans there are.
    pub(crate) fn count(&self) -> usize
        ensures { result ≡ length self.now.spans }
    {
        self.ends.len()
    }

    /// Returns how many picks come before the span with this number.
    fn start(&self, i: usize) -> u32
        requires { i < length self.now.spans }
        ensures { result ≡ size (take i self.now.spans) }
    {
        if i == 0 {
            return 0;
        }
        let before = self.ends[i - 1];
        before.end
    }

    /// Returns the span with this number, counted from 0.
    pub(crate) fn get(&self, i: usize) -> Span
        requires { i < length self.now.spans }
        ensures { slice_get self.now.spans i ≡ Some result }
    {
        let SpanEnd { pick, shows, end } = self.ends[i];
        let count = end - self.start(i);
        Span { pick, count, shows }
    }

    /// Returns the pick with this number, counted from 0, and how many picks its span has from there on. The
    /// span is found by halving.
    pub(crate) fn rest(&self, i: u32) -> CountedPick
        requires { i < size self.now.spans }
        ensures some { 0 < result.count }
        ensures picks { (k : ℕ) → k < result.count → slice_get (all_picks self.now.spans) (i + k) ≡ Some result.pick }
        ensures span { IsRest self.now.spans i result }
    {
        let mut low = 0;
        let mut high = self.ends.len();
        while low < high {
            let mid = low + (high - low) / 2;
            let span = self.ends[mid];
            if span.end <= i {
                low = mid + 1;
            } else {
                high = mid;
            }
        }
        let SpanEnd { pick, end, .. } = self.ends[low];
        let count = end - i;
        CountedPick { pick, count }
    }

    /// Makes room for `more` further spans.
    pub(crate) fn reserve(&mut self, more: usize) -> Result<(), NoMemory>
        ensures spans { self.new.spans ≡ self.old.spans }
        ensures room { OnOk result (more ≤ self.new.room) }
        ensures more { self.old.room ≤ self.new.room }
    {
        self.ends.reserve(more)?;
        Ok(())
    }

    /// Adds picks of one arm, to the last span if that is of the same arm and shows nothing.
    pub(crate) fn add(&mut self, span: Span)
        requires room { 0 < self.old.room }
        requires some { 0 < span.count }
        requires fits { size self.old.spans + span.count ≤ MAX_PICKS }
        ensures spans { self.new.spans ≡ added self.old.spans span }
        ensures room { self.old.room + length self.old.spans ≡ self.new.room + length self.new.spans }
    {
        if continues(&self.ends, span.pick) {
            self.ends.pop();
        }
        self.len += span.count;
        let Span { pick, shows, .. } = span;
        let end = self.len;
        self.ends.push_reserved(SpanEnd { pick, shows, end });
    }
}

/// Returns whether picks of this arm belong to the last span.
fn continues(ends: &[SpanEnd], pick: Pick) -> bool
    ensures { result ≡ goes_on ends.now pick }
{
    match ends.last() {
        Some(last) => !last.shows && are_same(last.pick, pick),
        None => false,
    }
}

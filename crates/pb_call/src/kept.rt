//! An input that keeps what was read of it.

ghost use Rattle.std.specs.Prelude.{◌≡◌, option_map, ◌≤◌, ◌⊎◌, [], Some, take, length, IfOk, IfSome, OnOk, OnErr};
ghost use Rattle.pb_base.specs.Device.{dropped, one_more_failure, GivesNext};
ghost use Rattle.pb_call.specs.Kept.{IsAdded, KeepsMore};

use pb_base::limits::MAX_INPUT;
use pb_base::{DeviceFault, Input};
use std::alloc::Global;
use std::marker::Model;

/// The most bytes that are kept: those of the longest two parts before the commands of `debug --live`, and one
/// more. Of any other command an input is too long with fewer.
const MAX_KEPT: usize = 2 * MAX_INPUT + 1;

/// An input that gives what another one gives, and keeps the first 8,388,609 bytes of it, so that a fault in
/// them can be shown when the command has ended. If out of memory for them it forgets them, and goes on.
#[derive(Drop)]
pub struct KeptInput<I: Input> {
    inner: I,
    kept: Option<Vec<u8>>,
    room: usize,
}

impl<I: Input> Model for KeptInput<I> {
    ghost use Rattle.std.specs.Prelude.{option_map};
    ghost use Rattle.pb_call.specs.Kept.{KeptSource};

    ghost Value = { KeptSource };

    ghost view = { λ s. record { rest = I.rest s.inner; failures = I.failures s.inner; kept = option_map (λ v. v.items) s.kept; room = s.room } };
}

impl<I: Input> KeptInput<I> {
    /// Returns an input that gives what this one gives, of which nothing was read yet.
    pub fn new(alloc: Global, inner: I) -> KeptInput<I>
        ensures { result ≡ record { rest = I.rest inner; failures = I.failures inner; kept = Some []; room = 8388609 } }
    {
        KeptInput {
            inner,
            kept: Some(Vec::new(alloc)),
            room: MAX_KEPT,
        }
    }

    /// Returns the first bytes that were read, at most 8,388,609, or nothing if out of memory to keep them.
    pub fn kept(&self) -> Option<&[u8]>
        ensures { option_map (λ bytes. bytes.now) result ≡ self.now.kept }
    {
        match &self.kept {
            Some(bytes) => Some(bytes.as_slice()),
            None => None,
        }
    }

    /// Keeps bytes that were read, as many as there is room for.
    fn keep(&mut self, given: &[u8])
        ensures rest { self.new.rest ≡ self.old.rest }
        ensures failures { self.new.failures ≡ self.old.failures }
        ensures kept { KeepsMore self.old self.new given.now }
    {
        let count = self.room.min(given.len());
        self.room = self.room.saturating_sub(given.len());
        put(&mut self.kept, &given[..count]);
    }
}

/// Puts bytes after those that are kept, or keeps none if out of memory for them.
fn put(kept: &mut Option<Vec<u8>>, bytes: &[u8])
    ensures { IsAdded bytes.now (option_map (λ v. v.items) kept.old) (option_map (λ v. v.items) kept.new) }
{
    let Some(all) = kept else {
        return;
    };
    if all.extend_from_slice(bytes).is_err() {
        *kept = None;
    }
}

impl<I: Input> Input for KeptInput<I> {
    ghost rest = { λ s. s.rest };

    ghost failures = { λ s. s.failures };

    fn read(&mut self, buf: &mut [u8]) -> Result<usize, DeviceFault>
        ensures bound { IfOk result (λ n. n ≤ length buf.new) }
        ensures given { IfOk result (λ n. GivesNext self.old.rest buf.new n) }
        ensures taken { IfOk result (λ n. self.new.rest ≡ dropped self.old.rest n) }
        ensures end { IfOk result (λ n. n ≡ 0 →
            (buf.new ≡ []) ⊎ IfSome self.old.rest (λ bytes. bytes ≡ [])) }
        ensures counted { OnOk result (self.new.failures ≡ self.old.failures) }
        ensures fault { OnErr result ((self.new.rest ≡ self.old.rest)
            × (self.new.failures ≡ one_more_failure self.old.failures)) }
        ensures kept { IfOk result (λ n. KeepsMore self.old self.new (take n buf.new)) }
        ensures unread { OnErr result ((self.new.kept ≡ self.old.kept) × (self.new.room ≡ self.old.room)) }
    {
        let count = self.inner.read(buf)?;
        self.keep(&buf[..count]);
        Ok(count)
    }
}

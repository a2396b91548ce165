//! Capitals that stand in place of those of a text.

ghost use Rattle.std.specs.Prelude.{◌≤◌};
ghost use Rattle.pb_base.specs.declared.limits.TheConstants.{MAX_RESOURCES as MOST};

use crate::change::Change;
use arrayvec::ArrayString;
use pb_base::limits::MAX_RESOURCES;

/// Up to 16 capitals that stand in place of those of a text, in the order in which they were named.
#[derive(Clone, Copy, Debug, PartialEq, Eq)]
pub struct Changes {
    len: usize,
    list: [Change; MAX_RESOURCES],
    pub ghost fits: { len ≤ MOST },
}

impl Changes {
    ghost use Rattle.std.specs.Prelude.{◌≡◌, ◌<◌, ◌++◌, [], ◌∷◌, IsTrue, length};
    ghost use Rattle.std.specs.Str.{bytes_eq};
    ghost use Rattle.pb_capitals.specs.Changes.{capital_under, changes_in};

    /// Returns no changes.
    pub fn none() -> Self
        ensures { changes_in result ≡ [] }
    {
        let no_change = Change {
            resource: ArrayString::new(),
            capital: 0,
        };
        Changes {
            len: 0,
            list: [no_change; MAX_RESOURCES],
        }
    }

    /// Returns the changes.
    pub fn as_slice(&self) -> &[Change]
        ensures { result.now ≡ changes_in self.now }
    {
        &self.list[..self.len]
    }

    /// Adds a change.
    pub fn push(&mut self, change: Change)
        requires { length (changes_in self.old) < MOST }
        ensures { changes_in self.new ≡ changes_in self.old ++ change ∷ [] }
    {
        self.list[self.len] = change;
        self.len += 1;
    }

    /// Returns the capital of the resource of this name, of which a text has so much: that of the change which names it,
    /// or else its own.
    pub fn capital_under(&self, name: &[u8], own: u32) -> u32
        ensures { result ≡ capital_under (changes_in self.now) name.now own }
    {
        match self
            .as_slice()
            .iter()
            .find(|change| change.resource.as_str().as_bytes() == name)
        {
            Some(change) => change.capital,
            None => own,
        }
    }
}

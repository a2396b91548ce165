//! What a request asks for.

ghost use Rattle.std.specs.Prelude.{◌≡◌, ◌≢◌, ◌+◌, ◌<◌, ◌≤◌, [], ◌∷◌, ◌++◌, length, All, slice_get, Some};

use crate::limits::MAX_PAIRS;
use crate::pair::Pair;
use std::marker::Model;

const NO_PAIR: Pair = Pair {
    resource: 0,
    amount: 0,
};

/// Amounts of up to 16 resources, no resource twice, in the order in which they were named.
#[derive(Clone, Copy, Debug, PartialEq, Eq)]
pub struct Bundle {
    len: usize,
    pairs: [Pair; MAX_PAIRS],
}

impl Model for Bundle {
    ghost use Rattle.std.specs.Prelude.{List};
    ghost use Rattle.pb_base.specs.declared.pair.Pair.{Pair};

    ghost Value = { List Pair };

    ghost use Rattle.pb_base.specs.Padding.{pairs_in, IsPadded, unpadded, unpadded-pairs_in};

    ghost view = { pairs_in };

    ghost invariant = { IsPadded };

    ghost inverse = { unpadded };

    ghost inverse_ok = { unpadded-pairs_in };
}

impl Bundle {
    ghost use Rattle.pb_base.specs.Bundle.{IsDistinct};

    /// Returns one amount of one resource.
    pub fn one(resource: u8, amount: u32) -> Self
        ensures { result ≡ record { resource = resource; amount = amount } ∷ [] }
    {
        let mut pairs = [NO_PAIR; MAX_PAIRS];
        pairs[0] = Pair { resource, amount };
        Bundle { len: 1, pairs }
    }

    /// Adds a resource that is not there yet.
    pub fn push(&mut self, pair: Pair)
        requires room { length self.old < MAX_PAIRS }
        requires new { All (λ p. p.resource ≢ pair.resource) self.old }
        ensures { self.new ≡ self.old ++ pair ∷ [] }
    {
        self.pairs[self.len] = pair;
        self.len += 1;
    }

    /// Returns the number of pairs, from 1 to 16.
    pub fn len(&self) -> usize
        ensures len { result ≡ length self.now }
        ensures some { 0 < result }
        ensures few { result ≤ MAX_PAIRS }
        ensures distinct { IsDistinct self.now }
    {
        self.len
    }

    /// Returns the pair at a place, counted from 0.
    pub fn get(&self, i: usize) -> Pair
        requires { i < length self.now }
        ensures { slice_get self.now i ≡ Some result }
    {
        let pairs = &self.pairs;
        pairs[i]
    }
}

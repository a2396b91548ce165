//! How high a tree is, and how many nodes it has.

ghost use Rattle.std.specs.Prelude.{◌≡◌, ℕ, ◌+◌, max};
ghost use Rattle.pb_parser.specs.Measured.{IsMeasure};

/// A height and a count of nodes; each stays at the greatest `u64`.
#[derive(Clone, Copy)]
pub(crate) struct Measure {
    pub(crate) height: u64,
    pub(crate) nodes: u64,
}

impl Measure {
    pub(crate) const NOTHING: Measure = Measure {
        height: 0,
        nodes: 0,
    };

    pub(crate) const LEAF: Measure = Measure {
        height: 1,
        nodes: 1,
    };

    /// Returns the measure of two trees beside one another.
    pub(crate) fn beside(self, other: Measure) -> Measure
        ensures { (h n k m : ℕ) → IsMeasure self h n → IsMeasure other k m
            → IsMeasure result (max h k) (n + m) }
    {
        Measure {
            height: self.height.max(other.height),
            nodes: self.nodes.saturating_add(other.nodes),
        }
    }

    /// Returns the measure with one more node, not higher.
    pub(crate) fn with_node(self) -> Measure
        ensures { (h n : ℕ) → IsMeasure self h n → IsMeasure result h (1 + n) }
    {
        Measure {
            height: self.height,
            nodes: self.nodes.saturating_add(1),
        }
    }

    /// Returns the measure with one more node, on top of all.
    pub(crate) fn under_node(self) -> Measure
        ensures { (h n : ℕ) → IsMeasure self h n → IsMeasure result (1 + h) (1 + n) }
    {
        Measure {
            height: self.height.saturating_add(1),
            nodes: self.nodes.saturating_add(1),
        }
    }
}

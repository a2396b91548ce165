//! What a text is compiled to.

ghost use Rattle.std.specs.Prelude.{◌≡◌};
ghost use Rattle.pb_code.specs.Limits.{AreLabels};
ghost use Rattle.pb_code.specs.View.{labels_view};

use pb_code::Labels;
use pb_verifier::Verified;
use std::marker::Model;

/// The code of a text, and the labels of its places. The labels fit the code.
#[derive(Drop)]
pub struct Compiled {
    pub(crate) verified: Verified,
    pub(crate) labels: Labels,
}

impl Model for Compiled {
    ghost use Rattle.pb_code.specs.Limits.{AreLabels};
    ghost use Rattle.pb_code.specs.View.{labels_view};
    ghost use Rattle.pb_codegen.specs.Compiled.{CompiledText};

    ghost Value = { CompiledText };

    ghost view = { λ c. record { verified = c.verified; labels = labels_view c.labels } };

    ghost invariant = { λ c. AreLabels c.verified.code (labels_view c.labels) };
}

impl Compiled {
    /// Returns the code.
    pub fn verified(&self) -> &Verified
        ensures { result.now ≡ self.now.verified }
    {
        &self.verified
    }

    /// Returns the source line of each place of the code, and the names of the integers.
    pub fn labels(&self) -> &Labels
        ensures labels { labels_view result.now ≡ self.now.labels }
        ensures fit { AreLabels self.now.verified.code self.now.labels }
    {
        &self.labels
    }

    /// Returns the code and the labels.
    pub fn into_parts(self) -> (Verified, Labels)
        ensures verified { result.0 ≡ self.verified }
        ensures labels { labels_view result.1 ≡ self.labels }
        ensures fit { AreLabels self.verified.code self.labels }
    {
        let Compiled { verified, labels } = self;
        (verified, labels)
    }
}

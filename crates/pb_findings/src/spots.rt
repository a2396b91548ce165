//! The places of a refusal.

ghost use Rattle.std.specs.Prelude.{◌≡◌};
ghost use Rattle.pb_findings.specs.Spots.{spots_listed, spots_of};

use crate::refusal::Refusal;
use crate::spot::Spot;

/// The places of a refusal that has some.
#[derive(Clone, Copy)]
pub struct Spots<'r> {
    /// The first one.
    pub first: &'r Spot,
    /// Those after it.
    pub others: &'r [Spot],
}

/// Returns the first place, and those after it.
fn spots_in(places: &[Spot]) -> Option<Spots<'_>>
    ensures { spots_listed result ≡ places.now }
{
    match places {
        [first, others @ ..] => Some(Spots { first, others }),
        [] => None,
    }
}

/// Returns the places of a refusal: that of its offset comes first, if it has one.
pub fn places(refusal: &Refusal) -> Option<Spots<'_>>
    ensures { spots_listed result ≡ spots_of refusal.now }
{
    match &refusal.first {
        Some(first) => Some(Spots {
            first,
            others: &refusal.others,
        }),
        None => spots_in(&refusal.others),
    }
}

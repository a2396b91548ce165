//! The bundles that the instructions of a process name.

ghost use Rattle.std.specs.Prelude.{◌≡◌, ◌<◌, ◌≤◌, length, slice_get, Some};
ghost use Rattle.pb_base.specs.Bundle.{IsDistinct};
ghost use Rattle.pb_code.specs.Bundles.{bundle_of};

use crate::code::ProcessCode;
use pb_base::Pair;
use pb_base::limits::MAX_PAIRS;

/// Returns the number of pairs of a bundle, 0 if there is no such bundle.
pub fn pairs(code: &ProcessCode, bundle: u16) -> usize
    ensures len { result ≡ length (bundle_of code.now bundle) }
    ensures few { result ≤ MAX_PAIRS }
    ensures distinct { IsDistinct (bundle_of code.now bundle) }
{
    match code.bundles.get(bundle as usize) {
        Some(bundle) => bundle.len(),
        None => 0,
    }
}

/// Returns a pair of a bundle.
pub fn pair_at(code: &ProcessCode, bundle: u16, i: usize) -> Pair
    requires { i < length (bundle_of code.now bundle) }
    ensures { slice_get (bundle_of code.now bundle) i ≡ Some result }
{
    code.bundles[bundle as usize].get(i)
}

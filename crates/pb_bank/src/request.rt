//! What the words of a request say.

ghost use Rattle.std.specs.Prelude.{◌≡◌, ◌<◌, ◌≤◌, ◌*◌, length, map, All, IfOk};
ghost use Rattle.pb_bank.specs.Requests as spec;
ghost use Rattle.pb_bank.specs.Words.{words_of};

use crate::refusal::Refusal;
use crate::words::{amount_of, first_word, is_comma, place_of, two_words};
use pb_base::limits::{MAX_PAIRS, MAX_RESOURCES};
use pb_base::{Bundle, Pair};

/// The slot of a job, and what it asks for.
#[derive(Clone, Copy)]
pub struct Request {
    pub job: usize,
    pub bundle: Bundle,
}

/// Returns an amount of the resource of this name, which are the two words after that with this number.
fn pair_of(names: &[Vec<u8>], at: usize, amount: &[u8], resource: &[u8]) -> Result<Pair, Refusal>
    requires few { length names.now ≤ MAX_RESOURCES }
    requires number { at ≤ 3 * MAX_PAIRS }
    ensures said { result ≡ spec.pair_of (map (λ name. name.items) names.now) at amount.now resource.now }
    ensures below { IfOk result (λ pair. pair.resource < length names.now) }
{
    let Some(amount) = amount_of(amount) else {
        return Err(Refusal::Amount(at + 1));
    };
    let Some(r) = place_of(names, resource) else {
        return Err(Refusal::NoResource(at + 2));
    };
    Ok(Pair {
        resource: r as u8,
        amount,
    })
}

/// Returns whether a bundle has this resource.
fn has(bundle: &Bundle, resource: u8) -> bool
    ensures { result ≡ spec.has_resource bundle.now resource }
{
    for i in 0..bundle.len() {
        if bundle.get(i).resource == resource {
            return true;
        }
    }
    false
}

/// Returns whether the resource of a pair is not named yet.
fn is_new(bundle: &Bundle, pair: Pair) -> bool
    ensures { result ≡ spec.is_new bundle.now pair }
{
    !has(bundle, pair.resource) && bundle.len() < MAX_PAIRS
}

/// Returns the pairs that words say: `K R`, or several with commas between.
pub(crate) fn bundle_of(names: &[Vec<u8>], text: &[u8]) -> Result<Bundle, Refusal>
    requires { length names.now ≤ MAX_RESOURCES }
    ensures said { result ≡ spec.pairs_of (map (λ name. name.items) names.now) (words_of text.now) }
    ensures below { IfOk result (All (λ pair. pair.resource < length names.now)) }
{
    let Some(words) = two_words(text) else {
        return Err(Refusal::Command);
    };
    let pair = match pair_of(names, 0, words.first, words.second) {
        Ok(pair) => pair,
        Err(refusal) => return Err(refusal),
    };
    let mut bundle = Bundle::one(pair.resource, pair.amount);
    let mut rest = words.rest;
    loop {
        let comma = first_word(rest);
        if comma.word.is_empty() {
            return Ok(bundle);
        }
        let place = 3 * bundle.len();
        if !is_comma(comma.word) {
            return Err(Refusal::NoComma(place));
        }
        let Some(words) = two_words(comma.rest) else {
            return Err(Refusal::Command);
        };
        let pair = match pair_of(names, place, words.first, words.second) {
            Ok(pair) => pair,
            Err(refusal) => return Err(refusal),
        };
        if !is_new(&bundle, pair) {
            return Err(Refusal::Twice(pair.resource as usize));
        }
        bundle.push(pair);
        rest = words.rest;
    }
}

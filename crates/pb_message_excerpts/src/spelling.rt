//! How near two words are, for words that are probably misspelt.

ghost use Rattle.std.specs.Prelude.{◌≡◌, ◌+◌, None, IfOk, length, map};
ghost use Rattle.pb_message_excerpts.specs.Spelling as spec;
ghost use Rattle.pb_message_excerpts.specs.Spelling.{distance, is_near as is_near_spec, nearest as nearest_spec};

use std::alloc::{AllocError, Global};
use strsim::osa_distance;

/// Returns how many edits a word may be away from one that is near it.
fn most_edits(word: &str) -> usize
    ensures { result ≡ spec.most_edits (length word.now) }
{
    if word.len() <= 4 { 1 } else { 2 }
}

/// Returns whether a word is near another one.
pub fn is_near(alloc: Global, word: &str, other: &str) -> Result<bool, AllocError>
    ensures { IfOk result (λ is. is ≡ is_near_spec word.now other.now) }
{
    Ok(osa_distance(alloc, word, other)? <= most_edits(word))
}

/// Returns the number of the word that is nearest to a word, the first of several; nothing if none is near.
#[tactic(auto, unfolding(crate::specs::Spelling::nearest_from))]
pub fn nearest(alloc: Global, word: &str, others: &[&str]) -> Result<Option<usize>, AllocError>
    ensures { IfOk result (λ found. found ≡ nearest_spec word.now (map (λ other. other.now) others.now)) }
{
    let mut best = None;
    let mut bound = most_edits(word) + 1;
    let mut number = 0usize;
    for other in others {
        let distance = osa_distance(alloc, word, other)?;
        if distance < bound {
            bound = distance;
            best = Some(number);
        }
        number = number.saturating_add(1);
    }
    Ok(best)
}

//! Reads capitals that stand in place of those of a text.

ghost use Rattle.std.specs.Prelude.{◌≡◌, List, IfNone, IfSome, map};
ghost use Rattle.pb_capitals.specs.Changes.{AreChanges, IsChange, changes_in, names};
ghost use Rattle.pb_capitals.specs.declared.change.Change.{Change as AnyChange};

use crate::change::Change;
use crate::changes::Changes;
use arrayvec::ArrayString;
use pb_base::limits::{MAX_AMOUNT, MAX_RESOURCES};
use pb_code::is_name;

/// Reads a word such as `tape=2`.
fn change_of(word: &str) -> Option<Change>
    ensures some { IfSome result (IsChange word.now) }
    ensures none { IfNone result ((change : AnyChange) → IsChange word.now change → ⊥) }
{
    let (name, number) = word.split_once('=')?;
    if !is_name(name.as_bytes()) {
        return None;
    }
    let Ok(resource) = ArrayString::from(name) else {
        return None;
    };
    let Ok(capital) = number.parse::<u32>() else {
        return None;
    };
    if capital > MAX_AMOUNT {
        return None;
    }
    Some(Change { resource, capital })
}

/// Returns whether some change names this resource.
fn is_named(changes: &[Change], resource: &str) -> bool
    ensures { result ≡ names changes.now resource.now }
{
    changes
        .iter()
        .any(|change| change.resource.as_str() == resource)
}

/// Reads words such as `tape=2`: at most 16, no resource twice.
pub fn changes_of(words: &[&str]) -> Option<Changes>
    ensures some { IfSome result (λ changes. AreChanges (map (λ word. word.now) words.now) (changes_in changes)) }
    ensures none { IfNone result ((changes : List AnyChange) → AreChanges (map (λ word. word.now) words.now) changes → ⊥) }
{
    if words.len() > MAX_RESOURCES {
        return None;
    }
    let mut changes = Changes::none();
    for word in words {
        let change = change_of(word)?;
        if is_named(changes.as_slice(), change.resource.as_str()) {
            return None;
        }
        changes.push(change);
    }
    Some(changes)
}

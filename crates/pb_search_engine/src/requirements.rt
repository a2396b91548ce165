//! What a text has to have beside its prints: the line that says it, and whether it is met.

ghost use Rattle.std.specs.Prelude.{◌≡◌, ◌≢◌, ◌<◌, ◌↔◌, ◌++◌, ℕ, List, IfNone, IfSome, MatchOption, codes, length, pos, true};
ghost use Rattle.std.specs.Fmt.{decimal};
ghost use Rattle.std.specs.List.{list_any};
ghost use Rattle.pb_base.specs.Steppers.{Bundle};
ghost use Rattle.pb_base.specs.declared.limits.TheConstants.{MAX_AMOUNT as MOST};
ghost use Rattle.pb_code.specs.Limits.{IsUpTo, KeepsLimits};
ghost use Rattle.pb_code.specs.View.{code_view, instr_view, process_view};
ghost use Rattle.pb_search_engine.specs.Requirements as spec;
ghost use Rattle.pb_search_engine.specs.declared.requirements.Part.{Part as AnyPart};
ghost use Rattle.pb_search_engine.specs.declared.requirements.Requirement.{Requirement as AnyRequirement};

use crate::print_lines::{after, split_first, value_of};
use pb_base::limits::MAX_AMOUNT;
use pb_code::{Code, Instr, ProcessCode, is_name};

/// What a process may have to have.
#[derive(Clone, Copy, Debug, PartialEq, Eq)]
pub enum Part {
    /// A parbegin.
    Parbegin,
    /// A hold.
    Hold,
}

/// What a text has to have beside its prints.
#[derive(Clone, Copy)]
pub enum Requirement<'t> {
    /// Some process claims at least this amount of the resource with this name.
    Claims { amount: u32, resource: &'t [u8] },
    /// Some process has this part.
    Has(Part),
}

/// Returns the requirement that a line says, if it says one.
pub fn requirement_of(line: &[u8]) -> Option<Requirement<'_>>
    ensures { MatchOption result ((r : AnyRequirement) → spec.SpellsRequirement line.now r → ⊥)
        (λ r. spec.SpellsRequirement line.now r) }
{
    match part_of(line) {
        Some(part) => Some(Requirement::Has(part)),
        None => {
            let (amount, resource) = claim_of(line)?;
            Some(Requirement::Claims { amount, resource })
        }
    }
}

/// Returns the part that a line requires, if it requires one.
fn part_of(line: &[u8]) -> Option<Part>
    ensures { MatchOption result ((part : AnyPart) → line.now ≢ spec.part_text part) (λ part. line.now ≡ spec.part_text part) }
{
    if line == part_words(Part::Parbegin) {
        return Some(Part::Parbegin);
    }
    if line == part_words(Part::Hold) {
        return Some(Part::Hold);
    }
    None
}

/// Returns how it is written that some process has a part.
pub(crate) fn part_words(part: Part) -> &'static [u8]
    ensures { result.now ≡ spec.part_text part }
{
    match part {
        Part::Parbegin => b"has a parbegin",
        Part::Hold => b"has a hold",
    }
}

/// Returns the amount and the name of a resource of a line, if it requires a claim.
fn claim_of(line: &[u8]) -> Option<(u32, &[u8])>
    ensures { MatchOption result
        ((amount : ℕ) (name : List ℕ) → spec.MayBeClaimed amount name
        → line.now ≢ codes "claims at least " ++ spec.claim_text amount name)
        (λ x. spec.MayBeClaimed x.0 x.1.now × (line.now ≡ codes "claims at least " ++ spec.claim_text x.0 x.1.now)) }
{
    let rest = after(line, b"claims at least ")?;
    amount_and_name(rest)
}

/// Returns the amount and the name that a text is, as `K R`, if it is so.
fn amount_and_name(text: &[u8]) -> Option<(u32, &[u8])>
    ensures { MatchOption result
        ((amount : ℕ) (name : List ℕ) → spec.MayBeClaimed amount name → text.now ≢ spec.claim_text amount name)
        (λ x. spec.MayBeClaimed x.0 x.1.now × (text.now ≡ spec.claim_text x.0 x.1.now)) }
{
    let (word, name) = split_first(text, b' ')?;
    let amount = amount_of(word)?;
    if !is_name(name) {
        return None;
    }
    Some((amount, name))
}

/// Returns the amount that a word is, if it is one as it is written.
fn amount_of(word: &[u8]) -> Option<u32>
    ensures { MatchOption result ((amount : ℕ) → IsUpTo MOST amount → word.now ≢ decimal amount)
        (λ amount. IsUpTo MOST amount × (word.now ≡ decimal amount)) }
{
    let value = value_of(word)?;
    as_amount(value)
}

/// Returns an integer as an amount from 1 to 1,000,000, if it is one.
fn as_amount(value: i64) -> Option<u32>
    ensures some { IfSome result (λ amount. (value ≡ pos amount) × IsUpTo MOST amount) }
    ensures none { IfNone result ((amount : ℕ) → IsUpTo MOST amount → value ≢ pos amount) }
{
    if value < 1 || value > i64::from(MAX_AMOUNT) {
        return None;
    }
    Some(value as u32)
}

/// Returns the first requirement that is not met, if there is one.
pub(crate) fn first_unmet<'t>(
    code: &Code,
    requirements: &[Requirement<'t>],
) -> Option<Requirement<'t>>
    requires { KeepsLimits (code_view code.now) }
    ensures some { IfSome result (λ r. spec.IsFirstUnmet (code_view code.now) requirements.now r) }
    ensures none { IfNone result (spec.AreMet (code_view code.now) requirements.now) }
{
    for i in 0..requirements.len() {
        if !is_met(code, requirements[i]) {
            return Some(requirements[i]);
        }
    }
    None
}

/// Returns whether a requirement is met.
fn is_met(code: &Code, requirement: Requirement<'_>) -> bool
    requires { KeepsLimits (code_view code.now) }
    ensures { (result ≡ true) ↔ spec.IsMet (code_view code.now) requirement.entry }
{
    match requirement {
        Requirement::Claims { amount, resource } => is_claimed(code, amount, resource),
        Requirement::Has(part) => some_has(code, part),
    }
}

/// Returns whether some process claims at least this amount of a resource with this name.
fn is_claimed(code: &Code, amount: u32, name: &[u8]) -> bool
    requires { KeepsLimits (code_view code.now) }
    ensures { (result ≡ true) ↔ spec.IsClaimed (code_view code.now) amount name.now }
{
    for r in 0..code.names.resources.len() {
        if code.names.resources[r].as_slice() == name && some_claims(code, amount, r) {
            return true;
        }
    }
    false
}

/// Returns whether some process claims at least this amount of the resource with this number.
fn some_claims(code: &Code, amount: u32, resource: usize) -> bool
    requires limits { KeepsLimits (code_view code.now) }
    requires there { resource < length (code_view code.now).names.resources }
    ensures { (result ≡ true) ↔ spec.SomeClaims (code_view code.now) amount resource }
{
    for p in 0..code.processes.len() {
        if code.claims.get(p, resource) >= u64::from(amount) {
            return true;
        }
    }
    false
}

/// Returns whether some process has a part.
fn some_has(code: &Code, part: Part) -> bool
    ensures { result ≡ list_any (spec.has_part part) (code_view code.now).processes }
{
    for p in 0..code.processes.len() {
        if has(&code.processes[p], part) {
            return true;
        }
    }
    false
}

/// Returns whether a process has a part.
fn has(process: &ProcessCode, part: Part) -> bool
    ensures { result ≡ spec.has_part part (process_view process.now) }
{
    for i in 0..process.instrs.len() {
        if is_of(part, process.instrs[i]) {
            return true;
        }
    }
    false
}

/// Returns whether an instruction is one of a part.
fn is_of(part: Part, instr: Instr) -> bool
    ensures { (bundles : List Bundle) → result ≡ spec.is_of part (instr_view bundles instr) }
{
    match part {
        Part::Parbegin => matches!(instr, Instr::Fork { .. }),
        Part::Hold => matches!(instr, Instr::Take(_)),
    }
}

//! The lines of an object other than places.

ghost use Rattle.std.specs.Prelude.{◌≡◌, ◌<◌, ◌≤◌, ◌^◌, ◌-◌, ◌∷◌, [], length, map, cond, IfOk, Some, None, codes};
ghost use Rattle.std.specs.Fmt.{decimal};
ghost use Rattle.std.specs.List.{list_all};
ghost use Rattle.std.specs.Option.{option_map};
ghost use Rattle.pb_object.specs.Lines.{Gives, line_by};
ghost use Rattle.pb_object.specs.Ranges.{plain_names as plain_names_spec};
ghost use Rattle.pb_object.specs.Reading as spec;
ghost use Rattle.pb_object.specs.Rows.{resource_row, named};
ghost use Rattle.pb_object.specs.Words.{mapped, numbers, are_new, IsBetween};
ghost use Rattle.pb_code.specs.Names.{is_among, is_name as is_name_spec};

use crate::fault::{Fault, ReadError};
use crate::instr_reader::alone;
use crate::rows::{ProcessRow, ResourceRow};
use crate::words::{Verdict, copy_of, is, judge_line, number, same, saturated, words_of};
use itoa::Buffer;
use pb_base::limits::{MAX_AMOUNT, MAX_INTEGERS};
use pb_code::{Format, is_name, is_numeral};
use std::alloc::{AllocError, Global};

fn heading(words: &[&[u8]]) -> Verdict<Format>
    ensures { result ≡ spec.heading (map (λ w. w.now) words.now) }
{
    match words {
        [keyword, digit] if is(keyword, "PBO") => {
            if is(digit, "1") {
                Verdict::Read(Format::One)
            } else if is(digit, "2") {
                Verdict::Read(Format::Two)
            } else {
                Verdict::Malformed
            }
        }
        _ => Verdict::Malformed,
    }
}

/// Returns the format that the first line names, and what follows it.
#[tactic(auto, unfolding(crate::specs::Lines::line_by))]
pub(crate) fn heading_at(alloc: Global, text: &[u8]) -> Result<(Format, &[u8]), ReadError>
    ensures { Gives (λ x. (x.0, x.1.now)) result (line_by spec.heading text.now) }
{
    let (words, rest) = words_of(alloc, text)?;
    judge_line(text.len(), heading(&words), rest)
}

// ---- a keyword and a number

fn counted(key: &str, low: u64, high: u64, words: &[&[u8]]) -> Verdict<u64>
    requires { high < 2 ^ 64 - 1 }
    ensures number { result ≡ spec.counted key.now low high (map (λ w. w.now) words.now) }
    ensures range { IsBetween low high result }
{
    match words {
        [keyword, words @ ..] if is(keyword, key) => alone(low, high, words),
        _ => Verdict::Malformed,
    }
}

/// Returns the number after a keyword, and what follows the line.
#[tactic(auto, unfolding(crate::specs::Lines::line_by))]
pub(crate) fn counted_at<'t>(
    alloc: Global,
    key: &str,
    low: u64,
    high: u64,
    text: &'t [u8],
) -> Result<(u64, &'t [u8]), ReadError>
    requires { high < 2 ^ 64 - 1 }
    ensures number { Gives (λ x. (x.0, x.1.now)) result (line_by (spec.counted key.now low high) text.now) }
    ensures range { IfOk result (λ x. (low ≤ x.0) × (x.0 ≤ high)) }
{
    let (words, rest) = words_of(alloc, text)?;
    judge_line(text.len(), counted(key, low, high, &words), rest)
}

// ---- resources

fn has_resource(resources: &[ResourceRow], name: &[u8]) -> bool
    ensures { result ≡ is_among (map (λ r. r.name) (map resource_row resources.now)) name.now }
{
    for other in resources {
        if same(name, &other.name) {
            return true;
        }
    }
    false
}

/// Returns what a line says of a resource, after those before it.
fn resource(
    alloc: Global,
    earlier: &[ResourceRow],
    words: &[&[u8]],
) -> Result<Verdict<ResourceRow>, AllocError>
    ensures { IfOk result (λ v. mapped resource_row v
        ≡ spec.resource (map resource_row earlier.now) (map (λ w. w.now) words.now)) }
{
    match words {
        [keyword, name, capital] if is(keyword, "resource") => {
            if !is_name(name) || has_resource(earlier, name) {
                return Ok(Verdict::Malformed);
            }
            match number(0, u64::from(MAX_AMOUNT), capital) {
                Verdict::Malformed => Ok(Verdict::Malformed),
                Verdict::Beyond => Ok(Verdict::Beyond),
                Verdict::Read(capital) => {
                    let name = copy_of(alloc, name)?;
                    Ok(Verdict::Read(ResourceRow {
                        name,
                        capital: capital as u32,
                    }))
                }
            }
        }
        _ => Ok(Verdict::Malformed),
    }
}

/// Returns the resource that the line names, after those before it, and what follows the line.
#[tactic(auto, unfolding(crate::specs::Lines::line_by))]
pub(crate) fn resource_at<'t>(
    alloc: Global,
    earlier: &[ResourceRow],
    text: &'t [u8],
) -> Result<(ResourceRow, &'t [u8]), ReadError>
    ensures { Gives (λ x. (resource_row x.0, x.1.now)) result
        (spec.resource_at (map resource_row earlier.now) text.now) }
{
    let (words, rest) = words_of(alloc, text)?;
    let resource = resource(alloc, earlier, &words)?;
    judge_line(text.len(), resource, rest)
}

// ---- names of processes

fn has_process(processes: &[ProcessRow], name: &[u8]) -> bool
    ensures { result ≡ is_among (map (λ p. p.name.items) processes.now) name.now }
{
    for other in processes {
        if same(name, &other.name) {
            return true;
        }
    }
    false
}

fn process_name<'w>(earlier: &[ProcessRow], words: &[&'w [u8]]) -> Option<&'w [u8]>
    ensures { named (option_map (λ name. name.now) result)
        ≡ spec.process_name (map (λ p. p.name.items) earlier.now) (map (λ w. w.now) words.now) }
{
    match words {
        [keyword, name] if is(keyword, "process") => {
            if !is_name(name) || has_process(earlier, name) {
                None
            } else {
                Some(*name)
            }
        }
        _ => None,
    }
}

/// Returns the name of a process, after those before it, and what follows the line.
#[tactic(auto, unfolding(crate::specs::Lines::line_by))]
pub(crate) fn name_at<'t>(
    alloc: Global,
    earlier: &[ProcessRow],
    text: &'t [u8],
) -> Result<(Vec<u8>, &'t [u8]), ReadError>
    ensures { Gives (λ x. (x.0.items, x.1.now)) result
        (line_by (spec.process_name (map (λ p. p.name.items) earlier.now)) text.now) }
{
    let (words, rest) = words_of(alloc, text)?;
    match process_name(earlier, &words) {
        None => Err(ReadError::Fault(Fault::Malformed(text.len()))),
        Some(name) => Ok((copy_of(alloc, name)?, rest)),
    }
}

// ---- integers

fn plain_name(alloc: Global, number: u64) -> Result<Vec<u8>, AllocError>
    ensures { IfOk result (λ name. name.items ≡ 118 ∷ decimal number) }
{
    let mut name = Vec::new(alloc);
    name.push(b'v')?;
    let mut digits = Buffer::new();
    name.extend_from_slice(digits.format(number).as_bytes())?;
    Ok(name)
}

/// Returns the names `v0`, `v1` and so on.
fn plain_names(alloc: Global, count: u64) -> Result<Vec<Vec<u8>>, AllocError>
    ensures { IfOk result (λ names. map (λ name. name.items) names.items ≡ plain_names_spec count) }
{
    let mut names = Vec::new(alloc);
    for number in 0..count {
        names.push(plain_name(alloc, number)?)?;
    }
    Ok(names)
}

/// Returns whether the word is the numeral of this number.
fn says_number(word: &[u8], number: usize) -> bool
    requires { number < 2 ^ 64 - 1 }
    ensures { result ≡ spec.says_number word.now number }
{
    is_numeral(word) && saturated(word) == number as u64
}

fn are_names(words: &[&[u8]]) -> bool
    ensures { result ≡ list_all is_name_spec (map (λ w. w.now) words.now) }
{
    for word in words {
        if !is_name(word) {
            return false;
        }
    }
    true
}

fn has_name(names: &[Vec<u8>], name: &[u8]) -> bool
    ensures { result ≡ is_among (map (λ n. n.items) names.now) name.now }
{
    for other in names {
        if same(name, other) {
            return true;
        }
    }
    false
}

/// Returns the words, if no word is there twice.
fn distinct(alloc: Global, words: &[&[u8]]) -> Result<Option<Vec<Vec<u8>>>, AllocError>
    ensures { IfOk result (λ names. option_map (λ names. map (λ name. name.items) names.items) names
        ≡ cond (are_new [] (map (λ w. w.now) words.now)) (Some (map (λ w. w.now) words.now)) None) }
{
    let mut names = Vec::new(alloc);
    for word in words {
        if has_name(&names, word) {
            return Ok(None);
        }
        names.push(copy_of(alloc, word)?)?;
    }
    Ok(Some(names))
}

#[tactic(auto, unfolding(crate::specs::Reading::named_integers))]
fn named_integers(
    alloc: Global,
    count: &[u8],
    names: &[&[u8]],
) -> Result<Verdict<Vec<Vec<u8>>>, AllocError>
    ensures { IfOk result (λ v. mapped (λ names. map (λ name. name.items) names.items) v
        ≡ spec.named_integers count.now (map (λ w. w.now) names.now)) }
{
    if !says_number(count, names.len()) || !are_names(names) {
        return Ok(Verdict::Malformed);
    }
    if MAX_INTEGERS < names.len() {
        return Ok(Verdict::Beyond);
    }
    match distinct(alloc, names)? {
        None => Ok(Verdict::Malformed),
        Some(names) => Ok(Verdict::Read(names)),
    }
}

fn integers(
    alloc: Global,
    format: Format,
    words: &[&[u8]],
) -> Result<Verdict<Vec<Vec<u8>>>, AllocError>
    ensures { IfOk result (λ v. mapped (λ names. map (λ name. name.items) names.items) v
        ≡ spec.integers format (map (λ w. w.now) words.now)) }
{
    match format {
        Format::One => match counted("vars", 0, MAX_INTEGERS as u64, words) {
            Verdict::Malformed => Ok(Verdict::Malformed),
            Verdict::Beyond => Ok(Verdict::Beyond),
            Verdict::Read(count) => Ok(Verdict::Read(plain_names(alloc, count)?)),
        },
        Format::Two => match words {
            [keyword, count, names @ ..] if is(keyword, "vars") => {
                named_integers(alloc, count, names)
            }
            _ => Ok(Verdict::Malformed),
        },
    }
}

/// Returns the names of the integers of a process, and what follows the line.
#[tactic(auto, unfolding(crate::specs::Lines::line_by))]
pub(crate) fn integers_at(
    alloc: Global,
    format: Format,
    text: &[u8],
) -> Result<(Vec<Vec<u8>>, &[u8]), ReadError>
    ensures { Gives (λ x. (map (λ name. name.items) x.0.items, x.1.now)) result
        (line_by (spec.integers format) text.now) }
{
    let (words, rest) = words_of(alloc, text)?;
    let names = integers(alloc, format, &words)?;
    judge_line(text.len(), names, rest)
}

// ---- claims

fn amounts(alloc: Global, words: &[&[u8]]) -> Result<Verdict<Vec<u64>>, AllocError>
    ensures { IfOk result (λ v. mapped (λ amounts. amounts.items) v
        ≡ numbers 0 MAX_AMOUNT (map (λ w. w.now) words.now)) }
{
    let mut amounts = Vec::new(alloc);
    let mut beyond = false;
    for word in words {
        match number(0, MAX_AMOUNT as u64, word) {
            Verdict::Malformed => return Ok(Verdict::Malformed),
            Verdict::Beyond => beyond = true,
            Verdict::Read(amount) => amounts.push(amount)?,
        }
    }
    if beyond {
        return Ok(Verdict::Beyond);
    }
    Ok(Verdict::Read(amounts))
}

fn claims(alloc: Global, resources: usize, words: &[&[u8]]) -> Result<Verdict<Vec<u64>>, AllocError>
    ensures { IfOk result (λ v. mapped (λ amounts. amounts.items) v
        ≡ spec.claims resources (map (λ w. w.now) words.now)) }
{
    match words {
        [keyword, words @ ..] if is(keyword, "claims") => {
            if words.len() != resources {
                return Ok(Verdict::Malformed);
            }
            amounts(alloc, words)
        }
        _ => Ok(Verdict::Malformed),
    }
}

/// Returns the claims of a process on these many resources, and what follows the line.
#[tactic(auto, unfolding(crate::specs::Lines::line_by))]
pub(crate) fn claims_at(
    alloc: Global,
    resources: usize,
    text: &[u8],
) -> Result<(Vec<u64>, &[u8]), ReadError>
    ensures { Gives (λ x. (x.0.items, x.1.now)) result (line_by (spec.claims resources) text.now) }
{
    let (words, rest) = words_of(alloc, text)?;
    let claims = claims(alloc, resources, &words)?;
    judge_line(text.len(), claims, rest)
}

//! Pick lines, read.

ghost use Rattle.std.specs.Prelude.{◌≡◌, ◌≢◌, ◌<◌, ◌≤◌, ◌++◌, ◌∷◌, ℕ, List, true, Some, MatchOption, IfSome, IfOk, IfErr};
ghost use Rattle.std.specs.Fmt.{decimal};
ghost use Rattle.pb_code.specs.Limits.{KeepsLimits};
ghost use Rattle.pb_code.specs.View.{code_view};
ghost use Rattle.pb_picks.specs.PickLines.{IsFaulty, IsFirstLine, Lacks, SpellsPick, SpellsPicks, arm_and_count, is_plain};
ghost use Rattle.pb_history.specs.declared.counted.CountedPick.{CountedPick as AnyPick};

use crate::fault::PickFault;
use pb_base::Pick;
use pb_base::limits::{MAX_ARMS, MAX_PICKS};
use pb_code::Code;
use pb_history::CountedPick;
use std::alloc::Global;

/// Reads pick lines, `P.a COUNT` each, of the processes and arms of this code. The last line feed may be
/// missing. The first faulty line decides: `NotPicks` at its start if it is not of the form, or its process
/// or arm does not exist; `TooMany` if the counts up to it are more than 10,000,000.
pub fn read_picks(alloc: Global, code: &Code, text: &[u8]) -> Result<Vec<CountedPick>, PickFault>
    requires { KeepsLimits (code_view code.now) }
    ensures read { IfOk result (λ picks. SpellsPicks (code_view code.now) text.now picks.items) }
    ensures refused { IfErr result (λ fault. IsFaulty (code_view code.now) text.now fault) }
{
    let mut picks = Vec::new(alloc);
    let mut total = 0;
    let mut rest = text;
    while !rest.is_empty() {
        let (line, after) = first_line(rest);
        let Some(counted) = pick_of(code, line) else {
            return Err(PickFault::NotPicks(text.len() - rest.len()));
        };
        total += counted.count;
        if total > MAX_PICKS {
            return Err(PickFault::TooMany);
        }
        picks.push(counted)?;
        rest = after;
    }
    Ok(picks)
}

/// Splits a text into its first line, without the line feed, and the rest.
fn first_line(text: &[u8]) -> (&[u8], &[u8])
    ensures { IsFirstLine text.now result.0.now result.1.now }
{
    match split_first(text, b'\n') {
        Some(parts) => parts,
        None => (text, &text[text.len()..]),
    }
}

/// Splits a text at the first byte that is the mark.
fn split_first(text: &[u8], mark: u8) -> Option<(&[u8], &[u8])>
    ensures { MatchOption result (Lacks mark text.now)
        (λ parts. Lacks mark parts.0.now × (text.now ≡ parts.0.now ++ (mark ∷ parts.1.now))) }
{
    for end in 0..text.len() {
        if text[end] == mark {
            return Some((&text[..end], &text[end + 1..]));
        }
    }
    None
}

/// Returns the pick that a line says, if it says one.
fn pick_of(code: &Code, line: &[u8]) -> Option<CountedPick>
    requires { KeepsLimits (code_view code.now) }
    ensures { MatchOption result ((c : AnyPick) → SpellsPick (code_view code.now) line.now c → ⊥)
        (λ c. SpellsPick (code_view code.now) line.now c) }
{
    for p in 0..code.processes.len() {
        let arms = code.processes[p].entries.len();
        match pick_of_process(line, &code.names.processes[p], arms) {
            Some((arm, count)) => {
                let process = p as u8;
                return Some(CountedPick {
                    pick: Pick { process, arm },
                    count,
                });
            }
            None => {}
        }
    }
    None
}

/// Returns the arm and the count of a line, if it begins with this name and its arm is below `arms`.
fn pick_of_process(line: &[u8], name: &[u8], arms: usize) -> Option<(u8, u32)>
    requires { arms ≤ MAX_ARMS }
    ensures { MatchOption result
        ((arm count : ℕ) → arm < arms → 0 < count → count ≤ MAX_PICKS
        → line.now ≡ name.now ++ (46 ∷ arm_and_count arm count) → ⊥)
        (λ x. (x.0 < arms) × (0 < x.1) × (x.1 ≤ MAX_PICKS)
        × (line.now ≡ name.now ++ (46 ∷ arm_and_count x.0 x.1))) }
{
    let rest = behind(line, name)?;
    let (arm, count) = read_arm_and_count(rest, arms)?;
    Some((arm, count))
}

/// Returns what follows the name and a point, if the line begins with them.
fn behind<'t>(line: &'t [u8], name: &[u8]) -> Option<&'t [u8]>
    ensures { MatchOption result ((rest : List ℕ) → line.now ≡ name.now ++ (46 ∷ rest) → ⊥)
        (λ rest. line.now ≡ name.now ++ (46 ∷ rest.now)) }
{
    let rest = after(line, name)?;
    after(rest, b".")
}

/// Returns what follows these bytes, if the text begins with them.
fn after<'t>(text: &'t [u8], start: &[u8]) -> Option<&'t [u8]>
    ensures { MatchOption result ((rest : List ℕ) → text.now ≢ start.now ++ rest)
        (λ rest. text.now ≡ start.now ++ rest.now) }
{
    text.strip_prefix(start)
}

/// Reads the arm, below `arms`, and the count.
fn read_arm_and_count(text: &[u8], arms: usize) -> Option<(u8, u32)>
    requires { arms ≤ MAX_ARMS }
    ensures { MatchOption result
        ((arm count : ℕ) → arm < arms → 0 < count → count ≤ MAX_PICKS → text.now ≡ arm_and_count arm count → ⊥)
        (λ x. (x.0 < arms) × (0 < x.1) × (x.1 ≤ MAX_PICKS) × (text.now ≡ arm_and_count x.0 x.1)) }
{
    let (arm, count) = split_first(text, b' ')?;
    let arm = number(arm)?;
    let count = number(count)?;
    if arm as usize >= arms || count == 0 {
        return None;
    }
    Some((arm as u8, count))
}

/// Reads a decimal number up to 10,000,000, without a sign and without zeros before it.
fn number(word: &[u8]) -> Option<u32>
    ensures { MatchOption result ((n : ℕ) → n ≤ MAX_PICKS → word.now ≡ decimal n → ⊥)
        (λ n. (n ≤ MAX_PICKS) × (word.now ≡ decimal n)) }
{
    if !is_plain(word) {
        return None;
    }
    let number = parsed(word)?;
    if number > MAX_PICKS {
        return None;
    }
    Some(number)
}

/// Returns whether no sign is first, and no zero before more bytes.
fn is_plain(word: &[u8]) -> bool
    ensures { result ≡ is_plain word.now }
{
    match word {
        [] => false,
        [first, rest @ ..] => *first != b'+' && (*first != b'0' || rest.is_empty()),
    }
}

/// Reads a decimal number, which may have a sign and zeros before it.
fn parsed(word: &[u8]) -> Option<u32>
    ensures complete { (n : ℕ) → n ≤ MAX_PICKS → word.now ≡ decimal n → result ≡ Some n }
    ensures sound { IfSome result (λ n. is_plain word.now ≡ true → word.now ≡ decimal n) }
{
    match str::from_utf8(word) {
        Ok(text) => match text.parse() {
            Ok(number) => Some(number),
            Err(_) => None,
        },
        Err(_) => None,
    }
}

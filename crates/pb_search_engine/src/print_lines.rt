//! Print lines, read.

ghost use Rattle.std.specs.Prelude.{◌≡◌, ◌≢◌, ◌<◌, ◌≤◌, ◌↔◌, ◌++◌, ◌∷◌, ℕ, ℤ, List, IfErr, IfOk, IsTrue, MatchOption, Some};
ghost use Rattle.std.specs.Fmt.{decimal, signed_decimal};
ghost use Rattle.pb_base.specs.declared.limits.TheConstants.{MAX_ARMS};
ghost use Rattle.pb_code.specs.Limits.{IsSigned, KeepsLimits};
ghost use Rattle.pb_code.specs.View.{code_view};
ghost use Rattle.pb_picks.specs.PickLines.{IsFirstLine, Lacks};
ghost use Rattle.pb_search_engine.specs.OutcomeLines.{arm_print_text, process_print_text};
ghost use Rattle.pb_search_engine.specs.PrintLines.{IsBadPrint, SpellsPrint, SpellsPrints};
ghost use Rattle.pb_search_stages.specs.declared.print.Print.{Print as AnyPrint};

use itoa::Buffer;
use pb_base::Pick;
use pb_code::Code;
use pb_search_stages::Print;
use std::alloc::{AllocFailed, Global};

/// Why a text says no prints.
#[derive(Clone, Copy, Debug, PartialEq, Eq)]
pub enum PrintFault {
    /// The line that begins at this byte is not of the form, or its process or its arm does not exist.
    NotPrint(usize),
    NoMemory,
}

impl<T: Drop> From<AllocFailed<T>> for PrintFault {
    ghost use Rattle.std.specs.Prelude.{◌≡◌};
    ghost use Rattle.pb_search_engine.specs.declared.print_lines.PrintFault.TheVariants.{NoMemory as OutOfMemory};

    ghost from_gives = { λ _ fault. fault ≡ OutOfMemory };

    fn from(_: AllocFailed<T>) -> PrintFault {
        PrintFault::NoMemory
    }
}

/// Reads print lines, `P.a print V` each, of the processes and arms of this code. The last line feed may be
/// missing. The first line that is not of the form, or whose process or arm does not exist, is refused, with the
/// place at which it begins.
pub(crate) fn read_prints(alloc: Global, code: &Code, text: &[u8]) -> Result<Vec<Print>, PrintFault>
    requires { KeepsLimits (code_view code.now) }
    ensures read { IfOk result (λ prints. SpellsPrints (code_view code.now) text.now prints.items) }
    ensures refused { IfErr result (IsBadPrint (code_view code.now) text.now) }
{
    let mut prints = Vec::new(alloc);
    let mut rest = text;
    while !rest.is_empty() {
        let (line, after) = first_line(rest);
        let Some(print) = print_of(code, line) else {
            return Err(PrintFault::NotPrint(text.len() - rest.len()));
        };
        prints.push(print)?;
        rest = after;
    }
    Ok(prints)
}

/// Splits a text into its first line, without the line feed, and the rest.
pub(crate) fn first_line(text: &[u8]) -> (&[u8], &[u8])
    ensures { IsFirstLine text.now result.0.now result.1.now }
{
    match split_first(text, b'\n') {
        Some(parts) => parts,
        None => (text, &text[text.len()..]),
    }
}

/// Splits a text at the first byte that is the mark.
pub(crate) fn split_first(text: &[u8], mark: u8) -> Option<(&[u8], &[u8])>
    ensures { MatchOption result (Lacks mark text.now)
        (λ parts. Lacks mark parts.0.now × (text.now ≡ parts.0.now ++ (mark ∷ parts.1.now))) }
{
    for end in 0..text.len() {
        if text[end] == mark {
            return Some((&text[..end], &text[end + 1..]));
        }
    }
    None
}

/// Returns the print that a line says, if it says one.
fn print_of(code: &Code, line: &[u8]) -> Option<Print>
    requires { KeepsLimits (code_view code.now) }
    ensures { MatchOption result ((p : AnyPrint) → SpellsPrint (code_view code.now) line.now p → ⊥)
        (λ p. SpellsPrint (code_view code.now) line.now p) }
{
    for p in 0..code.processes.len() {
        let arms = code.processes[p].entries.len();
        match print_of_process(line, &code.names.processes[p], arms) {
            Some((arm, value)) => {
                let process = p as u8;
                return Some(Print {
                    pick: Pick { process, arm },
                    value,
                });
            }
            None => {}
        }
    }
    None
}

/// Returns the arm and the value of a line, if it begins with this name and its arm is below `arms`.
fn print_of_process(line: &[u8], name: &[u8], arms: usize) -> Option<(u8, i64)>
    requires { arms ≤ MAX_ARMS }
    ensures { MatchOption result
        ((arm : ℕ) (value : ℤ) → arm < arms → IsSigned value → line.now ≡ process_print_text name.now arm value → ⊥)
        (λ x. (x.0 < arms) × IsSigned x.1 × (line.now ≡ process_print_text name.now x.0 x.1)) }
{
    let rest = after(line, name)?;
    print_of_arms(rest, arms)
}

/// Returns the arm and the value of what follows the name of a process, if its arm is below `arms`.
fn print_of_arms(text: &[u8], arms: usize) -> Option<(u8, i64)>
    requires { arms ≤ MAX_ARMS }
    ensures { MatchOption result
        ((arm : ℕ) (value : ℤ) → arm < arms → IsSigned value → text.now ≡ arm_print_text arm value → ⊥)
        (λ x. (x.0 < arms) × IsSigned x.1 × (text.now ≡ arm_print_text x.0 x.1)) }
{
    for arm in 0..arms {
        match value_of_arm(text, arm as u8) {
            Some(value) => return Some((arm as u8, value)),
            None => {}
        }
    }
    None
}

/// Returns the value of what follows the name of a process, if it is a print of this arm.
fn value_of_arm(text: &[u8], arm: u8) -> Option<i64>
    ensures { MatchOption result
        ((value : ℤ) → IsSigned value → text.now ≡ arm_print_text arm value → ⊥)
        (λ value. IsSigned value × (text.now ≡ arm_print_text arm value)) }
{
    let mut digits = Buffer::new();
    let rest = after(text, b".")?;
    let rest = after(rest, digits.format(arm).as_bytes())?;
    let rest = after(rest, b" print ")?;
    value_of(rest)
}

/// Returns what follows these bytes, if the text begins with them.
pub(crate) fn after<'t>(text: &'t [u8], start: &[u8]) -> Option<&'t [u8]>
    ensures { MatchOption result ((rest : List ℕ) → text.now ≢ start.now ++ rest)
        (λ rest. text.now ≡ start.now ++ rest.now) }
{
    text.strip_prefix(start)
}

/// Returns the integer that a word is, if it is written as events write it.
pub(crate) fn value_of(word: &[u8]) -> Option<i64>
    ensures { MatchOption result ((value : ℤ) → IsSigned value → word.now ≡ signed_decimal value → ⊥)
        (λ value. IsSigned value × (word.now ≡ signed_decimal value)) }
{
    let value = parsed(word)?;
    if !is_written(word, value) {
        return None;
    }
    Some(value)
}

/// Reads an integer, which may have a sign and zeros before it.
fn parsed(word: &[u8]) -> Option<i64>
    ensures { (value : ℤ) → IsSigned value → word.now ≡ signed_decimal value → result ≡ Some value }
{
    match str::from_utf8(word) {
        Ok(text) => match text.parse() {
            Ok(number) => Some(number),
            Err(_) => None,
        },
        Err(_) => None,
    }
}

/// Returns whether this is how the integer is written.
fn is_written(word: &[u8], value: i64) -> bool
    ensures { IsTrue result ↔ (word.now ≡ signed_decimal value) }
{
    let mut digits = Buffer::new();
    digits.format(value).as_bytes() == word
}

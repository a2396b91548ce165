//! Why a pick of pick lines is not enabled.

ghost use Rattle.std.specs.Prelude.{◌≡◌, ◌<◌, ◌++◌, IfOk, IfSome, IsTrue, string_bytes};
ghost use Rattle.pb_code.specs.Whole.{Code as AnyCode};
ghost use Rattle.pb_picks.specs.PickLines.{IsFirstLine, SpellsPicks};
ghost use Rattle.pb_message_stops.specs.Stops.{HoldsPick};
ghost use Rattle.pb_message_stops.specs.Told.{TellsMade, TellsStop, made_before, made_of_line};
ghost use Rattle.pb_mistakes.specs.Wordings.{Keeps};

use crate::lines::{Lines, note_line};
use pb_banker::Lender;
use pb_base::{Bundle, Lending, Names, NoMemory, Pair, Pick};
use pb_code::{Code, Instr};
use pb_history::CountedPick;
use pb_history::replay::replay_counted_by;
use pb_machine::{Machine, Thread, ThreadState};
use pb_mistakes::{Shown, Wording};
use pb_picks::read_picks;
use pb_verifier::Verified;
use std::alloc::{AllocError, Global};

/// A pick of pick lines.
#[derive(Clone, Copy)]
pub struct Stop {
    /// The pick.
    pub pick: Pick,
    /// Its number, from 0.
    pub number: u32,
    /// Where its line begins.
    pub line: usize,
    /// How many picks of its line are before it.
    pub before: u32,
    /// How many picks its line says.
    pub count: u32,
}

/// Returns the pick with a number, with its line; none past the end.
pub fn stop_of(lines: &[u8], picks: &[CountedPick], number: u32) -> Option<Stop>
    ensures { IfSome result (λ stop. (code : AnyCode) → SpellsPicks code lines.now picks.now
        → HoldsPick code lines.now picks.now number stop) }
{
    let mut rest = lines;
    let mut before = number;
    for i in 0..picks.len() {
        let counted = picks[i];
        if before < counted.count {
            return Some(Stop {
                pick: counted.pick,
                number,
                line: lines.len() - rest.len(),
                before,
                count: counted.count,
            });
        }
        before -= counted.count;
        let (_, after) = first_line(rest);
        rest = after;
    }
    None
}

/// Splits a text into its first line, without the line feed, and the rest.
pub(crate) fn first_line(text: &[u8]) -> (&[u8], &[u8])
    ensures { IsFirstLine text.now result.0.now result.1.now }
{
    for end in 0..text.len() {
        if text[end] == b'\n' {
            return (&text[..end], &text[end + 1..]);
        }
    }
    (text, &text[text.len()..])
}

/// What is usually meant by a pick that is not enabled.
const STOP_HINT: &str =
    "hint: leave the pick out, or make others before it; without it and those after it, debug shows the run up to here";

/// Returns the wording of a pick that is not enabled under a lending, after those before it.
pub fn stop_wording(
    alloc: Global,
    lending: Lending,
    verified: &Verified,
    lines: Lines<'_>,
    stop: &Stop,
) -> Result<Wording, NoMemory>
    ensures { IfOk result (λ wording. IsTrue wording.is_whole
        → TellsStop lines.entry.before lines.entry.text.now stop.now wording) }
{
    let arm = arm_name(alloc, verified.names(), stop.pick)?;
    let mut wording = arm_wording(alloc, lending, verified, lines.text, stop, &arm)?;
    note_line(alloc, &mut wording, lines, stop.line);
    wording.note_text(alloc, STOP_HINT);
    Ok(wording)
}

/// Returns the same, from the name of the arm.
fn arm_wording(
    alloc: Global,
    lending: Lending,
    verified: &Verified,
    lines: &[u8],
    stop: &Stop,
    arm: &String,
) -> Result<Wording, NoMemory>
    ensures { IfOk result (λ wording. IsTrue wording.is_whole → TellsMade stop.now wording) }
{
    let before = lines_before(alloc, lines, stop, arm)?;
    let mut wording = made_wording(alloc, stop, arm);
    if let Some(machine) = machine_after(alloc, lending, verified, &before) {
        note_why(alloc, &mut wording, verified.code(), &machine, stop.pick);
    }
    Ok(wording)
}

/// Returns the wording of a pick that an arm cannot make, by how many were made.
fn made_wording(alloc: Global, stop: &Stop, arm: &String) -> Wording
    ensures { IsTrue result.is_whole → TellsMade stop.now result }
{
    let mut wording = Wording::new(alloc, summary(alloc, stop, arm));
    if stop.count > 1 {
        wording.note(made_note(alloc, stop));
    }
    wording
}

/// Returns in words that an arm cannot make its pick, after those that were made.
fn summary(alloc: Global, stop: &Stop, arm: &String) -> Result<String, AllocError>
    ensures { IfOk result (λ words. string_bytes words ≡ string_bytes arm.now ++ made_before stop.now.number) }
{
    match stop.number {
        0 => format!(in alloc; "{arm} cannot make the first pick"),
        1 => format!(in alloc; "{arm} cannot make a pick after 1 pick"),
        number => format!(in alloc; "{arm} cannot make a pick after {number} picks"),
    }
}

/// Returns how many picks of a line were made.
fn made_note(alloc: Global, stop: &Stop) -> Result<String, AllocError>
    ensures { IfOk result (λ words. string_bytes words ≡ made_of_line stop.now.before stop.now.count) }
{
    let (made, count) = (stop.before, stop.count);
    if made == 0 {
        format!(in alloc; "none of the {count} picks of this line was made")
    } else if made == 1 {
        format!(in alloc; "1 of the {count} picks of this line was made")
    } else {
        format!(in alloc; "{made} of the {count} picks of this line were made")
    }
}

/// Returns the machine after the picks of pick lines; none if out of memory.
fn machine_after(
    alloc: Global,
    lending: Lending,
    verified: &Verified,
    lines: &[u8],
) -> Option<Machine> {
    let Ok(picks) = read_picks(alloc, verified.code(), lines) else {
        return None;
    };
    match replay_counted_by(alloc, verified, lending, &picks) {
        Ok((machine, _)) => Some(machine),
        Err(_) => None,
    }
}

/// Returns the name of the arm of a pick.
fn arm_name(alloc: Global, names: &Names, pick: Pick) -> Result<String, AllocError> {
    let process = Shown(name_at(&names.processes, pick.process));
    format!(in alloc; "{process}.{}", pick.arm)
}

/// Returns the name with this number; nothing past the end.
fn name_at(names: &[Vec<u8>], number: u8) -> &[u8] {
    match names.get(usize::from(number)) {
        Some(name) => name.as_slice(),
        None => b"",
    }
}

/// Returns the pick lines of the picks before this one.
fn lines_before(
    alloc: Global,
    lines: &[u8],
    stop: &Stop,
    arm: &String,
) -> Result<Vec<u8>, NoMemory> {
    let mut text = Vec::from_slice(alloc, &lines[..stop.line.min(lines.len())])?;
    if stop.before > 0 {
        let line = format!(in alloc; "{arm} {}\n", stop.before)?;
        text.extend_from_slice(line.as_bytes())?;
    }
    Ok(text)
}

/// Notes why the arm of a pick does not go on.
fn note_why(alloc: Global, wording: &mut Wording, code: &Code, machine: &Machine, pick: Pick)
    ensures { Keeps wording.old wording.new }
{
    let process = usize::from(pick.process);
    let arm = usize::from(pick.arm);
    if machine.processes() <= process {
        return;
    }
    let standing = machine.proc(process);
    if standing.arms() <= arm {
        return;
    }
    let thread = standing.thread(arm);
    match asked(code, process, thread) {
        Some(bundle) if !standing.faulted() => {
            wording.note(request_note(alloc, &code.names, machine.lender(), bundle));
        }
        _ => wording.note_text(alloc, stands(standing.faulted(), thread.state())),
    }
}

/// Returns the state of an arm that does not ask for anything.
fn stands(faulted: bool, state: ThreadState) -> &'static str {
    if faulted {
        return "its process has faulted";
    }
    match state {
        ThreadState::Idle => "the arm has not been started, or its parbegin has ended",
        ThreadState::Live => "it waits at a parend for the arms of its parbegin",
        ThreadState::Ended => "the arm has ended",
    }
}

/// Returns the bundle for which an arm asks, if it is at a request.
fn asked<'c>(code: &'c Code, process: usize, thread: &Thread) -> Option<&'c Bundle> {
    let code = code.processes.get(process)?;
    match code.instrs.get(usize::from(thread.place()?)) {
        Some(Instr::Take(number)) => code.bundles.get(usize::from(*number)),
        _ => None,
    }
}

/// Returns why a request is refused.
fn request_note(
    alloc: Global,
    names: &Names,
    bank: &Lender,
    bundle: &Bundle,
) -> Result<String, AllocError> {
    for i in 0..bundle.len() {
        let pair = bundle.get(i);
        if let Some(cash) = short_cash(bank, pair) {
            return cash_note(alloc, names, pair, cash);
        }
    }
    String::from_str(
        alloc,
        "the cash is enough for its request, but if it were granted some processes could never finish",
    )
}

/// Returns the cash of a resource, if it is less than what is asked for.
fn short_cash(bank: &Lender, asked: Pair) -> Option<u32> {
    let resource = usize::from(asked.resource);
    if bank.resources() <= resource {
        return None;
    }
    let cash = bank.cash(resource);
    if cash < asked.amount {
        Some(cash)
    } else {
        None
    }
}

fn cash_note(alloc: Global, names: &Names, asked: Pair, cash: u32) -> Result<String, AllocError> {
    let name = Shown(name_at(&names.resources, asked.resource));
    format!(in alloc;
        "it asks for {} of {name}, and the cash is {cash}",
        asked.amount
    )
}

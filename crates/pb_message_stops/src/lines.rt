//! The wording of a fault of pick lines.

ghost use Rattle.std.specs.Prelude.{◌≡◌, ◌≤◌, ◌∷◌, ◌++◌, [], IfOk, IsTrue, codes, length, min};
ghost use Rattle.pb_code.specs.Limits.{KeepsLimits};
ghost use Rattle.pb_code.specs.View.{code_view};
ghost use Rattle.pb_lexer.specs.Cutting.{line_at};
ghost use Rattle.pb_message_stops.specs.Told.{HintsEnds, TellsBadLine, TellsFault, TellsMany, line_note};
ghost use Rattle.pb_mistakes.specs.Wordings.{AddsNote, IsWording};

use crate::ends::{Form, ends_of};
use crate::stops::first_line;
use pb_base::NoMemory;
use pb_code::Code;
use pb_message_excerpts::{line_end, place_of};
use pb_mistakes::{Shown, Wording};
use pb_picks::{PickFault, read_picks};
use std::alloc::{AllocError, Global};
use std::fmt::Write;
use std::str;

/// What a pick line looks like.
const PICK_FORM: &str =
    "a pick line is P.a COUNT, such as p.0 12: a process, one of its arms, and how many picks it makes";

/// What a print line looks like.
const PRINT_FORM: &str =
    "a print line is P.a print V, as run writes it, such as p.0 print 2: a process, one of its arms, and what it prints";

/// The most processes that are named.
const MAX_NAMED: usize = 8;

/// Pick lines, with the number of lines before them in the input.
#[derive(Clone, Copy)]
pub struct Lines<'t> {
    /// The lines.
    pub text: &'t [u8],
    /// How many lines are before them.
    pub before: usize,
}

/// Returns the wording of a fault of pick lines.
pub fn fault_wording(
    alloc: Global,
    code: &Code,
    lines: Lines<'_>,
    fault: PickFault,
) -> Result<Wording, NoMemory>
    requires { KeepsLimits (code_view code.now) }
    ensures { IfOk result (λ wording. IsTrue wording.is_whole
        → TellsFault lines.entry.before lines.entry.text.now fault wording) }
{
    match fault {
        PickFault::NotPicks(at) => Ok(bad_line(alloc, code, Form::Picks, lines, at)),
        PickFault::TooMany | PickFault::NoMemory => too_many(alloc, code, lines),
    }
}

/// Returns the wording of a line that is not a print line of this code.
pub fn bad_print_line(alloc: Global, code: &Code, lines: Lines<'_>, at: usize) -> Wording
    ensures { IsTrue result.is_whole → TellsBadLine Form.Prints lines.entry.before lines.entry.text.now at result }
{
    bad_line(alloc, code, Form::Prints, lines, at)
}

/// Returns the wording of a line that does not say what it is to say.
fn bad_line(alloc: Global, code: &Code, form: Form, lines: Lines<'_>, at: usize) -> Wording
    ensures { IsTrue result.is_whole → TellsBadLine form lines.entry.before lines.entry.text.now at result }
{
    let (line, _) = first_line(&lines.text[at.min(lines.text.len())..]);
    let mut wording = line_wording(alloc, code, form, line);
    note_line(alloc, &mut wording, lines, at);
    wording
}

/// Returns what a line has wrong that does not say what it is to say, at its ends or between them.
fn line_wording(alloc: Global, code: &Code, form: Form, line: &[u8]) -> Wording
    ensures { IsTrue result.is_whole → HintsEnds form line.now result }
{
    match ends_of(line) {
        Some(ends) => other(alloc, ends.summary(), ends.hint(form)),
        None => inner_wording(alloc, code, form, line),
    }
}

/// Returns what a line has wrong whose ends are right.
fn inner_wording(alloc: Global, code: &Code, form: Form, line: &[u8]) -> Wording {
    match (kind_of(code, line), form) {
        (Kind::NoProcess { name }, _) => no_process(alloc, code, name),
        (Kind::NoArm { process, arm }, _) => no_arm(alloc, code, process, arm),
        (Kind::NoCount { count }, Form::Picks) => no_count(alloc, count),
        (Kind::Other { summary }, Form::Picks) => other(alloc, summary, PICK_FORM),
        (_, Form::Prints) => other(alloc, "this is not a print line", PRINT_FORM),
    }
}

/// What a line that is no pick line has wrong.
#[derive(Clone, Copy)]
enum Kind<'t> {
    // No process has this name.
    NoProcess { name: &'t [u8] },
    // The process with this number has no such arm.
    NoArm { process: usize, arm: &'t [u8] },
    // What is after the blank is no count.
    NoCount { count: &'t [u8] },
    // Anything else, in words.
    Other { summary: &'static str },
}

/// Returns what a line has wrong.
fn kind_of<'t>(code: &Code, line: &'t [u8]) -> Kind<'t> {
    let Some((name, rest)) = cut_at(line, b'.') else {
        return Kind::Other {
            summary: "this is not a pick line: it has no point",
        };
    };
    let Some(process) = process_of(code, name) else {
        return Kind::NoProcess { name };
    };
    let Some((arm, count)) = cut_at(rest, b' ') else {
        return Kind::Other {
            summary: "this pick line has no count",
        };
    };
    if number_of(arm).is_none_or(|arm| arms_of(code, process) <= arm) {
        return Kind::NoArm { process, arm };
    }
    Kind::NoCount { count }
}

/// Splits a line at the first byte that is the mark.
fn cut_at(line: &[u8], mark: u8) -> Option<(&[u8], &[u8])> {
    for end in 0..line.len() {
        if line[end] == mark {
            return Some((&line[..end], &line[end + 1..]));
        }
    }
    None
}

/// Returns the number of the process with a name.
fn process_of(code: &Code, name: &[u8]) -> Option<usize> {
    code.names
        .processes
        .iter()
        .position(|one| one.as_slice() == name)
}

/// Returns how many arms a process has.
fn arms_of(code: &Code, process: usize) -> usize {
    match code.processes.get(process) {
        Some(process) => process.entries.len(),
        None => 0,
    }
}

/// Returns the number that digits say without zeros before it.
fn number_of(word: &[u8]) -> Option<usize> {
    let is_plain = word.iter().all(|byte| byte.is_ascii_digit())
        && (word.len() == 1 || !word.starts_with(b"0"));
    match str::from_utf8(word) {
        Ok(text) if is_plain => text.parse::<usize>().ok(),
        _ => None,
    }
}

/// Returns the wording of a line that names no process.
fn no_process(alloc: Global, code: &Code, name: &[u8]) -> Wording {
    let mut wording = Wording::new(
        alloc,
        format!(in alloc; "there is no process `{}`", Shown(name)),
    );
    wording.note(processes_note(alloc, code));
    wording
}

/// Returns the names of the first processes.
fn processes_note(alloc: Global, code: &Code) -> Result<String, AllocError> {
    let mut note = String::from_str(alloc, "the processes before the line %% are ")?;
    for (i, name) in code.names.processes.iter().enumerate() {
        if i == MAX_NAMED {
            note.push_str(" ..")?;
            break;
        }
        if i > 0 {
            note.push_str(", ")?;
        }
        write!(note, "{}", Shown(name)).map_err(|_| AllocError)?;
    }
    Ok(note)
}

/// Returns the wording of a line that names an arm that its process does not have.
fn no_arm(alloc: Global, code: &Code, process: usize, arm: &[u8]) -> Wording {
    let name = match code.names.processes.get(process) {
        Some(name) => name.as_slice(),
        None => b"",
    };
    let summary = format!(in alloc; "process {} has no arm `{}`", Shown(name), Shown(arm));
    let mut wording = Wording::new(alloc, summary);
    match arms_of(code, process).saturating_sub(1) {
        0 => wording.note_text(alloc, "its only arm is 0, its body"),
        last => wording.note(format!(in alloc; "its arms are 0 to {last}; 0 is its body")),
    }
    wording
}

/// Returns the wording of a line whose count is none.
fn no_count(alloc: Global, count: &[u8]) -> Wording {
    let summary = format!(in alloc; "`{}` is not a count", Shown(count));
    let mut wording = Wording::new(alloc, summary);
    wording.hint(
        alloc,
        "a count is a number from 1 to 10000000, with no sign and no zeros before it",
    );
    wording
}

/// Returns the wording of any other fault of a line, with what is usually meant.
fn other(alloc: Global, summary: &str, hint: &str) -> Wording
    ensures { IsWording summary.now ((codes "hint: " ++ hint.now) ∷ []) result }
{
    let mut wording = Wording::of(alloc, summary);
    wording.hint(alloc, hint);
    wording
}

/// Returns the wording of too many picks.
fn too_many(alloc: Global, code: &Code, lines: Lines<'_>) -> Result<Wording, NoMemory>
    requires { KeepsLimits (code_view code.now) }
    ensures { IfOk result (λ wording. IsTrue wording.is_whole
        → TellsMany lines.entry.before lines.entry.text.now wording) }
{
    let at = line_past(alloc, code, lines.text)?;
    Ok(many_wording(alloc, lines, at))
}

/// Returns the wording of too many picks at the line that begins at an offset.
fn many_wording(alloc: Global, lines: Lines<'_>, at: usize) -> Wording
    ensures { IsTrue result.is_whole → TellsMany lines.entry.before lines.entry.text.now result }
{
    let mut wording = Wording::of(
        alloc,
        "the pick lines up to this one say more than 10000000 picks",
    );
    wording.spot(Ok(String::new(alloc)), at);
    note_line(alloc, &mut wording, lines, at);
    wording.note_text(alloc, "hint: record a shorter run: --steps 1000000");
    wording
}

/// Returns where the first line begins with which the picks are too many.
fn line_past(alloc: Global, code: &Code, lines: &[u8]) -> Result<usize, NoMemory>
    requires { KeepsLimits (code_view code.now) }
{
    let mut low = 0usize;
    let mut high = lines.len();
    for _ in 0..24 {
        let middle = low.saturating_add(high) / 2;
        if middle >= high {
            break;
        }
        let end = line_end(lines, middle.min(lines.len()));
        match read_picks(alloc, code, &lines[..end]) {
            Err(PickFault::TooMany) => high = middle,
            Err(PickFault::NoMemory) => return Err(NoMemory),
            _ => low = middle.saturating_add(1),
        }
    }
    Ok(high)
}

/// Notes which line of the input the line at an offset is.
pub(crate) fn note_line(alloc: Global, wording: &mut Wording, lines: Lines<'_>, at: usize)
    ensures { AddsNote wording.old (line_note lines.entry.before (line_at lines.entry.text.now (min at (length lines.entry.text.now))))
        wording.new }
{
    let line = place_of(lines.text, at.min(lines.text.len())).line;
    let number = line as u128 + lines.before as u128;
    wording.note(format!(in alloc; "line {number} of the input"));
}

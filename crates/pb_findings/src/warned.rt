//! What there is to say of the warnings of an accepted text of a file.

ghost use Rattle.std.specs.Prelude.{◌≡◌, ◌≤◌, IfOk, length, map};
ghost use Rattle.pb_accept.specs.Warned.{warning_line};
ghost use Rattle.pb_findings.specs.Findings.{AreWarned, IsWarned, warning_at, warning_code, without_last};
ghost use Rattle.pb_warnings.specs.Warnings as spec;

use crate::column::column_of;
use crate::part::{Part, lines_before};
use crate::spot::Spot;
use pb_accept::{Said, Teller};
use pb_base::{MemoryOutput, NoMemory};
use pb_command_io::Status;
use pb_options::Code;
use pb_voice::{Form, Voice};
use pb_warnings::Warning;
use std::alloc::{AllocError, Global};

/// The most bytes of the line of a warning.
const ROOM: usize = 1_024;

/// What there is to say of a warning.
#[derive(Drop)]
pub struct Warned {
    /// Its code.
    pub code: Code,
    /// Its line, without a line feed.
    pub line: Vec<u8>,
    /// What it is of, in words.
    pub message: String,
    /// What it is about.
    pub spot: Spot,
}

/// Returns the line of a warning.
fn warning_text(alloc: Global, given: &Warning) -> Result<Vec<u8>, NoMemory>
    ensures { IfOk result (λ line. line.items ≡ warning_line (spec.warning given.now)) }
{
    let mut memory = MemoryOutput::new(alloc, ROOM)?;
    let mut voice = Voice::new(alloc, Form::Lines);
    match voice.tell(&mut memory, Said::Warns(given)) {
        Ok(()) => {}
        Err(_) => return Err(NoMemory),
    }
    match voice.finish(&mut memory, Status::Done) {
        Status::Done => Ok(Vec::from_slice(alloc, memory.as_slice())?),
        _ => Err(NoMemory),
    }
}

/// Returns a line without its line feed.
fn without_feed(alloc: Global, line: &[u8]) -> Result<Vec<u8>, NoMemory>
    ensures { IfOk result (λ left. left.items ≡ without_last line.now) }
{
    Ok(Vec::from_slice(alloc, &line[..line.len().saturating_sub(1)])?)
}

/// Returns the code of a warning.
fn code_of(given: &Warning) -> Code
    ensures { result ≡ warning_code (spec.warning given.now) }
{
    match given {
        Warning::OneArm { .. } => Code::W1,
        Warning::NeverRead { .. } => Code::W2,
        Warning::NotUsed { .. } => Code::W3,
    }
}

/// Returns the line of its text that a warning is about.
fn line_number(given: &Warning) -> usize
    ensures { result ≡ warning_at (spec.warning given.now) }
{
    match given {
        Warning::OneArm { line } => *line,
        Warning::NeverRead { line, .. } => *line,
        Warning::NotUsed { line, .. } => *line,
    }
}

/// Returns the word that a warning is about.
fn word_of(given: &Warning) -> &[u8] {
    match given {
        Warning::OneArm { .. } => b"parbegin",
        Warning::NeverRead { integer, .. } => integer,
        Warning::NotUsed { resource, .. } => resource,
    }
}

/// Returns what a warning is of, in words.
fn message_of(alloc: Global, given: &Warning) -> Result<String, AllocError> {
    match given {
        Warning::OneArm { .. } => String::from_str(
            alloc,
            "this parbegin has one arm, and nothing runs beside it",
        ),
        Warning::NeverRead {
            process,
            integer,
            ..
        } => {
            let process = String::from_utf8_lossy(alloc, process)?;
            let integer = String::from_utf8_lossy(alloc, integer)?;
            format!(in alloc; "the integer `{integer}` of process `{process}` is never read")
        }
        Warning::NotUsed {
            resource,
            claims,
            capital,
            ..
        } => {
            let resource = String::from_utf8_lossy(alloc, resource)?;
            format!(in alloc;
                "the capital of resource `{resource}` is {capital}, and all claims on it together are {claims}"
            )
        }
    }
}

/// Returns what there is to say of a warning.
fn one_warned(alloc: Global, part: Part<'_>, given: &Warning) -> Result<Warned, NoMemory>
    requires { part.start ≤ length part.file.now }
    ensures { IfOk result (IsWarned part.entry.file.now part.entry.start (spec.warning given.now)) }
{
    let line = warning_text(alloc, given)?;
    let line = without_feed(alloc, &line)?;
    let number = line_number(given);
    let Some(there) = lines_before(part).checked_add(number) else {
        return Err(NoMemory);
    };
    let message = message_of(alloc, given)?;
    Ok(Warned {
        code: code_of(given),
        line,
        message,
        spot: Spot {
            line: there,
            column: column_of(part.text, number, word_of(given)),
            what: String::new(alloc),
        },
    })
}

/// Returns what there is to say of each warning of a text.
pub fn warned_of(alloc: Global, part: Part<'_>, found: &[Warning]) -> Result<Vec<Warned>, NoMemory>
    requires { part.start ≤ length part.file.now }
    ensures { IfOk result (λ warned. AreWarned part.entry.file.now part.entry.start (map spec.warning found.now) warned.items) }
{
    let mut warned = Vec::new(alloc);
    for given in found {
        warned.push(one_warned(alloc, part, given)?)?;
    }
    Ok(warned)
}

//! What there is to say of a file.

ghost use Rattle.std.specs.Prelude.{◌≡◌, ◌≤◌, Bool, IfErr, IfOk, OnOk, codes, length, map};
ghost use Rattle.pb_accept.specs.Refusals.{IsAcceptedText};
ghost use Rattle.pb_accept.specs.Warned.{AreToldFor};
ghost use Rattle.pb_codegen.specs.Compiled.{IsRefused};
ghost use Rattle.pb_findings.specs.Findings.{IsFound, IsVerdict};
ghost use Rattle.pb_findings.specs.Reports.{AreAllFound, IsLong, IsFileReport};
ghost use Rattle.pb_warnings.specs.Warnings.{warning};

use crate::entry::Entry;
use crate::part::Part;
use crate::refusal::{refusal_of, whole_refusal};
use crate::rule::Rule;
use crate::said::{Found, Report, Verdict};
use crate::warned::warned_of;
use bumpalo::Bump;
use pb_accept::look_within;
use pb_base::NoMemory;
use pb_codegen::CompileFault;
use pb_command_io::first_part;
use pb_options::{CheckOptions, Code};
use pb_warnings::Warning;
use std::alloc::Global;

/// Returns what comes of a text that is refused for a fault, or that there is too little memory to look at.
fn refused_as(alloc: Global, part: Part<'_>, fault: CompileFault) -> Result<Verdict, NoMemory>
    requires refused { IsRefused part.text.now fault }
    requires within { part.start ≤ length part.file.now }
    ensures { (warn : Bool) → IfOk result (IsVerdict warn part.entry.file.now part.entry.start part.entry.text.now) }
{
    match fault {
        CompileFault::Memory => Ok(Verdict::Refused(whole_refusal(
            alloc,
            Rule::Memory,
            "memory",
            "out of memory",
        )?)),
        _ => Ok(Verdict::Refused(refusal_of(alloc, part, fault)?)),
    }
}

/// Returns what comes of a text, by what a look at it came to.
fn verdict_of(
    alloc: Global,
    part: Part<'_>,
    warn: bool,
    answer: Result<Vec<Warning>, CompileFault>,
) -> Result<Verdict, NoMemory>
    requires accepted { OnOk answer (IsAcceptedText part.text.now) }
    requires warned { IfOk answer (λ found. AreToldFor warn part.text.now (map warning found.items)) }
    requires refused { IfErr answer (IsRefused part.text.now) }
    requires within { part.start ≤ length part.file.now }
    ensures { IfOk result (IsVerdict warn part.entry.file.now part.entry.start part.entry.text.now) }
{
    match answer {
        Ok(found) => Ok(Verdict::Accepted(warned_of(alloc, part, &found)?)),
        Err(fault) => refused_as(alloc, part, fault),
    }
}

/// Looks at the text with a number of a file.
fn found_of(
    alloc: Global,
    options: CheckOptions,
    arena: &mut Bump,
    number: usize,
    part: Part<'_>,
) -> Result<Found, NoMemory>
    requires within { part.start ≤ length part.file.now }
    ensures { IfOk result (IsFound options.warn part.entry.file.now number part.entry.start part.entry.text.now) }
{
    let answer = look_within(alloc, options, arena, part.text);
    Ok(Found {
        number,
        verdict: verdict_of(alloc, part, options.warn, answer)?,
    })
}

/// Looks at each text of a file, in turn.
fn texts_of(
    alloc: Global,
    options: CheckOptions,
    arena: &mut Bump,
    file: &[u8],
) -> Result<Vec<Found>, NoMemory>
    ensures { IfOk result (λ found. AreAllFound options.warn file.now found.items) }
{
    let mut said = Vec::new(alloc);
    let mut count = 0;
    let mut rest = file;
    loop {
        let cut = first_part(rest);
        let part = Part {
            file,
            start: file.len() - rest.len(),
            text: cut.part,
        };
        said.push(found_of(alloc, options, arena, count + 1, part)?)?;
        let Some(more) = cut.rest else {
            return Ok(said);
        };
        rest = more;
        count += 1;
    }
}

/// Returns what there is to say of a file that is too long.
fn long_file(alloc: Global) -> Result<Vec<Found>, NoMemory>
    ensures { IfOk result (λ found. IsLong found.items) }
{
    let refusal = whole_refusal(
        alloc,
        Rule::Code(Code::Input),
        "refused input",
        "the input is longer than 4194304 bytes",
    )?;
    let mut said = Vec::new(alloc);
    said.push(Found {
        number: 1,
        verdict: Verdict::Refused(refusal),
    })?;
    Ok(said)
}

/// Returns what there is to say of a file.
pub fn report_of(
    alloc: Global,
    options: CheckOptions,
    arena: &mut Bump,
    entry: Entry,
) -> Result<Report, NoMemory>
    ensures { IfOk result (IsFileReport options.warn entry) }
{
    match entry {
        Entry::File { name, bytes } => Ok(Report::Texts {
            name,
            found: texts_of(alloc, options, arena, &bytes)?,
        }),
        Entry::Unread { name, reason } => Ok(Report::Unread { name, reason }),
        Entry::Long { name } => Ok(Report::Texts {
            name,
            found: long_file(alloc)?,
        }),
    }
}

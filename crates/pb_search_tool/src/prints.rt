//! The message of lines that are refused, of which each asks something of a text.

ghost use Rattle.std.specs.Prelude.{IfOk, IsTrue};
ghost use Rattle.pb_code.specs.View.{code_view};
ghost use Rattle.pb_message_stops.specs.Told.{TellsBadLine};
ghost use Rattle.pb_message_stops.specs.declared.ends.Form.TheVariants.{Prints};
ghost use Rattle.pb_search_engine.specs.Requirements.{IsBadAsked};
ghost use Rattle.pb_search_tool.specs.Messages.{SaysOfPrintLines};

use crate::required::tell_requirement;
use pb_accept::Cause;
use pb_base::NoMemory;
use pb_code::Code;
use pb_message_excerpts::line_end;
use pb_message_stops::{Lines, bad_print_line};
use pb_messages::worded::worded;
use pb_mistakes::Wording;
use pb_search_engine::{PrintFault, read_asked};
use pb_verifier::Verified;
use std::alloc::Global;

/// What is before the line of a place.
const LABEL: &str = "print ";

/// Returns the message of lines of which one says no print of this code, after those that say requirements; nothing if
/// all others say prints.
pub fn prints_message(
    alloc: Global,
    verified: &Verified,
    lines: Lines<'_>,
) -> Result<Vec<u8>, NoMemory>
    ensures { IfOk result (λ message.
        SaysOfPrintLines verified.now.code lines.entry.before lines.entry.text.now message.items) }
{
    match read_asked(alloc, verified.code(), lines.text) {
        Ok(_) => Ok(Vec::new(alloc)),
        Err(fault) => unsaid_message(alloc, verified.code(), lines, fault),
    }
}

/// Returns the message of lines of which one says no print where it should.
fn unsaid_message(
    alloc: Global,
    code: &Code,
    lines: Lines<'_>,
    fault: PrintFault,
) -> Result<Vec<u8>, NoMemory>
    requires { IsBadAsked (code_view code.now) lines.text.now fault }
    ensures { IfOk result (λ message.
        SaysOfPrintLines (code_view code.now) lines.entry.before lines.entry.text.now message.items) }
{
    let PrintFault::NotPrint(at) = fault else {
        return Err(NoMemory);
    };
    let wording = line_wording(alloc, code, lines, at);
    let cause = Cause {
        code: pb_options::Code::K1,
        at: Some(at),
    };
    worded(alloc, LABEL, lines.text, &cause, &wording)
}

/// Returns the wording of the line that begins at a place and says no print where it should.
fn line_wording(alloc: Global, code: &Code, lines: Lines<'_>, at: usize) -> Wording
    ensures { IsTrue result.is_whole → TellsBadLine Prints lines.entry.before lines.entry.text.now at result }
{
    let mut wording = bad_print_line(alloc, code, lines, at);
    tell_requirement(alloc, &mut wording, line_of(lines.text, at));
    wording
}

/// Returns the line that begins at a place.
fn line_of(text: &[u8], at: usize) -> &[u8] {
    let start = at.min(text.len());
    &text[start..line_end(text, start)]
}

//! The three parts of what is debugged: a text or an object, pick lines, and commands.

ghost use Rattle.std.specs.Prelude.{◌≢◌, ◌≤◌, IfSome, length, option_map};
ghost use Rattle.pb_base.specs.Device.{LeavesRest};
ghost use Rattle.pb_code.specs.Limits.{AreLabels};
ghost use Rattle.pb_code.specs.View.{labels_view};
ghost use Rattle.pb_debug.specs.Sessions.{SaysBefore};
ghost use Rattle.pb_debug_engine.specs.Debugs.{SaysOfDebugging, SaysOfParts};
ghost use Rattle.pb_command_io.specs.Faults.{TellsAnyFault};
ghost use Rattle.pb_debug_engine.specs.Live.{AnswersOfCode, AnswersOfParts};
ghost use Rattle.pb_command_io.specs.Answers.{Tells};

use crate::session::tell_session;
use pb_accept::load::{load, load_refusal};
use pb_accept::{LinesFault, compile_text, lines_refusal, refuse};
use pb_base::limits::MAX_INPUT;
use pb_base::{Input, Lending, Output};
use pb_code::Labels;
use pb_command_io::{Status, tell};
use pb_debug::Debugger;
use pb_picks::read_picks;
use pb_sources::is_object;
use pb_verifier::Verified;
use std::alloc::Global;

/// Debugs the code that a first part gave under a lending, with the text whose lines are shown.
#[tactic(auto, using(pb_debug::proofs::LineParts::takes_none))]
fn debug_code<I: Input, O: Output>(
    alloc: Global,
    lending: Lending,
    verified: &Verified,
    labels: &Labels,
    shown: Option<&[u8]>,
    lines: &[u8],
    commands: &mut I,
    output: &mut O,
) -> Status
    requires { AreLabels verified.now.code (labels_view labels.now) }
    ensures text { IfSome (I.rest commands.old) (λ bytes.
        Tells (SaysOfDebugging lending verified.now (labels_view labels.now) (option_map (λ text. text.now) shown.entry) lines.now bytes)
        (O.written output.old) (O.written output.new) result) }
    ensures answered { I.failures commands.new ≢ I.failures commands.old → IfSome (I.rest commands.old) (λ bytes.
        SaysBefore (AnswersOfCode lending verified.now (labels_view labels.now) (option_map (λ text. text.now) shown.entry) lines.now)
        bytes (I.rest commands.new) (O.written output.old) (O.written output.new)) }
    ensures faults { TellsAnyFault
        (record { reads = I.failures commands.old; writes = O.failures output.old; written = O.written output.old })
        (record { reads = I.failures commands.new; writes = O.failures output.new; written = O.written output.new })
        result }
    ensures taken { LeavesRest (I.rest commands.old) (I.rest commands.new) MAX_INPUT }
{
    let picks = match read_picks(alloc, verified.code(), lines) {
        Ok(picks) => picks,
        Err(fault) => {
            return tell(
                alloc,
                lines_refusal(alloc, LinesFault::NotRead(fault)),
                output,
            );
        }
    };
    match Debugger::from_object_counted(alloc, verified, labels, lending, picks.as_slice()) {
        Ok(debugger) => {
            let mut debugger = debugger.with_source(shown);
            tell_session(alloc, &mut debugger, commands, output)
        }
        Err(fault) => tell(
            alloc,
            lines_refusal(alloc, LinesFault::NotMade(fault)),
            output,
        ),
    }
}

/// Debugs a text or an object under a lending after the picks of the pick lines: writes the answers to the commands, or the
/// line of the first refusal. The text or object is judged first, then the pick lines, then the picks.
#[tactic(auto, using(pb_debug::proofs::LineParts::takes_none))]
pub fn debug_parts<I: Input, O: Output>(
    alloc: Global,
    lending: Lending,
    source: &[u8],
    lines: &[u8],
    commands: &mut I,
    output: &mut O,
) -> Status
    requires { length source.now ≤ MAX_INPUT }
    ensures text { IfSome (I.rest commands.old) (λ bytes.
        Tells (SaysOfParts lending source.now lines.now bytes) (O.written output.old) (O.written output.new) result) }
    ensures answered { I.failures commands.new ≢ I.failures commands.old → IfSome (I.rest commands.old) (λ bytes.
        SaysBefore (AnswersOfParts lending source.now lines.now) bytes (I.rest commands.new) (O.written output.old) (O.written output.new)) }
    ensures faults { TellsAnyFault
        (record { reads = I.failures commands.old; writes = O.failures output.old; written = O.written output.old })
        (record { reads = I.failures commands.new; writes = O.failures output.new; written = O.written output.new })
        result }
    ensures taken { LeavesRest (I.rest commands.old) (I.rest commands.new) MAX_INPUT }
{
    if is_object(source) {
        return match load(alloc, source) {
            Ok((verified, labels)) => {
                debug_code(
                    alloc, lending, &verified, &labels, None, lines, commands, output,
                )
            }
            Err(fault) => tell(alloc, load_refusal(alloc, fault), output),
        };
    }
    match compile_text(alloc, source) {
        Ok(compiled) => {
            debug_code(
                alloc,
                lending,
                compiled.verified(),
                compiled.labels(),
                Some(source),
                lines,
                commands,
                output,
            )
        }
        Err(refusal) => refuse(alloc, refusal, output),
    }
}

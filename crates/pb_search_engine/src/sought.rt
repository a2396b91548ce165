//! What `outcomes` seeks in a text, over any input, teller and output.

ghost use Rattle.std.specs.Prelude.{◌≤◌, length};
ghost use Rattle.pb_code.specs.Limits.{AreLabels};
ghost use Rattle.pb_search_engine.specs.Sayings.{SaysOfAnyInput};
ghost use Rattle.pb_search_engine.specs.SaysOfAll.{AreCut, SaysOfCode, SaysOfSought};
ghost use Rattle.pb_voice.specs.Held.{at};
ghost use Rattle.pb_voice.specs.Tellings.{Answers, Speaks};

use crate::all::all_found;
use crate::answer::tell_answer;
use crate::endless::endless_found;
use crate::expect::tell_lines;
use crate::said::Said;
use crate::teller::{Teller, tell_fault, tell_last};
use pb_accept::{Said as PlainSaid, code_of_text};
use pb_base::limits::MAX_INPUT;
use pb_base::{Input, Output, ReadFault, read_whole};
use pb_codegen::Compiled;
use pb_command_io::{Status, two_parts};
use pb_options::OutcomesOptions;
use std::alloc::Global;

/// What is sought in a text.
#[derive(Clone, Copy, Debug, PartialEq, Eq)]
pub enum Sought {
    /// All outcomes and deadlocks.
    All,
    /// A run that never ends.
    Endless,
    /// Whether all runs are as the lines after the text say.
    Expected,
}

/// Tells what is found in the text on the input; of a text that is refused, its refusal.
///
/// After a read that failed nothing is told; after a write that failed, no more.
pub fn sought_engine<I: Input, O: Output, T: Teller>(
    alloc: Global,
    sought: Sought,
    options: OutcomesOptions,
    input: &mut I,
    teller: &mut T,
    output: &mut O,
) -> Status
    ensures { Answers T.tells T.breaks (SaysOfAnyInput (SaysOfSought sought options)) (I.rest input.old) (I.failures input.old)
        (I.failures input.new) (at O.written O.failures teller.old output.old) (at O.written O.failures teller.new output.new) result }
{
    match read_whole(alloc, input, MAX_INPUT) {
        Ok(bytes) => tell_text(alloc, sought, options, &bytes, teller, output),
        Err(ReadFault::TooLong) => {
            let said = Said::Plain(PlainSaid::TooLong);
            tell_last(teller, output, said, Status::Refused)
        }
        Err(ReadFault::Memory) => {
            let said = Said::Plain(PlainSaid::NoMemory);
            tell_last(teller, output, said, Status::Memory)
        }
        Err(ReadFault::Device) => Status::Device,
    }
}

/// Tells what is found in a text, which may have lines after it.
fn tell_text<O: Output, T: Teller>(
    alloc: Global,
    sought: Sought,
    options: OutcomesOptions,
    bytes: &[u8],
    teller: &mut T,
    output: &mut O,
) -> Status
    requires { length bytes.now ≤ MAX_INPUT }
    ensures { Speaks T.tells T.breaks (SaysOfAnyInput (SaysOfSought sought options) bytes.now) (at O.written O.failures teller.old output.old)
        (at O.written O.failures teller.new output.new) result }
{
    let (text, lines) = cut(sought, bytes);
    match code_of_text(alloc, text) {
        Ok(compiled) => {
            let status = tell_compiled(alloc, sought, options, &compiled, lines, teller, output);
            drop(compiled);
            status
        }
        Err(fault) => tell_fault(teller, output, &fault),
    }
}

/// Returns the text of an input, and the lines after it, of which there are none unless they say what is expected.
fn cut(sought: Sought, bytes: &[u8]) -> (&[u8], &[u8])
    ensures { AreCut sought bytes.now result.0.now result.1.now }
{
    match sought {
        Sought::All | Sought::Endless => (bytes, &[]),
        Sought::Expected => two_parts(bytes),
    }
}

/// Tells what is found in a compiled text with these lines after it.
fn tell_compiled<O: Output, T: Teller>(
    alloc: Global,
    sought: Sought,
    options: OutcomesOptions,
    compiled: &Compiled,
    lines: &[u8],
    teller: &mut T,
    output: &mut O,
) -> Status
    requires { AreLabels compiled.now.verified.code compiled.now.labels }
    ensures { Speaks T.tells T.breaks (SaysOfCode sought options lines.now compiled.now.verified.code compiled.now.labels)
        (at O.written O.failures teller.old output.old) (at O.written O.failures teller.new output.new) result }
{
    match sought {
        Sought::All => {
            let found = all_found(alloc, options, compiled);
            tell_answer(compiled, found, teller, output)
        }
        Sought::Endless => {
            let found = endless_found(alloc, options, compiled);
            tell_answer(compiled, found, teller, output)
        }
        Sought::Expected => tell_lines(alloc, options, compiled, lines, teller, output),
    }
}

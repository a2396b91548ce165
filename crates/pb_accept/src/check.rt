//! The command `check`, over any input, teller and output.

ghost use Rattle.std.specs.Prelude.{◌≡◌, ◌∷◌, [], Bool, IfErr, IfOk, OnErr, OnOk, map};
ghost use Rattle.pb_accept.specs.Checks.{SaysOfChecks, TellsAnswer, acceptance, check_status};
ghost use Rattle.pb_accept.specs.Claims.{SaysOfAny};
ghost use Rattle.pb_accept.specs.Refusals.{IsAcceptedText};
ghost use Rattle.pb_accept.specs.Sayings.{Warns};
ghost use Rattle.pb_accept.specs.Warned.{AreToldFor};
ghost use Rattle.pb_codegen.specs.Compiled.{IsRefused};
ghost use Rattle.pb_voice.specs.Held.{at};
ghost use Rattle.pb_voice.specs.Tellings.{Answers, Breaking, Speaks, Telling};
ghost use Rattle.pb_warnings.specs.Warnings.{warning};

use crate::said::Said;
use crate::teller::{Teller, tell_last};
use crate::warned::warnings_in;
use bumpalo::Bump;
use linked_list_allocator::LocalHeap;
use pb_base::limits::MAX_INPUT;
use pb_base::{DeviceFault, Input, Output, ReadFault, read_whole};
use pb_codegen::{CompileFault, compile};
use pb_command_io::{Status, first_part};
use pb_options::CheckOptions;
use pb_warnings::Warning;
use std::alloc::{Allocator, Global};

/// What came of telling the answer to one text.
#[derive(Clone, Copy)]
enum Told {
    // It was told, and the text was refused or not.
    Answered(bool),
    // Out of memory to look at the text.
    OutOfMemory,
    // A write failed.
    Broken,
}

/// Looks whether a text is accepted. Its trees are in the memory of `trees`.
fn accept<A: Allocator + Clone>(alloc: Global, trees: A, text: &[u8]) -> Result<(), CompileFault>
    ensures accepted { OnOk result (IsAcceptedText text.now) }
    ensures refused { IfErr result (IsRefused text.now) }
{
    match compile(alloc, trees, text) {
        Ok(compiled) => {
            drop(compiled);
            Ok(())
        }
        Err(fault) => Err(fault),
    }
}

/// Looks at one text, whose trees are in the memory of `trees`, and returns its warnings if they are asked for.
fn look<A: Allocator + Clone>(
    alloc: Global,
    trees: A,
    warn: bool,
    text: &[u8],
) -> Result<Vec<Warning>, CompileFault>
    ensures accepted { OnOk result (IsAcceptedText text.now) }
    ensures warned { IfOk result (λ found. AreToldFor warn text.now (map warning found.items)) }
    ensures refused { IfErr result (IsRefused text.now) }
{
    accept(alloc, trees.clone()?, text)?;
    if warn {
        warnings_in(alloc, trees, text)
    } else {
        Ok(Vec::new(alloc))
    }
}

/// Looks at one text, whose trees are in a new heap of this size, or else in the arena, which is reset
/// afterwards, and returns its warnings if they are asked for.
pub fn look_within(
    alloc: Global,
    options: CheckOptions,
    arena: &mut Bump,
    text: &[u8],
) -> Result<Vec<Warning>, CompileFault>
    ensures accepted { OnOk result (IsAcceptedText text.now) }
    ensures warned { IfOk result (λ found. AreToldFor options.warn text.now (map warning found.items)) }
    ensures refused { IfErr result (IsRefused text.now) }
{
    if let Some(size) = options.heap {
        return match LocalHeap::new(alloc, size as usize) {
            Ok(heap) => look(alloc, &heap, options.warn, text),
            Err(_) => Err(CompileFault::Memory),
        };
    }
    let answer = look(alloc, &*arena, options.warn, text);
    if arena.reset().is_err() {
        *arena = Bump::new(alloc);
    }
    answer
}

/// Tells warnings one after another.
fn tell_warnings<O: Output, T: Teller>(
    found: &Vec<Warning>,
    teller: &mut T,
    output: &mut O,
) -> Result<(), DeviceFault>
    ensures told { OnOk result (Telling T.tells (at O.written O.failures teller.old output.old)
        (map Warns (map warning found.now.items)) (at O.written O.failures teller.new output.new)) }
    ensures broken { OnErr result (Breaking T.tells T.breaks (at O.written O.failures teller.old output.old)
        (map Warns (map warning found.now.items)) (at O.written O.failures teller.new output.new)) }
{
    for one in found {
        teller.tell(output, Said::Warns(one))?;
    }
    Ok(())
}

/// Tells that a text is accepted, and its warnings.
fn tell_acceptance<O: Output, T: Teller>(
    found: &Vec<Warning>,
    teller: &mut T,
    output: &mut O,
) -> Result<(), DeviceFault>
    ensures told { OnOk result (Telling T.tells (at O.written O.failures teller.old output.old)
        (acceptance (map warning found.now.items)) (at O.written O.failures teller.new output.new)) }
    ensures broken { OnErr result (Breaking T.tells T.breaks (at O.written O.failures teller.old output.old)
        (acceptance (map warning found.now.items)) (at O.written O.failures teller.new output.new)) }
{
    teller.tell(output, Said::Accepted)?;
    tell_warnings(found, teller, output)
}

/// Tells the refusal of a text.
fn tell_refusal<O: Output, T: Teller>(
    text: &[u8],
    fault: &CompileFault,
    teller: &mut T,
    output: &mut O,
) -> Told
    requires { IsRefused text.now fault.now }
    ensures { (warn : Bool) → TellsAnswer T.tells T.breaks warn text.now (at O.written O.failures teller.old output.old)
        (at O.written O.failures teller.new output.new) result }
{
    match fault {
        CompileFault::Memory => Told::OutOfMemory,
        _ => match teller.tell(output, Said::Refused(fault)) {
            Ok(()) => Told::Answered(true),
            Err(_) => Told::Broken,
        },
    }
}

/// Tells the answer to one text.
fn tell_answer<O: Output, T: Teller>(
    text: &[u8],
    answer: &Result<Vec<Warning>, CompileFault>,
    teller: &mut T,
    output: &mut O,
) -> Told
    requires accepted { OnOk answer.now (IsAcceptedText text.now) }
    requires refused { IfErr answer.now (IsRefused text.now) }
    ensures { (warn : Bool) → IfOk answer.now (λ found. AreToldFor warn text.now (map warning found.items))
        → TellsAnswer T.tells T.breaks warn text.now (at O.written O.failures teller.old output.old)
        (at O.written O.failures teller.new output.new) result }
{
    match answer {
        Ok(found) => match tell_acceptance(found, teller, output) {
            Ok(()) => Told::Answered(false),
            Err(_) => Told::Broken,
        },
        Err(fault) => tell_refusal(text, fault, teller, output),
    }
}

/// Returns the status of a call that came to its end.
fn status_of(refused: bool) -> Status
    ensures { result ≡ check_status refused }
{
    if refused {
        Status::Refused
    } else {
        Status::Done
    }
}

/// Answers each part of the input in turn.
fn check_parts<O: Output, T: Teller>(
    alloc: Global,
    options: CheckOptions,
    bytes: &[u8],
    teller: &mut T,
    output: &mut O,
) -> Status
    ensures { Speaks T.tells T.breaks (SaysOfChecks options.warn bytes.now) (at O.written O.failures teller.old output.old)
        (at O.written O.failures teller.new output.new) result }
{
    let mut arena = Bump::new(alloc);
    let mut refused = false;
    let mut rest = bytes;
    loop {
        let cut = first_part(rest);
        let answer = look_within(alloc, options, &mut arena, cut.part);
        match tell_answer(cut.part, &answer, teller, output) {
            Told::Answered(is_refusal) => refused |= is_refusal,
            Told::OutOfMemory => return tell_last(teller, output, Said::NoMemory, Status::Memory),
            Told::Broken => return Status::Device,
        }
        let Some(more) = cut.rest else {
            return status_of(refused);
        };
        rest = more;
    }
}

/// Checks the texts that the input holds, which lines `%%` part: tells of each that it is accepted, or its refusal. If
/// warnings are asked for, those of an accepted text follow in the order of the text.
///
/// The trees of a text are in an arena that is reset after it, or in a new heap of the size that is given.
/// After a read that failed nothing is told; after a write that failed, no more.
pub fn check_engine<I: Input, O: Output, T: Teller>(
    alloc: Global,
    options: CheckOptions,
    input: &mut I,
    teller: &mut T,
    output: &mut O,
) -> Status
    ensures { Answers T.tells T.breaks (SaysOfAny (SaysOfChecks options.warn)) (I.rest input.old) (I.failures input.old) (I.failures input.new)
        (at O.written O.failures teller.old output.old)
        (at O.written O.failures teller.new output.new) result }
{
    match read_whole(alloc, input, MAX_INPUT) {
        Ok(bytes) => check_parts(alloc, options, &bytes, teller, output),
        Err(ReadFault::TooLong) => tell_last(teller, output, Said::TooLong, Status::Refused),
        Err(ReadFault::Memory) => tell_last(teller, output, Said::NoMemory, Status::Memory),
        Err(ReadFault::Device) => Status::Device,
    }
}

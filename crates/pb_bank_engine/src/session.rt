//! The lines of an input, answered one after another.

ghost use Rattle.std.specs.Prelude.{◌≡◌, ◌≢◌, ◌++◌, [], ℕ, List, Some, IfErr, IfSome, OnOk, OnErr};
ghost use Rattle.pb_debug_commands.specs.Lines.{cut};
ghost use Rattle.pb_bank_engine.specs.Sessions.{kept, Fed, FedSome, SaysAll, SaysSome, SaysBefore, StopsAt, IsTold};
ghost use Rattle.pb_bank_engine.specs.Sessions.{session_bytes, CountsBoth, CountsWrites, WritesLines};

use crate::line::Line;
use crate::sayings::put_sayings;
use pb_bank::{Desk, after_command};
use pb_base::{Input, NoMemory, Output, write_all};
use pb_voice::Form;
use std::alloc::Global;

const BLOCK: usize = 4_096;

/// Why a session ends before its input.
#[derive(Clone, Copy, Debug, PartialEq, Eq)]
pub enum Stop {
    /// Out of memory.
    Memory,
    /// A read or a write failed.
    Device,
}

/// Appends the answer to a line to `page`. If out of memory, the page stays as it was.
fn answer_line(
    desk: &mut Desk,
    alloc: Global,
    form: Form,
    line: &[u8],
    page: &mut Vec<u8>,
) -> Result<(), NoMemory>
    ensures told { OnOk result (IsTold form desk.old line.now (Some page.old.items) (Some page.new.items) desk.new) }
    ensures kept { OnErr result (page.new.items ≡ page.old.items) }
{
    let mut said = Vec::new(alloc);
    desk.answer(&mut said, line)?;
    let mut text = Vec::new(alloc);
    put_sayings(
        &mut text,
        alloc,
        form,
        desk.names(),
        after_command(line),
        &said,
    )?;
    page.extend_from_slice(&text)?;
    Ok(())
}

/// Takes the next bytes, and appends the answer to each line that ends among them to `page`.
fn feed_page(
    desk: &mut Desk,
    alloc: Global,
    form: Form,
    line: &mut Line,
    bytes: &[u8],
    page: &mut Vec<u8>,
) -> Result<(), NoMemory>
    ensures fed { OnOk result ((part : List ℕ) → line.old ≡ kept part
        → Fed form desk.old part bytes.now (Some page.old.items) (Some page.new.items) line.new desk.new) }
    ensures some { OnErr result ((part : List ℕ) → line.old ≡ kept part
        → FedSome form Stop.Memory desk.old part bytes.now (Some page.old.items) (Some page.new.items)) }
{
    for i in 0..bytes.len() {
        if bytes[i] == b'\n' {
            match answer_line(desk, alloc, form, line.as_slice(), page) {
                Ok(()) => line.clear(),
                Err(fault) => return Err(fault),
            }
        } else {
            line.put(bytes[i]);
        }
    }
    Ok(())
}

/// Takes the next bytes, and writes the answers to the lines that end among them, all at once.
fn feed<O: Output>(
    desk: &mut Desk,
    alloc: Global,
    form: Form,
    line: &mut Line,
    bytes: &[u8],
    page: &mut Vec<u8>,
    output: &mut O,
) -> Result<(), Stop>
    ensures fed { OnOk result ((part : List ℕ) → line.old ≡ kept part
        → Fed form desk.old part bytes.now (O.written output.old) (O.written output.new) line.new desk.new) }
    ensures some { IfErr result (λ e. (part : List ℕ) → line.old ≡ kept part
        → FedSome form e desk.old part bytes.now (O.written output.old) (O.written output.new)) }
    ensures counted { OnOk result (O.failures output.new ≡ O.failures output.old) }
    ensures fault { IfErr result (λ e. CountsWrites e (O.failures output.old) (O.failures output.new)) }
{
    page.clear();
    let fed = feed_page(desk, alloc, form, line, bytes, page);
    let Ok(()) = write_all(output, page.as_slice()) else {
        return Err(Stop::Device);
    };
    match fed {
        Ok(()) => Ok(()),
        Err(_) => Err(Stop::Memory),
    }
}

/// Writes the answer to a line.
fn tell_line<O: Output>(
    desk: &mut Desk,
    alloc: Global,
    form: Form,
    line: &[u8],
    page: &mut Vec<u8>,
    output: &mut O,
) -> Result<(), Stop>
    ensures told { OnOk result (IsTold form desk.old line.now (O.written output.old) (O.written output.new) desk.new) }
    ensures stopped { IfErr result (λ e. StopsAt form e desk.old line.now (O.written output.old) (O.written output.new)) }
    ensures counted { OnOk result (O.failures output.new ≡ O.failures output.old) }
    ensures fault { IfErr result (λ e. CountsWrites e (O.failures output.old) (O.failures output.new)) }
{
    page.clear();
    let Ok(()) = answer_line(desk, alloc, form, line, page) else {
        return Err(Stop::Memory);
    };
    match write_all(output, page) {
        Ok(()) => Ok(()),
        Err(_) => Err(Stop::Device),
    }
}

/// Answers each line that ends in the input, and keeps what is after the last.
fn read_lines<I: Input, O: Output>(
    desk: &mut Desk,
    alloc: Global,
    form: Form,
    line: &mut Line,
    page: &mut Vec<u8>,
    input: &mut I,
    output: &mut O,
) -> Result<(), Stop>
    requires { line.old ≡ [] }
    ensures fed { OnOk result (IfSome (I.rest input.old) (λ bytes.
        Fed form desk.old [] (session_bytes bytes) (O.written output.old) (O.written output.new) line.new desk.new)) }
    ensures some { IfErr result (λ e. IfSome (I.rest input.old) (λ bytes.
        FedSome form e desk.old [] (session_bytes bytes) (O.written output.old) (O.written output.new))) }
    ensures answered { I.failures input.new ≢ I.failures input.old → IfSome (I.rest input.old) (λ bytes.
        SaysBefore (λ read text. WritesLines form desk.old (cut [] read).lines text desk.new) bytes (I.rest input.new)
        (O.written output.old) (O.written output.new)) }
    ensures counted_reads { OnOk result (I.failures input.new ≡ I.failures input.old) }
    ensures counted_writes { OnOk result (O.failures output.new ≡ O.failures output.old) }
    ensures fault { IfErr result (λ e. CountsBoth e (I.failures input.old) (I.failures input.new)
        (O.failures output.old) (O.failures output.new)) }
{
    let mut block = [0; BLOCK];
    let mut left = usize::MAX;
    while 0 < left {
        let most = left.min(BLOCK);
        let Ok(count) = input.read(&mut block[..most]) else {
            return Err(Stop::Device);
        };
        if count == 0 {
            return Ok(());
        }
        match feed(desk, alloc, form, line, &block[..count], page, output) {
            Ok(()) => left -= count,
            Err(stop) => return Err(stop),
        }
    }
    Ok(())
}

/// Answers each line of an input before it reads on, up to its end; the last line feed may be missing. The
/// answers to the lines that one read gives are written at once. If a read failed, each complete line that was
/// read is answered, and an incomplete one is not.
pub fn session<I: Input, O: Output>(
    desk: &mut Desk,
    alloc: Global,
    form: Form,
    input: &mut I,
    output: &mut O,
) -> Result<(), Stop>
    ensures all { OnOk result (IfSome (I.rest input.old) (λ bytes.
        SaysAll form desk.old bytes (O.written output.old) (O.written output.new) desk.new)) }
    ensures some { IfErr result (λ e. IfSome (I.rest input.old) (λ bytes.
        SaysSome form e desk.old bytes (O.written output.old) (O.written output.new))) }
    ensures answered { I.failures input.new ≢ I.failures input.old → IfSome (I.rest input.old) (λ bytes.
        SaysBefore (λ read text. WritesLines form desk.old (cut [] read).lines text desk.new) bytes (I.rest input.new)
        (O.written output.old) (O.written output.new)) }
    ensures counted_reads { OnOk result (I.failures input.new ≡ I.failures input.old) }
    ensures counted_writes { OnOk result (O.failures output.new ≡ O.failures output.old) }
    ensures fault { IfErr result (λ e. CountsBoth e (I.failures input.old) (I.failures input.new)
        (O.failures output.old) (O.failures output.new)) }
{
    let mut line = Line::new();
    let mut page = Vec::new(alloc);
    if let Err(stop) = read_lines(desk, alloc, form, &mut line, &mut page, input, output) {
        return Err(stop);
    }
    if line.as_slice().is_empty() {
        // Called for its contract alone, which the proof needs.
        let _ = desk.waiting();
        return Ok(());
    }
    tell_line(desk, alloc, form, line.as_slice(), &mut page, output)
}

//! Calls of the engines, and what each writes.

use pb_base::{Input, MemoryInput, MemoryOutput, Output};
use pb_code::Format;
use pb_command_io::Status;
use pb_engines::{
    CheckOptions, EmitOptions, Lend, RecordOptions, ReplayOptions, RunOptions, write_checks,
    write_claims, write_emission, write_execution, write_migration, write_record, write_replay,
    write_run,
};
use pb_voice::Form;
use std::alloc::Global;
use std::sync::Wait;
use std::thread::Threads;

/// A command with its options.
#[derive(Clone, Copy)]
pub enum Call {
    Check(CheckOptions),
    Claims,
    Emit(Format),
    Exec(RunOptions),
    Migrate,
    /// With a seed, if the picks are drawn.
    Record(RunOptions, Option<u64>),
    /// With this seed, by the cash alone.
    RecordByCash(RunOptions, u64),
    Replay,
    ReplayByCash,
    Run(RunOptions),
}

/// `check` with trees in the memory of the machine.
pub const CHECK: Call = Call::Check(CheckOptions {
    heap: None,
    warn: false,
});

/// By one worker, at most a million picks.
pub const MILLION: RunOptions = RunOptions {
    workers: 1,
    quantum: 64,
    steps: 1_000_000,
};

/// By one worker, at most a thousand picks.
pub const THOUSAND: RunOptions = RunOptions {
    workers: 1,
    quantum: 64,
    steps: 1_000,
};

/// A text that is put together from pieces, each with the number of times that it is there.
pub type Pieces = &'static [(&'static [u8], usize)];

/// What a call is given.
#[derive(Clone, Copy)]
pub enum Given {
    Text(&'static [u8]),
    Pieces(Pieces),
}

/// A call, what it is given, and its status and what it writes then.
pub type Case = (Call, Given, Status, &'static [u8]);

/// Makes a call, and returns its status.
pub fn make<I: Input, O: Output>(
    rt: &(impl AllocGlobal + Threads + Wait + Sync),
    call: Call,
    input: &mut I,
    output: &mut O,
) -> Status {
    let alloc = rt.alloc();
    match call {
        Call::Check(options) => write_checks(alloc, Form::Lines, options, input, output),
        Call::Claims => write_claims(alloc, Form::Lines, input, output),
        Call::Emit(object) => write_emission(
            alloc,
            Form::Lines,
            EmitOptions { object },
            input,
            output,
        ),
        Call::Exec(options) => write_execution(rt, alloc, Form::Lines, options, input, output),
        Call::Migrate => write_migration(alloc, Form::Lines, input, output),
        Call::Record(run, seed) => {
            let lend = Lend::Banker;
            let options = RecordOptions { run, seed, lend };
            write_record(rt, alloc, Form::Lines, options, input, output)
        }
        Call::RecordByCash(run, seed) => {
            let options = RecordOptions {
                run,
                seed: Some(seed),
                lend: Lend::Cash,
            };
            write_record(rt, alloc, Form::Lines, options, input, output)
        }
        Call::Replay => {
            let options = ReplayOptions { lend: Lend::Banker };
            write_replay(alloc, Form::Lines, options, input, output)
        }
        Call::ReplayByCash => {
            let options = ReplayOptions { lend: Lend::Cash };
            write_replay(alloc, Form::Lines, options, input, output)
        }
        Call::Run(options) => write_run(rt, alloc, Form::Lines, options, input, output),
    }
}

/// Returns whether a call with this text ends with this status and has written this.
pub fn writes(
    rt: &(impl AllocGlobal + Threads + Wait + Sync),
    call: Call,
    text: &[u8],
    status: Status,
    said: &[u8],
) -> bool {
    let mut input = MemoryInput::new(text);
    match MemoryOutput::new(rt.alloc(), 4_096) {
        Ok(output) => {
            let mut output = output;
            make(rt, call, &mut input, &mut output) == status && output.as_slice() == said
        }
        Err(_) => false,
    }
}

/// Adds a piece again and again.
fn add(text: &mut Vec<u8>, piece: &[u8], times: usize) -> Option<()> {
    for _ in 0..times {
        text.extend_from_slice(piece).ok()?;
    }
    Some(())
}

/// Returns the text of these pieces.
pub fn put_together(alloc: Global, pieces: Pieces) -> Option<Vec<u8>> {
    let mut text = Vec::new(alloc);
    for (piece, times) in pieces {
        add(&mut text, *piece, *times)?;
    }
    Some(text)
}

/// Returns whether a case is as it says.
fn is_so(rt: &(impl AllocGlobal + Threads + Wait + Sync), case: &Case) -> bool {
    let (call, given, status, said) = *case;
    match given {
        Given::Text(text) => writes(rt, call, text, status, said),
        Given::Pieces(pieces) => match put_together(rt.alloc(), pieces) {
            Some(text) => writes(rt, call, text.as_slice(), status, said),
            None => false,
        },
    }
}

/// Returns the number of the first case that is not as it says, from 0, if there is one.
pub fn first_wrong(
    rt: &(impl AllocGlobal + Threads + Wait + Sync),
    cases: &[Case],
) -> Option<usize> {
    for (number, case) in cases.iter().enumerate() {
        if !is_so(rt, case) {
            return Some(number);
        }
    }
    None
}

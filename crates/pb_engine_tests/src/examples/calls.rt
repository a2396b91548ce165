//! Calls of the program's commands on an example.

use pb_bank_engine::bank_engine;
use pb_base::{Lending, MemoryInput, MemoryOutput};
use pb_capitals::Changes;
use pb_code::Format;
use pb_command_io::Status;
use pb_engines::{
    CheckOptions, EmitOptions, Lend, RecordOptions, ReplayOptions, RunOptions, write_checks,
    write_claims, write_emission, write_execution, write_migration, write_record, write_replay,
    write_run,
};
use pb_plan_engine::write_plan;
use pb_voice::Form;
use std::sync::Wait;
use std::thread::Threads;

/// The longest output that is expected, in bytes.
const MAX_OUTPUT: usize = 4_096;

const CHECKED: CheckOptions = CheckOptions {
    heap: None,
    warn: false,
};

const BY_BANKER: ReplayOptions = ReplayOptions { lend: Lend::Banker };

const BY_CASH: ReplayOptions = ReplayOptions { lend: Lend::Cash };

/// A command with what it is told.
pub enum Command {
    Bank,
    Check,
    Claims,
    Emit,
    Exec { quantum: u32, steps: u32 },
    Migrate,
    Plan,
    PlanByCash,
    Record { seed: u64 },
    RecordByCash { seed: u64 },
    Replay,
    ReplayByCash,
    Run { quantum: u32, steps: u32 },
}

/// A command, what it reads, and what it writes.
pub struct Call {
    pub name: &'static str,
    pub command: Command,
    pub input: &'static [u8],
    pub status: Status,
    pub output: &'static [u8],
}

/// Returns the name of the first call whose status or output is not as expected.
pub fn first_wrong(
    rt: &(impl AllocGlobal + Threads + Wait + Sync),
    calls: &[Call],
) -> Option<&'static str> {
    for call in calls {
        if !is_as_expected(rt, call) {
            return Some(call.name);
        }
    }
    None
}

fn is_as_expected(rt: &(impl AllocGlobal + Threads + Wait + Sync), call: &Call) -> bool {
    match MemoryOutput::new(rt.alloc(), MAX_OUTPUT) {
        Ok(mut output) => {
            let status = status_of(rt, call, &mut output);
            status == Some(call.status) && output.as_slice() == call.output
        }
        Err(_) => false,
    }
}

/// Makes a call, and returns its status, or nothing if its numbers are out of range.
fn status_of(
    rt: &(impl AllocGlobal + Threads + Wait + Sync),
    call: &Call,
    output: &mut MemoryOutput,
) -> Option<Status> {
    let alloc = rt.alloc();
    let mut input = MemoryInput::new(call.input);
    let none = Changes::none();
    Some(match call.command {
        Command::Bank => bank_engine(alloc, Form::Lines, &mut input, output),
        Command::Check => write_checks(alloc, Form::Lines, CHECKED, &mut input, output),
        Command::Claims => write_claims(alloc, Form::Lines, &mut input, output),
        Command::Emit => {
            let options = EmitOptions {
                object: Format::Two,
            };
            write_emission(alloc, Form::Lines, options, &mut input, output)
        }
        Command::Exec { quantum, steps } => {
            write_execution(
                rt,
                alloc,
                Form::Lines,
                run_options(quantum, steps)?,
                &mut input,
                output,
            )
        }
        Command::Migrate => write_migration(alloc, Form::Lines, &mut input, output),
        Command::Plan => write_plan(
            alloc,
            Form::Lines,
            Lending::ByBanker,
            &none,
            &mut input,
            output,
        ),
        Command::PlanByCash => write_plan(
            alloc,
            Form::Lines,
            Lending::ByCash,
            &none,
            &mut input,
            output,
        ),
        Command::Record { seed } => {
            let options = RecordOptions {
                run: run_options(64, 1_000_000)?,
                seed: Some(seed),
                lend: Lend::Banker,
            };
            write_record(rt, alloc, Form::Lines, options, &mut input, output)
        }
        Command::RecordByCash { seed } => {
            let options = RecordOptions {
                run: run_options(64, 1_000_000)?,
                seed: Some(seed),
                lend: Lend::Cash,
            };
            write_record(rt, alloc, Form::Lines, options, &mut input, output)
        }
        Command::Replay => write_replay(alloc, Form::Lines, BY_BANKER, &mut input, output),
        Command::ReplayByCash => write_replay(alloc, Form::Lines, BY_CASH, &mut input, output),
        Command::Run { quantum, steps } => {
            write_run(
                rt,
                alloc,
                Form::Lines,
                run_options(quantum, steps)?,
                &mut input,
                output,
            )
        }
    })
}

/// Returns the options of one worker, if the numbers are in range.
fn run_options(quantum: u32, steps: u32) -> Option<RunOptions> {
    if quantum < 1 || 4_096 < quantum || 10_000_000 < steps {
        return None;
    }
    Some(RunOptions {
        workers: 1,
        quantum,
        steps,
    })
}

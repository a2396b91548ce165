//! What `bank`, `draw` and `states` say, told as lines and as objects.

use pb_bank_engine::bank_engine;
use pb_base::{MemoryInput, MemoryOutput, NoMemory};
use pb_command_io::Status;
use pb_draw_engine::write_drawing;
use pb_example_texts::bank::{QUEUE_COMMANDS, TABLE_COMMANDS};
use pb_example_texts::deadlock::CIRCLE_RUN;
use pb_example_texts::first::LOST_RUN;
use pb_example_texts::solutions::{CAUTIOUS_RUN, CUSTOMERS_C_RUN};
use pb_json_lines::{Dialect, json_lines};
use pb_options::{DrawOptions, Lend};
use pb_page::Shown;
use pb_page_engine::write_states;
use pb_voice::Form;
use std::alloc::Global;

/// The commands, two of which lend in a way.
#[derive(Clone, Copy)]
enum Command {
    Bank,
    Draw(Lend),
    States(Lend),
}

/// Runs that end, that could go on, that end in a deadlock or a fault, and what is refused: a pick, a pick line, a text
/// and nothing.
const RUNS: [&[u8]; 8] = [
    LOST_RUN,
    CIRCLE_RUN,
    CUSTOMERS_C_RUN,
    CAUTIOUS_RUN,
    b"process p begin integer x; x := 9007199254740993; x := 1 div 0 // \"a\\b\t<\"\nend\n%%\np.0 9\n",
    b"process p begin print 1 end\n%%\nq.0 1\n",
    b"process p begin print x end\n%%\np.0 1\n",
    b"",
];

/// A session of jobs, one of wishes, one in which much is refused, and what the commands are.
const SESSIONS: [&[u8]; 4] = [
    TABLE_COMMANDS,
    QUEUE_COMMANDS,
    b"resource r 2\njob a 2 r\njob b 2 r\nhold a 1 r\norder\norder b b\norder a a\norder a\nwhy b 2 r\nask b 2 r\nwant b 2 r\nstate\ncapital r 1\nask \"<\\ 1 r\nclaim a 3 r\nask a 3 r\nfly\ndrop b\nleave a",
    b"help\n",
];

/// How many bytes hold what is told.
const BYTES: usize = 100_000;

/// Makes a call in a form, and returns its status.
fn status_of(
    alloc: Global,
    command: Command,
    form: Form,
    given: &[u8],
    output: &mut MemoryOutput,
) -> Status {
    let mut input = MemoryInput::new(given);
    match command {
        Command::Bank => bank_engine(alloc, form, &mut input, output),
        Command::Draw(lend) => {
            let options = DrawOptions {
                lend,
                width: None,
                scale: 100,
            };
            write_drawing(alloc, form, options, &mut input, output)
        }
        Command::States(lend) => {
            let shown = Shown { from: 1, rows: 100 };
            write_states(alloc, form, lend.lending(), shown, &mut input, output)
        }
    }
}

/// Returns whose forms the lines of a command have.
fn dialect_of(command: Command) -> Dialect {
    match command {
        Command::Bank => Dialect::Bank,
        Command::Draw(_) | Command::States(_) => Dialect::Program,
    }
}

/// Returns whether the objects are the JSON lines of the lines, with the same status.
fn says_the_same(alloc: Global, command: Command, given: &[u8]) -> Result<bool, NoMemory> {
    let mut lines = MemoryOutput::new(alloc, BYTES)?;
    let mut objects = MemoryOutput::new(alloc, BYTES)?;
    let of_lines = status_of(alloc, command, Form::Lines, given, &mut lines);
    let of_objects = status_of(alloc, command, Form::Objects, given, &mut objects);
    let made = json_lines(alloc, dialect_of(command), lines.as_slice())?;
    let written = of_lines != Status::Device && of_lines != Status::Memory;
    Ok(written && of_lines == of_objects && objects.as_slice() == made.as_slice())
}

/// Returns whether a command tells each of these inputs alike.
fn all_are_alike(alloc: Global, command: Command, inputs: &[&[u8]]) -> Result<bool, NoMemory> {
    for given in inputs {
        if !says_the_same(alloc, command, given)? {
            return Ok(false);
        }
    }
    Ok(true)
}

#[test]
fn sessions_are_told_alike(rt: HostRuntime) {
    assert!(rt;
        matches!(
            all_are_alike(rt.alloc(), Command::Bank, &SESSIONS),
            Ok(true)
        )
    );
}

#[test]
fn pictures_are_told_alike(rt: HostRuntime) {
    for lend in [Lend::Banker, Lend::Cash] {
        let draw = Command::Draw(lend);
        assert!(rt; matches!(all_are_alike(rt.alloc(), draw, &RUNS), Ok(true)));
    }
}

#[test]
fn documents_are_told_alike(rt: HostRuntime) {
    for lend in [Lend::Banker, Lend::Cash] {
        let states = Command::States(lend);
        assert!(rt; matches!(all_are_alike(rt.alloc(), states, &RUNS), Ok(true)));
    }
}

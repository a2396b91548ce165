//! What `emit`, `migrate` and `replay` say, told as lines and as objects.

use pb_accept::{EmitOptions, emit_engine, migrate_engine, replay_engine};
use pb_base::{MemoryInput, MemoryOutput, NoMemory, Output};
use pb_code::Format;
use pb_command_io::Status;
use pb_json_lines::{Dialect, json_lines};
use pb_options::{Lend, ReplayOptions};
use pb_voice::{Form, Voice};
use std::alloc::Global;

/// The commands.
#[derive(Clone, Copy)]
enum Command {
    Emit,
    Migrate,
    Replay,
}

/// A process called `deadlock`, with an integer called `at`, which prints a number that a reader of JSON may round; a
/// fault; and amounts of two resources.
pub const TEXT: &[u8] =
    b"resource tape = 2; resource disk = 3; process deadlock begin integer at; at := 9007199254740993; hold 2 of tape, 1 of disk do print at od end process q begin print 1 div 0 end\n";

/// The same with the picks of a run.
const RUN: &[u8] =
    b"resource tape = 2; resource disk = 3; process deadlock begin integer at; at := 9007199254740993; hold 2 of tape, 1 of disk do print at od end process q begin print 1 div 0 end\n%%\ndeadlock.0 7\nq.0 3\n";

/// Its events, process by process.
const OBJECTS: &[u8] =
    b"{\"kind\":\"grant\",\"process\":\"deadlock\",\"arm\":0,\"amounts\":[{\"amount\":2,\"resource\":\"tape\"},{\"amount\":1,\"resource\":\"disk\"}]}\n{\"kind\":\"print\",\"process\":\"deadlock\",\"arm\":0,\"value\":\"9007199254740993\"}\n{\"kind\":\"return\",\"process\":\"deadlock\",\"arm\":0,\"amounts\":[{\"amount\":2,\"resource\":\"tape\"},{\"amount\":1,\"resource\":\"disk\"}]}\n{\"kind\":\"end\",\"process\":\"deadlock\"}\n{\"kind\":\"fault\",\"process\":\"q\",\"arm\":0,\"fault\":\"divide\"}\n{\"kind\":\"done\"}\n";

/// Makes a call over this output, and returns its status.
fn status_of<O: Output>(
    alloc: Global,
    command: Command,
    form: Form,
    text: &[u8],
    output: &mut O,
) -> Status {
    let mut input = MemoryInput::new(text);
    let mut voice = Voice::new(alloc, form);
    let given = match command {
        Command::Emit => {
            let options = EmitOptions {
                object: Format::Two,
            };
            emit_engine(alloc, options, &mut input, &mut voice, output)
        }
        Command::Migrate => migrate_engine(alloc, &mut input, &mut voice, output),
        Command::Replay => {
            let options = ReplayOptions { lend: Lend::Cash };
            replay_engine(alloc, options, &mut input, &mut voice, output)
        }
    };
    voice.finish(output, given)
}

/// Returns whether this is told in a form, with this status.
fn tells(
    alloc: Global,
    command: Command,
    form: Form,
    text: &[u8],
    wanted: &[u8],
    given: Status,
) -> Result<bool, NoMemory> {
    let mut output = MemoryOutput::new(alloc, 1_000)?;
    let status = status_of(alloc, command, form, text, &mut output);
    Ok(status == given && output.as_slice() == wanted)
}

/// Returns whether the objects are the JSON lines of the lines, with the same status.
fn says_the_same(alloc: Global, command: Command, text: &[u8]) -> Result<bool, NoMemory> {
    let mut lines = MemoryOutput::new(alloc, 1_000)?;
    let mut objects = MemoryOutput::new(alloc, 2_000)?;
    let of_lines = status_of(alloc, command, Form::Lines, text, &mut lines);
    let of_objects = status_of(alloc, command, Form::Objects, text, &mut objects);
    let made = json_lines(alloc, Dialect::Program, lines.as_slice())?;
    Ok(of_lines == of_objects && objects.as_slice() == made.as_slice())
}

#[test]
fn a_replay_is_told(rt: HostRuntime) {
    let lines =
        b"deadlock.0 grant 2 tape 1 disk\ndeadlock.0 print 9007199254740993\ndeadlock.0 return 2 tape 1 disk\ndeadlock end\nq.0 fault divide\ndone\n";
    assert!(rt;
        matches!(
            tells(
                rt.alloc(),
                Command::Replay,
                Form::Lines,
                RUN,
                lines,
                Status::Fault
            ),
            Ok(true)
        )
    );
    assert!(rt;
        matches!(
            tells(
                rt.alloc(),
                Command::Replay,
                Form::Objects,
                RUN,
                OBJECTS,
                Status::Fault
            ),
            Ok(true)
        )
    );
}

/// A replay; one that could go on; two that end in a deadlock or not; a refused pick; no picks; a refused text.
const REPLAYS: [&[u8]; 6] = [
    RUN,
    b"process p begin print -1 end\n%%\n",
    b"resource r = 1; resource s = 1; process a begin hold 1 of r do hold 1 of s do print 1 od od end process b begin hold 1 of s do hold 1 of r do print 2 od od end\n%%\na.0 1\nb.0 1\n",
    b"process p begin print 1 end\n%%\np.0 1\np.0 9\n",
    b"process p begin print 1 end\n%%\nq.0 1\n",
    b"process p begin print x end\n%%\np.0 1\n",
];

#[test]
fn objects_say_what_lines_say(rt: HostRuntime) {
    for text in REPLAYS {
        assert!(rt; matches!(says_the_same(rt.alloc(), Command::Replay, text), Ok(true)));
    }
    assert!(rt;
        matches!(
            says_the_same(rt.alloc(), Command::Migrate, b"PBO 3\n"),
            Ok(true)
        )
    );
    assert!(rt;
        matches!(
            says_the_same(rt.alloc(), Command::Emit, b"process p begin print x end"),
            Ok(true)
        )
    );
}

#[test]
fn each_line_of_an_object_is_told(rt: HostRuntime) {
    assert!(rt;
        matches!(
            says_the_same(rt.alloc(), Command::Emit, b"process p begin print 1 end"),
            Ok(true)
        )
    );
}

//! What `run` and `exec` say, told as lines and as objects.

use crate::told_runs::TEXT;
use pb_accept::{EmitOptions, emit_engine};
use pb_base::{MemoryInput, MemoryOutput, NoMemory, Output};
use pb_code::Format;
use pb_command_io::Status;
use pb_engines::{RunOptions, exec_engine, run_engine};
use pb_json_lines::{Dialect, json_lines};
use pb_voice::{Form, Voice};
use std::alloc::Global;
use std::sync::Wait;
use std::thread::Threads;

/// The commands.
#[derive(Clone, Copy)]
enum Command {
    Exec,
    Run,
}

/// One worker, which makes no more than these picks.
const LONG: RunOptions = RunOptions {
    workers: 1,
    quantum: 100,
    steps: 1_000,
};

const SHORT: RunOptions = RunOptions {
    workers: 1,
    quantum: 100,
    steps: 4,
};

/// What one worker shows of the text: it takes the processes in turn.
const OBJECTS: &[u8] =
    b"{\"kind\":\"grant\",\"process\":\"deadlock\",\"arm\":0,\"amounts\":[{\"amount\":2,\"resource\":\"tape\"},{\"amount\":1,\"resource\":\"disk\"}]}\n{\"kind\":\"fault\",\"process\":\"q\",\"arm\":0,\"fault\":\"divide\"}\n{\"kind\":\"print\",\"process\":\"deadlock\",\"arm\":0,\"value\":\"9007199254740993\"}\n{\"kind\":\"return\",\"process\":\"deadlock\",\"arm\":0,\"amounts\":[{\"amount\":2,\"resource\":\"tape\"},{\"amount\":1,\"resource\":\"disk\"}]}\n{\"kind\":\"end\",\"process\":\"deadlock\"}\n{\"kind\":\"done\"}\n";

/// Makes a call over this output, and returns its status.
fn status_of<O: Output, R: Threads + Wait + Sync>(
    rt: &R,
    alloc: Global,
    command: Command,
    options: RunOptions,
    form: Form,
    text: &[u8],
    output: &mut O,
) -> Status {
    let mut input = MemoryInput::new(text);
    let mut voice = Voice::new(alloc, form);
    let given = match command {
        Command::Exec => exec_engine(rt, alloc, options, &mut input, &mut voice, output),
        Command::Run => run_engine(rt, alloc, options, &mut input, &mut voice, output),
    };
    voice.finish(output, given)
}

/// Returns whether the objects are the JSON lines of the lines, with the same status.
fn says_the_same<R: Threads + Wait + Sync>(
    rt: &R,
    alloc: Global,
    command: Command,
    options: RunOptions,
    text: &[u8],
) -> Result<bool, NoMemory> {
    let mut lines = MemoryOutput::new(alloc, 1_000)?;
    let mut objects = MemoryOutput::new(alloc, 2_000)?;
    let of_lines = status_of(rt, alloc, command, options, Form::Lines, text, &mut lines);
    let of_objects = status_of(
        rt,
        alloc,
        command,
        options,
        Form::Objects,
        text,
        &mut objects,
    );
    let made = json_lines(alloc, Dialect::Program, lines.as_slice())?;
    Ok(of_lines == of_objects && objects.as_slice() == made.as_slice())
}

/// Returns whether the text is run as these objects, with this status.
fn runs<R: Threads + Wait + Sync>(rt: &R, alloc: Global) -> Result<bool, NoMemory> {
    let mut output = MemoryOutput::new(alloc, 2_000)?;
    let status = status_of(
        rt,
        alloc,
        Command::Run,
        LONG,
        Form::Objects,
        TEXT,
        &mut output,
    );
    Ok(status == Status::Fault && output.as_slice() == OBJECTS)
}

#[test]
fn a_run_is_told(rt: HostRuntime) {
    assert!(rt; matches!(runs(&rt, rt.alloc()), Ok(true)));
}

#[test]
fn runs_are_told_alike(rt: HostRuntime) {
    assert!(rt;
        matches!(
            says_the_same(&rt, rt.alloc(), Command::Run, LONG, TEXT),
            Ok(true)
        )
    );
    assert!(rt;
        matches!(
            says_the_same(&rt, rt.alloc(), Command::Run, SHORT, TEXT),
            Ok(true)
        )
    );
    assert!(rt;
        matches!(
            says_the_same(
                &rt,
                rt.alloc(),
                Command::Run,
                LONG,
                b"process p begin print x end"
            ),
            Ok(true)
        )
    );
}

/// Returns whether the object of the text is told alike.
fn object_is_told_alike<R: Threads + Wait + Sync>(rt: &R, alloc: Global) -> Result<bool, NoMemory> {
    let mut object = MemoryOutput::new(alloc, 1_000)?;
    let mut voice = Voice::new(alloc, Form::Lines);
    let options = EmitOptions {
        object: Format::Two,
    };
    let given = emit_engine(
        alloc,
        options,
        &mut MemoryInput::new(TEXT),
        &mut voice,
        &mut object,
    );
    let status = voice.finish(&mut object, given);
    let same = says_the_same(rt, alloc, Command::Exec, LONG, object.as_slice())?;
    Ok(status == Status::Done && same)
}

#[test]
fn objects_are_run(rt: HostRuntime) {
    assert!(rt; matches!(object_is_told_alike(&rt, rt.alloc()), Ok(true)));
    assert!(rt;
        matches!(
            says_the_same(&rt, rt.alloc(), Command::Exec, LONG, b"PBO 3\n"),
            Ok(true)
        )
    );
}

//! What `check` and `claims` say, told as lines and as objects.

use pb_accept::{CheckOptions, check_engine, claims_engine};
use pb_base::{FaultyOutput, MemoryInput, MemoryOutput, NoMemory, Output};
use pb_command_io::Status;
use pb_json_lines::{Dialect, json_lines};
use pb_voice::{Form, Voice};
use std::alloc::Global;

/// A program, one whose name is unknown, one that claims too much, texts of which two are refused, one with too many
/// arms, and nothing.
const TEXTS: [&[u8]; 6] = [
    b"resource tape = 3;\nresource disk = 1;\nprocess a begin hold 2 of tape do print 1 od end\nprocess b begin print 2 end\n",
    b"process p begin x := 1 end\n",
    b"resource r = 1; process p begin hold 2 of r do print 1 od end",
    b"process p begin print 1 end\n%%\nprocess begin\n%%\nresource r = 99999999999999999999;",
    b"resource r = 1; resource r = 2; process p begin skip end",
    b"",
];

/// The commands.
#[derive(Clone, Copy)]
enum Command {
    Check,
    CheckAndWarn,
    Claims,
}

/// Makes a call over this output, and returns its status.
fn status_of<O: Output>(
    alloc: Global,
    command: Command,
    form: Form,
    text: &[u8],
    output: &mut O,
) -> Status {
    let mut input = MemoryInput::new(text);
    let mut voice = Voice::new(alloc, form);
    let options = CheckOptions {
        heap: None,
        warn: matches!(command, Command::CheckAndWarn),
    };
    let given = match command {
        Command::Check | Command::CheckAndWarn => {
            check_engine(alloc, options, &mut input, &mut voice, output)
        }
        Command::Claims => claims_engine(alloc, &mut input, &mut voice, output),
    };
    voice.finish(output, given)
}

/// Returns whether the objects are the JSON lines of the lines, with the same status.
fn says_the_same(alloc: Global, command: Command, text: &[u8]) -> Result<bool, NoMemory> {
    let mut lines = MemoryOutput::new(alloc, 1_000)?;
    let mut objects = MemoryOutput::new(alloc, 1_000)?;
    let of_lines = status_of(alloc, command, Form::Lines, text, &mut lines);
    let of_objects = status_of(alloc, command, Form::Objects, text, &mut objects);
    let made = json_lines(alloc, Dialect::Program, lines.as_slice())?;
    Ok(of_lines == of_objects && objects.as_slice() == made.as_slice())
}

#[test]
fn objects_say_what_lines_say(rt: HostRuntime) {
    for text in TEXTS {
        assert!(rt; matches!(says_the_same(rt.alloc(), Command::Check, text), Ok(true)));
        assert!(rt; matches!(says_the_same(rt.alloc(), Command::Claims, text), Ok(true)));
    }
}

/// Returns whether these objects are told, with this status.
fn tells(
    alloc: Global,
    command: Command,
    text: &[u8],
    wanted: &[u8],
    given: Status,
) -> Result<bool, NoMemory> {
    let mut output = MemoryOutput::new(alloc, 1_000)?;
    let status = status_of(alloc, command, Form::Objects, text, &mut output);
    Ok(status == given && output.as_slice() == wanted)
}

#[test]
fn objects_are_told(rt: HostRuntime) {
    let claims =
        b"{\"kind\":\"claim\",\"process\":\"a\",\"claim\":2,\"resource\":\"tape\"}\n{\"kind\":\"claim\",\"process\":\"a\",\"claim\":0,\"resource\":\"disk\"}\n{\"kind\":\"claim\",\"process\":\"b\",\"claim\":0,\"resource\":\"tape\"}\n{\"kind\":\"claim\",\"process\":\"b\",\"claim\":0,\"resource\":\"disk\"}\n";
    let over =
        b"{\"kind\":\"refused\",\"code\":\"C1\",\"process\":\"p\",\"resource\":\"r\",\"claim\":2,\"capital\":1}\n";
    assert!(rt;
        matches!(
            tells(rt.alloc(), Command::Claims, TEXTS[0], claims, Status::Done),
            Ok(true)
        )
    );
    assert!(rt;
        matches!(
            tells(rt.alloc(), Command::Check, TEXTS[2], over, Status::Refused),
            Ok(true)
        )
    );
}

const WARNINGS: &[u8] =
    b"resource r = 2; process p begin integer x; parbegin hold 1 of r do skip od parend end";

#[test]
fn warnings_are_told(rt: HostRuntime) {
    let objects =
        b"{\"kind\":\"ok\"}\n{\"kind\":\"warning\",\"code\":\"W3\",\"line\":1,\"resource\":\"r\",\"claims\":1,\"capital\":2}\n{\"kind\":\"warning\",\"code\":\"W2\",\"line\":1,\"process\":\"p\",\"integer\":\"x\"}\n{\"kind\":\"warning\",\"code\":\"W1\",\"line\":1}\n";
    assert!(rt;
        matches!(
            tells(
                rt.alloc(),
                Command::CheckAndWarn,
                WARNINGS,
                objects,
                Status::Done
            ),
            Ok(true)
        )
    );
}

/// Returns the status of a call of which this write fails, counted from 0.
fn fails_at(alloc: Global, passing: u64) -> Result<Status, NoMemory> {
    let mut output = FaultyOutput::new(alloc, 1_000, passing, 30)?;
    Ok(status_of(alloc, Command::Claims, Form::Lines, TEXTS[0], &mut output))
}

#[test]
fn a_failed_write_is_told(rt: HostRuntime) {
    assert!(rt; matches!(fails_at(rt.alloc(), 1), Ok(Status::Device)));
    assert!(rt; matches!(fails_at(rt.alloc(), 100), Ok(Status::Done)));
}

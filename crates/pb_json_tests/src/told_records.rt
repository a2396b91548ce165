//! What `record` and `explain` say, told as lines and as objects.

use pb_base::{Lending, MemoryInput, MemoryOutput, NoMemory};
use pb_command_io::Status;
use pb_engines::write_drawn_record;
use pb_explain::explain_engine;
use pb_json_lines::{Dialect, json_lines};
use pb_options::Code;
use pb_voice::Form;
use std::alloc::Global;

/// Two jobs that can wait for each other; a text with no line feed at its end, empty lines and bytes that are escaped.
const JOBS: &[u8] =
    b"resource r = 1; resource s = 1;\nprocess a begin hold 1 of r do hold 1 of s do print 1 od od end\nprocess b begin hold 1 of s do hold 1 of r do print 2 od od end\n";

const ODD: &[u8] = b"process p\n\nbegin // \"a\\b\t<\"\n  print 1; print 2\nend";

/// What is told of the second with any seed.
const OBJECTS: &[u8] =
    b"{\"kind\":\"source\",\"text\":\"process p\"}\n{\"kind\":\"source\",\"text\":\"\"}\n{\"kind\":\"source\",\"text\":\"begin // \\\"a\\\\b\\u0009\\u003c\\\"\"}\n{\"kind\":\"source\",\"text\":\"  print 1; print 2\"}\n{\"kind\":\"source\",\"text\":\"end\"}\n{\"kind\":\"picks follow\"}\n{\"kind\":\"picks\",\"process\":\"p\",\"arm\":0,\"count\":5}\n";

/// What is written, and with which status.
#[derive(Drop)]
struct Wrote {
    bytes: Vec<u8>,
    status: Status,
}

/// Records a run of a text with a seed.
fn recorded(
    alloc: Global,
    form: Form,
    lending: Lending,
    seed: u64,
    text: &[u8],
) -> Result<Wrote, NoMemory> {
    let mut output = MemoryOutput::new(alloc, 4_000)?;
    let mut input = MemoryInput::new(text);
    let status = write_drawn_record(alloc, form, lending, 1_000, seed, &mut input, &mut output);
    Ok(Wrote {
        bytes: Vec::from_slice(alloc, output.as_slice())?,
        status,
    })
}

/// Returns whose forms the lines of a record with this status have.
fn dialect_of(status: Status) -> Dialect {
    match status {
        Status::Done | Status::Deadlock => Dialect::Record,
        _ => Dialect::Program,
    }
}

/// Returns whether the objects of a record are the JSON lines of its lines, with the same status.
fn says_the_same(
    alloc: Global,
    lending: Lending,
    seed: u64,
    text: &[u8],
) -> Result<bool, NoMemory> {
    let lines = recorded(alloc, Form::Lines, lending, seed, text)?;
    let objects = recorded(alloc, Form::Objects, lending, seed, text)?;
    let made = json_lines(alloc, dialect_of(lines.status), lines.bytes.as_slice())?;
    Ok(lines.status == objects.status && objects.bytes.as_slice() == made.as_slice())
}

#[test]
fn a_recorded_run_is_told(rt: HostRuntime) {
    for seed in 0..20 {
        assert!(rt;
            matches!(
                says_the_same(rt.alloc(), Lending::ByBanker, seed, JOBS),
                Ok(true)
            )
        );
        assert!(rt;
            matches!(
                says_the_same(rt.alloc(), Lending::ByCash, seed, JOBS),
                Ok(true)
            )
        );
        assert!(rt;
            matches!(
                says_the_same(rt.alloc(), Lending::ByCash, seed, ODD),
                Ok(true)
            )
        );
    }
}

#[test]
fn a_refused_text_is_told(rt: HostRuntime) {
    for text in [
        b"process p begin print x end".as_slice(),
        b"process p",
        b"resource r = 1; process p begin hold 2 of r do skip od end",
    ] {
        assert!(rt;
            matches!(
                says_the_same(rt.alloc(), Lending::ByBanker, 3, text),
                Ok(true)
            )
        );
    }
}

/// Returns whether the objects of a text are these.
fn has_objects(alloc: Global, text: &[u8], objects: &[u8]) -> Result<bool, NoMemory> {
    let wrote = recorded(alloc, Form::Objects, Lending::ByBanker, 1, text)?;
    Ok(wrote.status == Status::Done && wrote.bytes.as_slice() == objects)
}

#[test]
fn the_objects_of_a_record_are_known(rt: HostRuntime) {
    assert!(rt; matches!(has_objects(rt.alloc(), ODD, OBJECTS), Ok(true)));
}

/// Writes what `explain` says.
fn explained(alloc: Global, form: Form, asked: Option<Code>) -> Result<Wrote, NoMemory> {
    let mut output = MemoryOutput::new(alloc, 16_000)?;
    let status = explain_engine(alloc, form, asked, &mut output);
    Ok(Wrote {
        bytes: Vec::from_slice(alloc, output.as_slice())?,
        status,
    })
}

/// Returns whether the objects of a page are the JSON lines of its lines, with the same status.
fn explains_the_same(alloc: Global, asked: Option<Code>) -> Result<bool, NoMemory> {
    let lines = explained(alloc, Form::Lines, asked)?;
    let objects = explained(alloc, Form::Objects, asked)?;
    let made = json_lines(alloc, Dialect::Explain, lines.bytes.as_slice())?;
    let done = lines.status == Status::Done && objects.status == Status::Done;
    Ok(done && objects.bytes.as_slice() == made.as_slice())
}

#[test]
fn pages_are_told(rt: HostRuntime) {
    assert!(rt; matches!(explains_the_same(rt.alloc(), None), Ok(true)));
    for code in &Code::ALL {
        assert!(rt; matches!(explains_the_same(rt.alloc(), Some(*code)), Ok(true)));
    }
}

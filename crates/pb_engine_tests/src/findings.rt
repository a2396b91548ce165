//! `findings`: what is told of files that come as messages.

use pb_base::{MemoryInput, MemoryOutput};
use pb_call::Commands;
use pb_call::answer::answer;
use pb_command_io::Status;
use pb_edit_tool::EditTool;
use pb_options::CheckOptions;
use pb_voice::Form;
use pb_words::Options;
use std::alloc::Global;

/// A file with a program, a line `%%` and a text that is refused, with its name, in each layout.
const AS_JSON: &[u8] =
    b"Content-Length: 4\r\n\r\njsonContent-Length: 9\r\n\r\nfile a.pbContent-Length: 55\r\n\r\nprocess p begin skip end\n%%\nprocess q begin print y end";

const AS_GCC: &[u8] =
    b"Content-Length: 3\r\n\r\ngccContent-Length: 9\r\n\r\nfile a.pbContent-Length: 55\r\n\r\nprocess p begin skip end\n%%\nprocess q begin print y end";

const AS_SARIF: &[u8] =
    b"Content-Length: 9\r\n\r\nsarif 1.0Content-Length: 9\r\n\r\nfile a.pbContent-Length: 55\r\n\r\nprocess p begin skip end\n%%\nprocess q begin print y end";

/// What is told of them, or how it begins.
const JSON: &[u8] =
    b"{\"file\": \"a.pb\", \"text\": 1, \"accepted\": true}\n{\"file\": \"a.pb\", \"text\": 2, \"accepted\": false, \"code\": \"N3\", \"refusal\": \"refused N3 at 22\", \"message\": \"integer y is not declared in process q\", \"offset\": 50, \"line\": 3, \"column\": 23";

const GCC: &[u8] = b"a.pb:3:23: error: N3: integer y is not declared in process q\n";

const SARIF: &[u8] =
    b"{\n  \"$schema\": \"https://json.schemastore.org/sarif-2.1.0.json\",\n  \"version\": \"2.1.0\",\n  \"runs\": [\n    {\n      \"tool\": {\n        \"driver\": {\n          \"name\": \"parbegin\",\n          \"rules\": [\n            {\n              \"id\": \"N3\"";

/// A file that cannot be read and one that is too long, as JSON.
const UNREAD: &[u8] =
    b"Content-Length: 4\r\n\r\njsonContent-Length: 8\r\n\r\nunread aContent-Length: 4\r\n\r\ngoneContent-Length: 6\r\n\r\nlong bContent-Length: 0\r\n\r\n";

const OF_UNREAD: &[u8] =
    b"{\"file\": \"a\", \"accepted\": false, \"read\": false, \"message\": \"gone\"}\n{\"file\": \"b\", \"text\": 1, \"accepted\": false, \"code\": \"input\", \"refusal\": \"refused input\", \"message\": \"the input is longer than 4194304 bytes\", \"places\": [], \"expected\": [], \"hints\": [], \"notes\": []}\nrefused 1\n";

/// What a person is told of an input that names no files begins so.
const SAID: &[u8] = b"error input: these are not messages that name a layout and files\n";

/// Returns whether what a call writes of an input begins so, with this status.
fn begins<R: AllocGlobal + std::thread::Threads + std::sync::Wait + Sync>(
    rt: &R,
    words: &[&str],
    given: &[u8],
    told: &[u8],
    wanted: Status,
) -> Option<bool> {
    let mut output = MemoryOutput::new(rt.alloc(), 4_096).ok()?;
    let mut input = MemoryInput::new(given);
    let status = answer(
        &EditTool,
        rt,
        rt.alloc(),
        Form::Lines,
        words,
        &mut input,
        &mut output,
    );
    Some(status == wanted && output.as_slice().starts_with(told))
}

#[test]
fn each_text_of_a_file_is_told(rt: HostRuntime) {
    let words = ["parbegin", "findings"];
    assert!(rt; begins(&rt, &words, AS_JSON, JSON, Status::Refused) == Some(true));
    assert!(rt; begins(&rt, &words, AS_GCC, GCC, Status::Refused) == Some(true));
    assert!(rt; begins(&rt, &words, AS_SARIF, SARIF, Status::Refused) == Some(true));
    assert!(rt; begins(&rt, &words, UNREAD, OF_UNREAD, Status::Refused) == Some(true));
}

#[test]
fn warnings_are_told_if_they_are_asked_for(rt: HostRuntime) {
    let words = ["parbegin", "findings", "--warn"];
    let given =
        b"Content-Length: 4\r\n\r\njsonContent-Length: 6\r\n\r\nfile aContent-Length: 24\r\n\r\nprocess p begin skip end";
    let told = b"{\"file\": \"a\", \"text\": 1, \"accepted\": true, \"warnings\": []}\nrefused 0\n";
    assert!(rt; begins(&rt, &words, given, told, Status::Done) == Some(true));
}

/// Returns whether a person is told that these bytes name no files.
fn is_told(alloc: Global, options: &Options, bytes: &[u8]) -> Option<bool> {
    let message = EditTool.message(alloc, options, bytes)?.ok()?;
    Some(message.as_slice().starts_with(SAID))
}

#[test]
fn what_names_no_files_is_refused(rt: HostRuntime) {
    let words = ["parbegin", "findings"];
    assert!(rt; begins(&rt, &words, b"a.pb", b"refused input\n", Status::Refused) == Some(true));
    assert!(rt; begins(&rt, &words, b"", b"refused input\n", Status::Refused) == Some(true));
    let options = Options::Findings(CheckOptions {
        heap: None,
        warn: false,
    });
    assert!(rt; is_told(rt.alloc(), &options, b"a.pb") == Some(true));
    assert!(rt; EditTool.message(rt.alloc(), &options, AS_GCC).is_none());
}

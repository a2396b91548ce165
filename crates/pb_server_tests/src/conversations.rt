//! Conversations with the server, as bytes.

use pb_base::{FaultyInput, FaultyOutput, MemoryInput, NoMemory};
use pb_command_io::Status;
use pb_conversations::Said;
use pb_frames::write_frame;
use pb_server_engine::server_engine;
use std::alloc::Global;

/// Contents of messages, those that are said to them, and the status.
struct Case {
    asked: &'static [&'static str],
    said: &'static [&'static str],
    status: Status,
}

const CASES: [Case; 4] = [
    // A text that is refused, mended, asked for and closed.
    Case {
        asked: &[
            "{\"jsonrpc\":\"2.0\",\"id\":1,\"method\":\"initialize\",\"params\":{}}",
            "{\"jsonrpc\":\"2.0\",\"method\":\"initialized\",\"params\":{}}",
            "{\"jsonrpc\":\"2.0\",\"method\":\"textDocument/didOpen\",\"params\":{\"textDocument\":{\"uri\":\"file:///a.pb\",\"languageId\":\"parbegin\",\"version\":1,\"text\":\"process a\\nbegin\\n  integer x;\\n  x := y\\nend\\n\"}}}",
            "{\"jsonrpc\":\"2.0\",\"id\":\"two\",\"method\":\"textDocument/diagnostic\",\"params\":{\"textDocument\":{\"uri\":\"file:///a.pb\"}}}",
            "{\"jsonrpc\":\"2.0\",\"method\":\"textDocument/didChange\",\"params\":{\"textDocument\":{\"uri\":\"file:///a.pb\",\"version\":2},\"contentChanges\":[{\"text\":\"process a\\nbegin\\n  integer x;\\n  x := x\\nend\\n\"}]}}",
            "{\"jsonrpc\":\"2.0\",\"id\":-3,\"method\":\"textDocument/diagnostic\",\"params\":{\"textDocument\":{\"uri\":\"file:///a.pb\"}}}",
            "{\"jsonrpc\":\"2.0\",\"method\":\"$/setTrace\",\"params\":{\"value\":\"off\"}}",
            "{\"jsonrpc\":\"2.0\",\"method\":\"textDocument/didChange\",\"params\":{\"textDocument\":{\"uri\":\"file:///a.pb\",\"version\":3},\"contentChanges\":[{\"text\":\"resource tape = 1;\\nprocess p\\nbegin\\n  hold 1 of tape do\\n    hold 1 of tape do skip od\\n  od\\nend\\n\"}]}}",
            "{\"jsonrpc\":\"2.0\",\"method\":\"textDocument/didClose\",\"params\":{\"textDocument\":{\"uri\":\"file:///a.pb\"}}}",
            "{\"jsonrpc\":\"2.0\",\"id\":4,\"method\":\"textDocument/diagnostic\",\"params\":{\"textDocument\":{\"uri\":\"file:///a.pb\"}}}",
            "{\"jsonrpc\":\"2.0\",\"id\":5,\"method\":\"shutdown\"}",
            "{\"jsonrpc\":\"2.0\",\"id\":6,\"method\":\"textDocument/diagnostic\",\"params\":{\"textDocument\":{\"uri\":\"file:///a.pb\"}}}",
            "{\"jsonrpc\":\"2.0\",\"method\":\"textDocument/didOpen\",\"params\":{\"textDocument\":{\"uri\":\"file:///a.pb\",\"languageId\":\"parbegin\",\"version\":1,\"text\":\"process a\\nbegin\\n  integer x;\\n  x := y\\nend\\n\"}}}",
            "{\"jsonrpc\":\"2.0\",\"method\":\"exit\"}",
            "{\"jsonrpc\":\"2.0\",\"id\":7,\"method\":\"shutdown\"}",
        ],
        said: &[
            "{\"id\":1,\"jsonrpc\":\"2.0\",\"result\":{\"capabilities\":{\"codeActionProvider\":true,\"completionProvider\":{},\"definitionProvider\":true,\"documentSymbolProvider\":true,\"hoverProvider\":true,\"inlayHintProvider\":true,\"positionEncoding\":\"utf-16\",\"referencesProvider\":true,\"renameProvider\":true,\"textDocumentSync\":{\"change\":1,\"openClose\":true}},\"serverInfo\":{\"name\":\"parbegin\"}}}",
            "{\"jsonrpc\":\"2.0\",\"method\":\"textDocument/publishDiagnostics\",\"params\":{\"diagnostics\":[{\"code\":\"N3\",\"message\":\"integer y is not declared in process a\\nhint: add it to the integers that the process declares\",\"range\":{\"end\":{\"character\":8,\"line\":3},\"start\":{\"character\":7,\"line\":3}},\"relatedInformation\":[],\"severity\":1,\"source\":\"parbegin\"}],\"uri\":\"file:///a.pb\",\"version\":1}}",
            "{\"id\":\"two\",\"jsonrpc\":\"2.0\",\"result\":{\"items\":[{\"code\":\"N3\",\"message\":\"integer y is not declared in process a\\nhint: add it to the integers that the process declares\",\"range\":{\"end\":{\"character\":8,\"line\":3},\"start\":{\"character\":7,\"line\":3}},\"relatedInformation\":[],\"severity\":1,\"source\":\"parbegin\"}],\"kind\":\"full\"}}",
            "{\"jsonrpc\":\"2.0\",\"method\":\"textDocument/publishDiagnostics\",\"params\":{\"diagnostics\":[],\"uri\":\"file:///a.pb\",\"version\":2}}",
            "{\"id\":-3,\"jsonrpc\":\"2.0\",\"result\":{\"items\":[],\"kind\":\"full\"}}",
            "{\"jsonrpc\":\"2.0\",\"method\":\"textDocument/publishDiagnostics\",\"params\":{\"diagnostics\":[{\"code\":\"C1\",\"message\":\"process p may hold 2 of tape at once, and the capital is 1\\nhint: hold less at once, or declare a greater capital: resource tape = 2;\",\"range\":{\"end\":{\"character\":6,\"line\":3},\"start\":{\"character\":2,\"line\":3}},\"relatedInformation\":[{\"location\":{\"range\":{\"end\":{\"character\":6,\"line\":3},\"start\":{\"character\":2,\"line\":3}},\"uri\":\"file:///a.pb\"},\"message\":\"1 of tape\"},{\"location\":{\"range\":{\"end\":{\"character\":8,\"line\":4},\"start\":{\"character\":4,\"line\":4}},\"uri\":\"file:///a.pb\"},\"message\":\"1 of tape\"}],\"severity\":1,\"source\":\"parbegin\"}],\"uri\":\"file:///a.pb\",\"version\":3}}",
            "{\"jsonrpc\":\"2.0\",\"method\":\"textDocument/publishDiagnostics\",\"params\":{\"diagnostics\":[],\"uri\":\"file:///a.pb\"}}",
            "{\"error\":{\"code\":-32602,\"message\":\"no open document has this URI\"},\"id\":4,\"jsonrpc\":\"2.0\"}",
            "{\"id\":5,\"jsonrpc\":\"2.0\",\"result\":null}",
            "{\"error\":{\"code\":-32600,\"message\":\"the server is shut down\"},\"id\":6,\"jsonrpc\":\"2.0\"}",
        ],
        status: Status::Done,
    },
    // Before `initialize`, and what is no request.
    Case {
        asked: &[
            "{\"jsonrpc\":\"2.0\",\"id\":1,\"method\":\"shutdown\"}",
            "{\"jsonrpc\":\"2.0\",\"method\":\"textDocument/didOpen\",\"params\":{\"textDocument\":{\"uri\":\"file:///a.pb\",\"languageId\":\"parbegin\",\"version\":1,\"text\":\"process a\\nbegin\\n  integer x;\\n  x := y\\nend\\n\"}}}",
            "{\"jsonrpc\":\"2.0\",\"id\":2,\"method\":\"initialize\",\"params\":{}}",
            "{\"jsonrpc\":\"2.0\",\"id\":3,\"method\":\"initialize\",\"params\":{}}",
            "{\"jsonrpc\":\"2.0\",\"id\":4,\"method\":\"textDocument/fly\",\"params\":{}}",
            "{\"id\":5",
            "[]",
            "{\"id\":5.5,\"method\":\"shutdown\"}",
            "{\"id\":6,\"result\":null}",
            "{\"jsonrpc\":\"2.0\",\"method\":\"textDocument/didOpen\",\"params\":{\"textDocument\":{\"uri\":\"file:///a.pb\"}}}",
            "{\"jsonrpc\":\"2.0\",\"method\":\"textDocument/didOpen\"}",
            "{\"jsonrpc\":\"2.0\",\"method\":\"textDocument/didChange\",\"params\":{\"textDocument\":{\"uri\":\"file:///a.pb\",\"version\":2},\"contentChanges\":[{\"text\":\"process a\\nbegin\\n  integer x;\\n  x := y\\nend\\n\"}]}}",
            "{\"jsonrpc\":\"2.0\",\"method\":\"textDocument/didClose\",\"params\":{\"textDocument\":{\"uri\":\"file:///a.pb\"}}}",
            "{\"jsonrpc\":\"2.0\",\"method\":\"textDocument/didOpen\",\"params\":{\"textDocument\":{\"uri\":\"file:///a.pb\",\"languageId\":\"parbegin\",\"version\":7,\"text\":\"process a\\nbegin\\n  integer x;\\n  x := x\\nend\\n\"}}}",
            "{\"jsonrpc\":\"2.0\",\"method\":\"textDocument/didChange\",\"params\":{\"textDocument\":{\"uri\":\"file:///a.pb\",\"version\":8},\"contentChanges\":[{\"range\":{\"start\":{\"line\":0,\"character\":0},\"end\":{\"line\":0,\"character\":0}},\"text\":\"process a\\nbegin\\n  integer x;\\n  x := y\\nend\\n\"}]}}",
            "{\"jsonrpc\":\"2.0\",\"method\":\"textDocument/didChange\",\"params\":{\"textDocument\":{\"uri\":\"file:///a.pb\",\"version\":9},\"contentChanges\":[{\"text\":\"process a\\nbegin\\n  integer x;\\n  x := x\\nend\\n\"},{\"text\":\"process a\\nbegin\\n  integer x;\\n  x := y\\nend\\n\"}]}}",
            "{\"jsonrpc\":\"2.0\",\"method\":\"textDocument/didChange\",\"params\":{\"textDocument\":{\"uri\":\"file:///a.pb\",\"version\":9},\"contentChanges\":[]}}",
            "{\"jsonrpc\":\"2.0\",\"method\":\"exit\"}",
        ],
        said: &[
            "{\"error\":{\"code\":-32002,\"message\":\"the server is not initialized\"},\"id\":1,\"jsonrpc\":\"2.0\"}",
            "{\"id\":2,\"jsonrpc\":\"2.0\",\"result\":{\"capabilities\":{\"codeActionProvider\":true,\"completionProvider\":{},\"definitionProvider\":true,\"documentSymbolProvider\":true,\"hoverProvider\":true,\"inlayHintProvider\":true,\"positionEncoding\":\"utf-16\",\"referencesProvider\":true,\"renameProvider\":true,\"textDocumentSync\":{\"change\":1,\"openClose\":true}},\"serverInfo\":{\"name\":\"parbegin\"}}}",
            "{\"error\":{\"code\":-32600,\"message\":\"the server is initialized already\"},\"id\":3,\"jsonrpc\":\"2.0\"}",
            "{\"error\":{\"code\":-32601,\"message\":\"this method is not known\"},\"id\":4,\"jsonrpc\":\"2.0\"}",
            "{\"error\":{\"code\":-32700,\"message\":\"this is not JSON\"},\"id\":null,\"jsonrpc\":\"2.0\"}",
            "{\"error\":{\"code\":-32600,\"message\":\"this is not a request\"},\"id\":null,\"jsonrpc\":\"2.0\"}",
            "{\"error\":{\"code\":-32600,\"message\":\"this is not a request\"},\"id\":null,\"jsonrpc\":\"2.0\"}",
            "{\"jsonrpc\":\"2.0\",\"method\":\"textDocument/publishDiagnostics\",\"params\":{\"diagnostics\":[],\"uri\":\"file:///a.pb\",\"version\":7}}",
            "{\"jsonrpc\":\"2.0\",\"method\":\"textDocument/publishDiagnostics\",\"params\":{\"diagnostics\":[{\"code\":\"N3\",\"message\":\"integer y is not declared in process a\\nhint: add it to the integers that the process declares\",\"range\":{\"end\":{\"character\":8,\"line\":3},\"start\":{\"character\":7,\"line\":3}},\"relatedInformation\":[],\"severity\":1,\"source\":\"parbegin\"}],\"uri\":\"file:///a.pb\",\"version\":9}}",
        ],
        status: Status::Refused,
    },
    // Names of a text.
    Case {
        asked: &[
            "{\"jsonrpc\":\"2.0\",\"id\":1,\"method\":\"initialize\",\"params\":{}}",
            "{\"jsonrpc\":\"2.0\",\"method\":\"textDocument/didOpen\",\"params\":{\"textDocument\":{\"uri\":\"file:///a.pb\",\"languageId\":\"parbegin\",\"version\":1,\"text\":\"resource r = 1;\\nprocess a begin integer x; x := 1; hold 1 of r do print x od end\\nprocess b begin integer x; print x end\\n\"}}}",
            "{\"jsonrpc\":\"2.0\",\"id\":2,\"method\":\"textDocument/definition\",\"params\":{\"textDocument\":{\"uri\":\"file:///a.pb\"},\"position\":{\"line\":1,\"character\":56}}}",
            "{\"jsonrpc\":\"2.0\",\"id\":3,\"method\":\"textDocument/definition\",\"params\":{\"textDocument\":{\"uri\":\"file:///a.pb\"},\"position\":{\"line\":0,\"character\":0}}}",
            "{\"jsonrpc\":\"2.0\",\"id\":4,\"method\":\"textDocument/references\",\"params\":{\"textDocument\":{\"uri\":\"file:///a.pb\"},\"position\":{\"line\":2,\"character\":33},\"context\":{\"includeDeclaration\":false}}}",
            "{\"jsonrpc\":\"2.0\",\"id\":5,\"method\":\"textDocument/rename\",\"params\":{\"textDocument\":{\"uri\":\"file:///a.pb\"},\"position\":{\"line\":2,\"character\":33},\"newName\":\"y\"}}",
            "{\"jsonrpc\":\"2.0\",\"id\":6,\"method\":\"textDocument/rename\",\"params\":{\"textDocument\":{\"uri\":\"file:///a.pb\"},\"position\":{\"line\":2,\"character\":33},\"newName\":\"end\"}}",
            "{\"jsonrpc\":\"2.0\",\"id\":7,\"method\":\"textDocument/documentSymbol\",\"params\":{\"textDocument\":{\"uri\":\"file:///a.pb\"}}}",
            "{\"jsonrpc\":\"2.0\",\"id\":8,\"method\":\"textDocument/completion\",\"params\":{\"textDocument\":{\"uri\":\"file:///a.pb\"},\"position\":{\"line\":2,\"character\":33}}}",
            "{\"jsonrpc\":\"2.0\",\"id\":9,\"method\":\"textDocument/codeAction\",\"params\":{\"textDocument\":{\"uri\":\"file:///a.pb\"},\"range\":{\"start\":{\"line\":0,\"character\":0},\"end\":{\"line\":0,\"character\":0}},\"context\":{\"diagnostics\":[]}}}",
        ],
        said: &[
            "{\"id\":1,\"jsonrpc\":\"2.0\",\"result\":{\"capabilities\":{\"codeActionProvider\":true,\"completionProvider\":{},\"definitionProvider\":true,\"documentSymbolProvider\":true,\"hoverProvider\":true,\"inlayHintProvider\":true,\"positionEncoding\":\"utf-16\",\"referencesProvider\":true,\"renameProvider\":true,\"textDocumentSync\":{\"change\":1,\"openClose\":true}},\"serverInfo\":{\"name\":\"parbegin\"}}}",
            "{\"jsonrpc\":\"2.0\",\"method\":\"textDocument/publishDiagnostics\",\"params\":{\"diagnostics\":[],\"uri\":\"file:///a.pb\",\"version\":1}}",
            "{\"id\":2,\"jsonrpc\":\"2.0\",\"result\":{\"range\":{\"end\":{\"character\":25,\"line\":1},\"start\":{\"character\":24,\"line\":1}},\"uri\":\"file:///a.pb\"}}",
            "{\"id\":3,\"jsonrpc\":\"2.0\",\"result\":null}",
            "{\"id\":4,\"jsonrpc\":\"2.0\",\"result\":[{\"range\":{\"end\":{\"character\":34,\"line\":2},\"start\":{\"character\":33,\"line\":2}},\"uri\":\"file:///a.pb\"}]}",
            "{\"id\":5,\"jsonrpc\":\"2.0\",\"result\":{\"changes\":{\"file:///a.pb\":[{\"newText\":\"y\",\"range\":{\"end\":{\"character\":25,\"line\":2},\"start\":{\"character\":24,\"line\":2}}},{\"newText\":\"y\",\"range\":{\"end\":{\"character\":34,\"line\":2},\"start\":{\"character\":33,\"line\":2}}}]}}}",
            "{\"error\":{\"code\":-32803,\"message\":\"no name stands here, or the new name is not a valid one, or it is declared already\"},\"id\":6,\"jsonrpc\":\"2.0\"}",
            "{\"id\":7,\"jsonrpc\":\"2.0\",\"result\":[{\"children\":[],\"kind\":14,\"name\":\"r\",\"range\":{\"end\":{\"character\":15,\"line\":0},\"start\":{\"character\":0,\"line\":0}},\"selectionRange\":{\"end\":{\"character\":10,\"line\":0},\"start\":{\"character\":9,\"line\":0}}},{\"children\":[{\"children\":[],\"kind\":13,\"name\":\"x\",\"range\":{\"end\":{\"character\":25,\"line\":1},\"start\":{\"character\":24,\"line\":1}},\"selectionRange\":{\"end\":{\"character\":25,\"line\":1},\"start\":{\"character\":24,\"line\":1}}}],\"kind\":12,\"name\":\"a\",\"range\":{\"end\":{\"character\":64,\"line\":1},\"start\":{\"character\":0,\"line\":1}},\"selectionRange\":{\"end\":{\"character\":9,\"line\":1},\"start\":{\"character\":8,\"line\":1}}},{\"children\":[{\"children\":[],\"kind\":13,\"name\":\"x\",\"range\":{\"end\":{\"character\":25,\"line\":2},\"start\":{\"character\":24,\"line\":2}},\"selectionRange\":{\"end\":{\"character\":25,\"line\":2},\"start\":{\"character\":24,\"line\":2}}}],\"kind\":12,\"name\":\"b\",\"range\":{\"end\":{\"character\":38,\"line\":2},\"start\":{\"character\":0,\"line\":2}},\"selectionRange\":{\"end\":{\"character\":9,\"line\":2},\"start\":{\"character\":8,\"line\":2}}}]}",
            "{\"id\":8,\"jsonrpc\":\"2.0\",\"result\":[{\"kind\":21,\"label\":\"r\"},{\"kind\":6,\"label\":\"x\"},{\"kind\":14,\"label\":\"and\"},{\"kind\":14,\"label\":\"begin\"},{\"kind\":14,\"label\":\"div\"},{\"kind\":14,\"label\":\"do\"},{\"kind\":14,\"label\":\"else\"},{\"kind\":14,\"label\":\"end\"},{\"kind\":14,\"label\":\"fi\"},{\"kind\":14,\"label\":\"hold\"},{\"kind\":14,\"label\":\"if\"},{\"kind\":14,\"label\":\"integer\"},{\"kind\":14,\"label\":\"mod\"},{\"kind\":14,\"label\":\"not\"},{\"kind\":14,\"label\":\"od\"},{\"kind\":14,\"label\":\"of\"},{\"kind\":14,\"label\":\"or\"},{\"kind\":14,\"label\":\"parbegin\"},{\"kind\":14,\"label\":\"parend\"},{\"kind\":14,\"label\":\"print\"},{\"kind\":14,\"label\":\"process\"},{\"kind\":14,\"label\":\"resource\"},{\"kind\":14,\"label\":\"skip\"},{\"kind\":14,\"label\":\"then\"},{\"kind\":14,\"label\":\"while\"}]}",
            "{\"id\":9,\"jsonrpc\":\"2.0\",\"result\":[]}",
        ],
        status: Status::Refused,
    },
    // Two documents, a response of the client, and a range that is null; the input ends.
    Case {
        asked: &[
            "{\"jsonrpc\":\"2.0\",\"id\":1,\"method\":\"initialize\",\"params\":{}}",
            "{\"jsonrpc\":\"2.0\",\"method\":\"textDocument/didOpen\",\"params\":{\"textDocument\":{\"uri\":\"file:///a.pb\",\"languageId\":\"parbegin\",\"version\":1,\"text\":\"process a\\nbegin\\n  integer x;\\n  x := y\\nend\\n\"}}}",
            "{\"jsonrpc\":\"2.0\",\"method\":\"textDocument/didOpen\",\"params\":{\"textDocument\":{\"uri\":\"file:///b.pb\",\"languageId\":\"parbegin\",\"version\":1,\"text\":\"process a\\nbegin\\n  integer x;\\n  x := x\\nend\\n\"}}}",
            "{\"jsonrpc\":\"2.0\",\"method\":\"textDocument/didClose\",\"params\":{\"textDocument\":{\"uri\":\"file:///a.pb\"}}}",
            "{\"jsonrpc\":\"2.0\",\"method\":\"textDocument/didChange\",\"params\":{\"textDocument\":{\"uri\":\"file:///b.pb\",\"version\":2},\"contentChanges\":[{\"text\":\"\"}]}}",
            "{\"jsonrpc\":\"2.0\",\"id\":9,\"error\":{\"code\":-32601,\"message\":\"unknown\"}}",
            "{\"jsonrpc\":\"2.0\",\"method\":\"textDocument/didChange\",\"params\":{\"textDocument\":{\"uri\":\"file:///b.pb\",\"version\":3},\"contentChanges\":[{\"range\":null,\"text\":\"process a begin skip end\"}]}}",
        ],
        said: &[
            "{\"id\":1,\"jsonrpc\":\"2.0\",\"result\":{\"capabilities\":{\"codeActionProvider\":true,\"completionProvider\":{},\"definitionProvider\":true,\"documentSymbolProvider\":true,\"hoverProvider\":true,\"inlayHintProvider\":true,\"positionEncoding\":\"utf-16\",\"referencesProvider\":true,\"renameProvider\":true,\"textDocumentSync\":{\"change\":1,\"openClose\":true}},\"serverInfo\":{\"name\":\"parbegin\"}}}",
            "{\"jsonrpc\":\"2.0\",\"method\":\"textDocument/publishDiagnostics\",\"params\":{\"diagnostics\":[{\"code\":\"N3\",\"message\":\"integer y is not declared in process a\\nhint: add it to the integers that the process declares\",\"range\":{\"end\":{\"character\":8,\"line\":3},\"start\":{\"character\":7,\"line\":3}},\"relatedInformation\":[],\"severity\":1,\"source\":\"parbegin\"}],\"uri\":\"file:///a.pb\",\"version\":1}}",
            "{\"jsonrpc\":\"2.0\",\"method\":\"textDocument/publishDiagnostics\",\"params\":{\"diagnostics\":[],\"uri\":\"file:///b.pb\",\"version\":1}}",
            "{\"jsonrpc\":\"2.0\",\"method\":\"textDocument/publishDiagnostics\",\"params\":{\"diagnostics\":[],\"uri\":\"file:///a.pb\"}}",
            "{\"jsonrpc\":\"2.0\",\"method\":\"textDocument/publishDiagnostics\",\"params\":{\"diagnostics\":[{\"code\":\"P1\",\"message\":\"the text has no process\\nhint: a program has at least one: process p begin print 1 end\",\"range\":{\"end\":{\"character\":0,\"line\":0},\"start\":{\"character\":0,\"line\":0}},\"relatedInformation\":[],\"severity\":1,\"source\":\"parbegin\"}],\"uri\":\"file:///b.pb\",\"version\":2}}",
            "{\"jsonrpc\":\"2.0\",\"method\":\"textDocument/publishDiagnostics\",\"params\":{\"diagnostics\":[],\"uri\":\"file:///b.pb\",\"version\":3}}",
        ],
        status: Status::Refused,
    },
];

/// Returns messages with these contents.
fn framed(alloc: Global, contents: &[&str]) -> Result<Said, NoMemory> {
    let mut messages = Said::new(alloc);
    for content in contents {
        let Ok(()) = write_frame(alloc, &mut messages, content.as_bytes()) else {
            return Err(NoMemory);
        };
    }
    Ok(messages)
}

#[test]
fn conversations_are_answered(rt: HostRuntime) -> Result<(), NoMemory> {
    for case in &CASES {
        let asked = framed(rt.alloc(), case.asked)?;
        let wanted = framed(rt.alloc(), case.said)?;
        let mut said = Said::new(rt.alloc());
        let mut input = MemoryInput::new(asked.as_slice());
        let status = server_engine(rt.alloc(), &mut input, &mut said);
        assert!(rt; status == case.status);
        assert!(rt; said.as_slice() == wanted.as_slice());
    }
    Ok(())
}

/// Two requests before `initialize`, and what is said to each.
const FIRST: &str = "{\"jsonrpc\":\"2.0\",\"id\":1,\"method\":\"shutdown\"}";

const ASKED: &[&str] = &[
    FIRST,
    "{\"jsonrpc\":\"2.0\",\"id\":2,\"method\":\"shutdown\"}",
];

const SAID_FIRST: &[&str] = &[
    "{\"error\":{\"code\":-32002,\"message\":\"the server is not initialized\"},\"id\":1,\"jsonrpc\":\"2.0\"}",
];

const SAID_BOTH: &[&str] = &[
    "{\"error\":{\"code\":-32002,\"message\":\"the server is not initialized\"},\"id\":1,\"jsonrpc\":\"2.0\"}",
    "{\"error\":{\"code\":-32002,\"message\":\"the server is not initialized\"},\"id\":2,\"jsonrpc\":\"2.0\"}",
];

#[test]
fn what_was_read_before_a_fault_is_answered(rt: HostRuntime) -> Result<(), NoMemory> {
    let asked = framed(rt.alloc(), ASKED)?;
    let first = framed(rt.alloc(), &[FIRST])?.as_slice().len() as u64;
    let none: &[&str] = &[];
    for (passing, answered) in [
        (0, none),
        (3, none),
        (first.saturating_sub(1), none),
        (first, SAID_FIRST),
        (first.saturating_add(30), SAID_FIRST),
        (first.saturating_mul(2), SAID_BOTH),
    ] {
        let wanted = framed(rt.alloc(), answered)?;
        let mut said = Said::new(rt.alloc());
        let mut input = FaultyInput::new(asked.as_slice(), passing, 1);
        let status = server_engine(rt.alloc(), &mut input, &mut said);
        assert!(rt; status == Status::Device);
        assert!(rt; said.as_slice() == wanted.as_slice());
    }
    Ok(())
}

#[test]
fn a_failed_write_ends_the_conversation(rt: HostRuntime) -> Result<(), NoMemory> {
    let asked = framed(rt.alloc(), ASKED)?;
    let wanted = framed(rt.alloc(), SAID_FIRST)?;
    let mut input = MemoryInput::new(asked.as_slice());
    let mut output = FaultyOutput::new(rt.alloc(), 1_000, 1, 1_000)?;
    let status = server_engine(rt.alloc(), &mut input, &mut output);
    assert!(rt; status == Status::Device);
    assert!(rt; output.as_slice() == wanted.as_slice());
    Ok(())
}

/// The message with which a client goes, and what is said to it.
const LAST: &[&str] = &["{\"jsonrpc\":\"2.0\",\"method\":\"exit\"}"];

const SAID_LAST: &[&str] = &[];

#[test]
fn nothing_is_read_once_the_client_has_gone(rt: HostRuntime) -> Result<(), NoMemory> {
    let asked = framed(rt.alloc(), LAST)?;
    let wanted = framed(rt.alloc(), SAID_LAST)?;
    let passing = asked.as_slice().len() as u64;
    let mut said = Said::new(rt.alloc());
    let mut input = FaultyInput::new(asked.as_slice(), passing, 1);
    let status = server_engine(rt.alloc(), &mut input, &mut said);
    assert!(rt; status == Status::Refused);
    assert!(rt; said.as_slice() == wanted.as_slice());
    Ok(())
}

#[test]
fn what_is_no_message_ends_the_conversation(rt: HostRuntime) -> Result<(), NoMemory> {
    for (bytes, why) in [
        (
            "Content-Length: 9\r\n\r\n{}",
            "the input ends within a message",
        ),
        ("Content-Length: 4194305\r\n\r\n", "the message is too long"),
        (
            "content-length:123456789\r\n\r\n",
            "the message is too long",
        ),
        (
            "Content-Size: 2\r\n\r\n{}",
            "this is not the header of a message",
        ),
    ] {
        let wanted = format!(in rt.alloc();
            "{{\"error\":{{\"code\":-32700,\"message\":\"{why}\"}},\"id\":null,\"jsonrpc\":\"2.0\"}}"
        )?;
        let wanted = framed(rt.alloc(), &[wanted.as_str()])?;
        let mut said = Said::new(rt.alloc());
        let mut input = MemoryInput::new(bytes.as_bytes());
        let status = server_engine(rt.alloc(), &mut input, &mut said);
        assert!(rt; status == Status::Refused);
        assert!(rt; said.as_slice() == wanted.as_slice());
    }
    Ok(())
}

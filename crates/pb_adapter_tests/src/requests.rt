//! Requests of a client.

use pb_adapter_requests::{
    Counting, Kind, asked_lines, asks_events, is_given, is_of_text, kind_of, number_of, place_of,
    request_of, text_of,
};
use serde_json::Value;

#[test]
fn commands_have_their_kinds(rt: HostRuntime) {
    for (command, kind) in [
        ("initialize", Kind::Initialize),
        ("launch", Kind::Launch),
        ("setBreakpoints", Kind::SetBreakpoints),
        ("setExceptionBreakpoints", Kind::SetEvents),
        ("configurationDone", Kind::ConfigurationDone),
        ("disconnect", Kind::Disconnect),
        ("terminate", Kind::Terminate),
        ("threads", Kind::Threads),
        ("stackTrace", Kind::StackTrace),
        ("scopes", Kind::Scopes),
        ("variables", Kind::Variables),
        ("evaluate", Kind::Evaluate),
        ("continue", Kind::Continue),
        ("reverseContinue", Kind::ReverseContinue),
        ("next", Kind::Step),
        ("stepIn", Kind::Step),
        ("stepOut", Kind::Step),
        ("stepBack", Kind::StepBack),
        ("restart", Kind::Restart),
        ("pause", Kind::Pause),
        ("stepback", Kind::Unknown),
    ] {
        assert!(rt; kind_of(command) == kind);
    }
}

#[test]
fn requests_are_read(rt: HostRuntime) {
    let text =
        "{\"seq\":4,\"type\":\"request\",\"command\":\"setBreakpoints\",\"arguments\":{\"seed\":null,\"source\":{\"path\":\"a.pb\"},\"threadId\":66,\"text\":\"t\",\"breakpoints\":[{\"line\":7},{\"line\":65537},{}]}}";
    let Ok(message) = Value::from_str(rt.alloc(), text) else {
        panic!(rt; "this is not read");
    };
    let Some(request) = request_of(&message) else {
        panic!(rt; "this is no request");
    };
    assert!(rt; request.seq == 4);
    assert!(rt; request.command == "setBreakpoints");
    assert!(rt; text_of(request, "text") == Some("t"));
    assert!(rt; text_of(request, "threadId").is_none());
    let at = place_of(number_of(request, "threadId"));
    assert!(rt; at.process == 1 && at.arm == 1);
    let Ok(lines) = asked_lines(rt.alloc(), Counting::from_1(), request) else {
        panic!(rt; "out of memory");
    };
    assert!(rt; lines.as_slice() == [7, 0, 0].as_slice());
    let counting = Counting {
        lines_at_1: false,
        columns_at_1: true,
    };
    let Ok(lines) = asked_lines(rt.alloc(), counting, request) else {
        panic!(rt; "out of memory");
    };
    assert!(rt; lines.as_slice() == [8, 0, 0].as_slice());
    assert!(rt; counting.shown_line(8) == 7 && counting.shown_line(0) == 0);
    assert!(rt; counting.first_column() == 1);
    assert!(rt; is_given(request, "text") && !is_given(request, "seed"));
    assert!(rt; is_of_text(request, "a.pb") && !is_of_text(request, "b.pb"));
}

/// Whether the request that a text is asks to stop at events.
fn asks(rt: HostRuntime, text: &str) -> Option<bool> {
    let Ok(message) = Value::from_str(rt.alloc(), text) else {
        return None;
    };
    Some(asks_events(request_of(&message)?))
}

#[test]
fn events_are_asked_for(rt: HostRuntime) {
    for (filters, wanted) in [
        ("[\"events\"]", true),
        ("[\"faults\",\"events\"]", true),
        ("[\"event\",7]", false),
        ("[]", false),
        ("\"events\"", false),
    ] {
        let Ok(text) = format!(in rt.alloc();
            "{{\"seq\":1,\"command\":\"setExceptionBreakpoints\",\"arguments\":{{\"filters\":{filters}}}}}"
        ) else {
            panic!(rt; "out of memory");
        };
        assert!(rt; asks(rt, text.as_str()) == Some(wanted));
    }
}

#[test]
fn what_is_no_request_is_none(rt: HostRuntime) {
    for text in [
        "{\"command\":\"threads\"}",
        "{\"seq\":1}",
        "{\"seq\":-1,\"command\":\"threads\"}",
        "[1]",
        "{\"seq\":1,\"type\":\"response\",\"command\":\"threads\"}",
        "{\"seq\":1,\"type\":\"Request\",\"command\":\"threads\"}",
        "{\"seq\":1,\"type\":null,\"command\":\"threads\"}",
    ] {
        let Ok(message) = Value::from_str(rt.alloc(), text) else {
            panic!(rt; "this is not read");
        };
        assert!(rt; request_of(&message).is_none());
    }
}

//! Requests over the text of a document.

use pb_base::NoMemory;
use pb_server_claims::{answer_hints, answer_hover};
use serde_json::Value;

/// Two resources and three processes, of which two claim something.
const TEXT: &str =
    "resource tape = 3;\nresource disk = 1;\nprocess a\nbegin\n  integer x;\n  x := 12;\n  hold 1 of tape do\n    hold 1 of tape, 1 of disk do print x od\n  od\nend\nprocess b begin hold 1 of tape do skip od end\nprocess c begin skip end\n";

/// Whether the text of an answer is this.
fn reads(rt: HostRuntime, answer: &Value, wanted: &str) -> bool {
    match answer.to_vec(rt.alloc()) {
        Ok(text) => text.as_slice() == wanted.as_bytes(),
        Err(_) => false,
    }
}

/// The parameters that a text is; null if it is none.
fn params(rt: HostRuntime, text: &str) -> Value {
    match Value::from_str(rt.alloc(), text) {
        Ok(value) => value,
        Err(_) => Value::Null,
    }
}

#[test]
fn names_are_explained(rt: HostRuntime) -> Result<(), NoMemory> {
    for (asked, wanted) in [
        (
            "{\"position\":{\"line\":2,\"character\":8}}",
            "{\"contents\":{\"kind\":\"plaintext\",\"value\":\"process a\\nmay hold 2 of tape at once (lines 7, 8)\\nmay hold 1 of disk at once (line 8)\"},\"range\":{\"end\":{\"character\":9,\"line\":2},\"start\":{\"character\":8,\"line\":2}}}",
        ),
        (
            "{\"position\":{\"line\":11,\"character\":9}}",
            "{\"contents\":{\"kind\":\"plaintext\",\"value\":\"process c\"},\"range\":{\"end\":{\"character\":9,\"line\":11},\"start\":{\"character\":8,\"line\":11}}}",
        ),
        (
            "{\"position\":{\"line\":6,\"character\":14}}",
            "{\"contents\":{\"kind\":\"plaintext\",\"value\":\"resource tape: 3 in all\\nprocess a may hold 2 at once\\nprocess b may hold 1 at once\"},\"range\":{\"end\":{\"character\":16,\"line\":6},\"start\":{\"character\":12,\"line\":6}}}",
        ),
        (
            "{\"position\":{\"line\":5,\"character\":2}}",
            "{\"contents\":{\"kind\":\"plaintext\",\"value\":\"integer x of process a\\nfrom -9223372036854775808 to 9223372036854775807, 0 at first\"},\"range\":{\"end\":{\"character\":3,\"line\":5},\"start\":{\"character\":2,\"line\":5}}}",
        ),
    ] {
        let asked = params(rt, asked);
        let answer = answer_hover(rt.alloc(), TEXT, Some(&asked))?;
        assert!(rt; reads(rt, &answer, wanted));
    }
    Ok(())
}

#[test]
fn words_and_numbers_are_explained(rt: HostRuntime) -> Result<(), NoMemory> {
    for (asked, wanted) in [
        (
            "{\"position\":{\"line\":8,\"character\":3}}",
            "{\"contents\":{\"kind\":\"plaintext\",\"value\":\"Ends a `while`, or a `hold`, which gives back what it was lent.\"},\"range\":{\"end\":{\"character\":4,\"line\":8},\"start\":{\"character\":2,\"line\":8}}}",
        ),
        (
            "{\"position\":{\"line\":5,\"character\":7}}",
            "{\"contents\":{\"kind\":\"plaintext\",\"value\":\"A number is from 0 to 9223372036854775807, an amount of a resource at most 1000000.\"},\"range\":{\"end\":{\"character\":9,\"line\":5},\"start\":{\"character\":7,\"line\":5}}}",
        ),
        ("{\"position\":{\"line\":5,\"character\":9}}", "null"),
        ("{\"position\":{\"line\":8,\"character\":4}}", "null"),
        ("{\"position\":{\"line\":5,\"character\":4}}", "null"),
        ("{\"position\":{\"line\":99,\"character\":0}}", "null"),
        ("{}", "null"),
    ] {
        let asked = params(rt, asked);
        let answer = answer_hover(rt.alloc(), TEXT, Some(&asked))?;
        assert!(rt; reads(rt, &answer, wanted));
    }
    Ok(())
}

/// What is shown of a place in the first line of a text that has a fault.
#[test]
fn faults_leave_what_is_known(rt: HostRuntime) -> Result<(), NoMemory> {
    for (text, asked, wanted) in [
        (
            "process p begin fi end",
            "{\"position\":{\"line\":0,\"character\":16}}",
            "{\"contents\":{\"kind\":\"plaintext\",\"value\":\"Ends an `if`.\"},\"range\":{\"end\":{\"character\":18,\"line\":0},\"start\":{\"character\":16,\"line\":0}}}",
        ),
        (
            "process p begin fi end",
            "{\"position\":{\"line\":0,\"character\":8}}",
            "null",
        ),
        (
            "process p begin x := 1 end",
            "{\"position\":{\"line\":0,\"character\":8}}",
            "{\"contents\":{\"kind\":\"plaintext\",\"value\":\"process p\"},\"range\":{\"end\":{\"character\":9,\"line\":0},\"start\":{\"character\":8,\"line\":0}}}",
        ),
        (
            "resource r = 1; process p begin hold 2 of r do skip od end",
            "{\"position\":{\"line\":0,\"character\":9}}",
            "{\"contents\":{\"kind\":\"plaintext\",\"value\":\"resource r: 1 in all\\nprocess p may hold 2 at once\"},\"range\":{\"end\":{\"character\":10,\"line\":0},\"start\":{\"character\":9,\"line\":0}}}",
        ),
        (
            "process p begin % end",
            "{\"position\":{\"line\":0,\"character\":0}}",
            "null",
        ),
    ] {
        let asked = params(rt, asked);
        let answer = answer_hover(rt.alloc(), text, Some(&asked))?;
        assert!(rt; reads(rt, &answer, wanted));
    }
    Ok(())
}

#[test]
fn claims_are_hinted(rt: HostRuntime) -> Result<(), NoMemory> {
    for (text, wanted) in [
        (
            TEXT,
            "[{\"label\":\"2 of tape\",\"paddingLeft\":true,\"position\":{\"character\":9,\"line\":2}},{\"label\":\"1 of disk\",\"paddingLeft\":true,\"position\":{\"character\":9,\"line\":2}},{\"label\":\"1 of tape\",\"paddingLeft\":true,\"position\":{\"character\":9,\"line\":10}}]",
        ),
        (
            "resource r = 1; process p begin hold 2 of r do skip od end",
            "[{\"label\":\"2 of r\",\"paddingLeft\":true,\"position\":{\"character\":25,\"line\":0}}]",
        ),
        ("process p begin x := 1 end", "[]"),
        ("process p begin fi end", "[]"),
        ("process p begin % end", "[]"),
    ] {
        let answer = answer_hints(rt.alloc(), text)?;
        assert!(rt; reads(rt, &answer, wanted));
    }
    Ok(())
}

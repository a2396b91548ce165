//! Requests over the text of a document.

use pb_base::NoMemory;
use pb_server_texts::{
    answer_completion, answer_definition, answer_references, answer_rename, answer_symbols,
};
use serde_json::Value;

/// A resource and two processes, each with an integer `x`.
const TEXT: &str =
    "resource r = 2;\nprocess a begin integer x; x := 1; hold 1 of r do print x od end\nprocess b begin integer x; print x end\n";

/// Whether the text of an answer is this.
fn reads(rt: HostRuntime, answer: &Value, wanted: &str) -> bool {
    match answer.to_vec(rt.alloc()) {
        Ok(text) => text.as_slice() == wanted.as_bytes(),
        Err(_) => false,
    }
}

/// The parameters that a text is; null if it is none.
fn params(rt: HostRuntime, text: &str) -> Value {
    match Value::from_str(rt.alloc(), text) {
        Ok(value) => value,
        Err(_) => Value::Null,
    }
}

#[test]
fn definitions_are_found(rt: HostRuntime) -> Result<(), NoMemory> {
    for (asked, wanted) in [
        (
            "{\"position\":{\"line\":1,\"character\":56}}",
            "{\"range\":{\"end\":{\"character\":25,\"line\":1},\"start\":{\"character\":24,\"line\":1}},\"uri\":\"u\"}",
        ),
        (
            "{\"position\":{\"line\":1,\"character\":46}}",
            "{\"range\":{\"end\":{\"character\":10,\"line\":0},\"start\":{\"character\":9,\"line\":0}},\"uri\":\"u\"}",
        ),
        (
            "{\"position\":{\"line\":2,\"character\":24}}",
            "{\"range\":{\"end\":{\"character\":25,\"line\":2},\"start\":{\"character\":24,\"line\":2}},\"uri\":\"u\"}",
        ),
        ("{\"position\":{\"line\":1,\"character\":58}}", "null"),
        ("{\"position\":{\"line\":9,\"character\":0}}", "null"),
        ("{}", "null"),
    ] {
        let asked = params(rt, asked);
        let answer = answer_definition(rt.alloc(), "u", TEXT, Some(&asked))?;
        assert!(rt; reads(rt, &answer, wanted));
    }
    Ok(())
}

#[test]
fn references_are_found(rt: HostRuntime) -> Result<(), NoMemory> {
    for (asked, wanted) in [
        (
            "{\"position\":{\"line\":2,\"character\":33}}",
            "[{\"range\":{\"end\":{\"character\":25,\"line\":2},\"start\":{\"character\":24,\"line\":2}},\"uri\":\"u\"},{\"range\":{\"end\":{\"character\":34,\"line\":2},\"start\":{\"character\":33,\"line\":2}},\"uri\":\"u\"}]",
        ),
        (
            "{\"position\":{\"line\":2,\"character\":33},\"context\":{\"includeDeclaration\":false}}",
            "[{\"range\":{\"end\":{\"character\":34,\"line\":2},\"start\":{\"character\":33,\"line\":2}},\"uri\":\"u\"}]",
        ),
        (
            "{\"position\":{\"line\":0,\"character\":9}}",
            "[{\"range\":{\"end\":{\"character\":10,\"line\":0},\"start\":{\"character\":9,\"line\":0}},\"uri\":\"u\"},{\"range\":{\"end\":{\"character\":46,\"line\":1},\"start\":{\"character\":45,\"line\":1}},\"uri\":\"u\"}]",
        ),
        (
            "{\"position\":{\"line\":1,\"character\":8}}",
            "[{\"range\":{\"end\":{\"character\":9,\"line\":1},\"start\":{\"character\":8,\"line\":1}},\"uri\":\"u\"}]",
        ),
    ] {
        let asked = params(rt, asked);
        let answer = answer_references(rt.alloc(), "u", TEXT, Some(&asked))?;
        assert!(rt; reads(rt, &answer, wanted));
    }
    Ok(())
}

#[test]
fn names_are_renamed(rt: HostRuntime) -> Result<(), NoMemory> {
    for (asked, wanted) in [
        (
            "{\"position\":{\"line\":1,\"character\":27},\"newName\":\"yy\"}",
            "{\"changes\":{\"u\":[{\"newText\":\"yy\",\"range\":{\"end\":{\"character\":25,\"line\":1},\"start\":{\"character\":24,\"line\":1}}},{\"newText\":\"yy\",\"range\":{\"end\":{\"character\":28,\"line\":1},\"start\":{\"character\":27,\"line\":1}}},{\"newText\":\"yy\",\"range\":{\"end\":{\"character\":57,\"line\":1},\"start\":{\"character\":56,\"line\":1}}}]}}",
        ),
        (
            "{\"position\":{\"line\":1,\"character\":8},\"newName\":\"c\"}",
            "{\"changes\":{\"u\":[{\"newText\":\"c\",\"range\":{\"end\":{\"character\":9,\"line\":1},\"start\":{\"character\":8,\"line\":1}}}]}}",
        ),
        (
            "{\"position\":{\"line\":1,\"character\":8},\"newName\":\"b\"}",
            "null",
        ),
        (
            "{\"position\":{\"line\":1,\"character\":8},\"newName\":\"end\"}",
            "null",
        ),
        (
            "{\"position\":{\"line\":1,\"character\":8},\"newName\":\"1\"}",
            "null",
        ),
        ("{\"position\":{\"line\":1,\"character\":8}}", "null"),
    ] {
        let asked = params(rt, asked);
        let answer = answer_rename(rt.alloc(), "u", TEXT, Some(&asked))?;
        assert!(rt; reads(rt, &answer, wanted));
    }
    Ok(())
}

#[test]
fn completions_are_listed(rt: HostRuntime) -> Result<(), NoMemory> {
    for (asked, wanted) in [
        (
            "{\"position\":{\"line\":2,\"character\":33}}",
            "[{\"kind\":21,\"label\":\"r\"},{\"kind\":6,\"label\":\"x\"},{\"kind\":14,\"label\":\"and\"},{\"kind\":14,\"label\":\"begin\"},{\"kind\":14,\"label\":\"div\"},{\"kind\":14,\"label\":\"do\"},{\"kind\":14,\"label\":\"else\"},{\"kind\":14,\"label\":\"end\"},{\"kind\":14,\"label\":\"fi\"},{\"kind\":14,\"label\":\"hold\"},{\"kind\":14,\"label\":\"if\"},{\"kind\":14,\"label\":\"integer\"},{\"kind\":14,\"label\":\"mod\"},{\"kind\":14,\"label\":\"not\"},{\"kind\":14,\"label\":\"od\"},{\"kind\":14,\"label\":\"of\"},{\"kind\":14,\"label\":\"or\"},{\"kind\":14,\"label\":\"parbegin\"},{\"kind\":14,\"label\":\"parend\"},{\"kind\":14,\"label\":\"print\"},{\"kind\":14,\"label\":\"process\"},{\"kind\":14,\"label\":\"resource\"},{\"kind\":14,\"label\":\"skip\"},{\"kind\":14,\"label\":\"then\"},{\"kind\":14,\"label\":\"while\"}]",
        ),
        (
            "{\"position\":{\"line\":0,\"character\":0}}",
            "[{\"kind\":14,\"label\":\"and\"},{\"kind\":14,\"label\":\"begin\"},{\"kind\":14,\"label\":\"div\"},{\"kind\":14,\"label\":\"do\"},{\"kind\":14,\"label\":\"else\"},{\"kind\":14,\"label\":\"end\"},{\"kind\":14,\"label\":\"fi\"},{\"kind\":14,\"label\":\"hold\"},{\"kind\":14,\"label\":\"if\"},{\"kind\":14,\"label\":\"integer\"},{\"kind\":14,\"label\":\"mod\"},{\"kind\":14,\"label\":\"not\"},{\"kind\":14,\"label\":\"od\"},{\"kind\":14,\"label\":\"of\"},{\"kind\":14,\"label\":\"or\"},{\"kind\":14,\"label\":\"parbegin\"},{\"kind\":14,\"label\":\"parend\"},{\"kind\":14,\"label\":\"print\"},{\"kind\":14,\"label\":\"process\"},{\"kind\":14,\"label\":\"resource\"},{\"kind\":14,\"label\":\"skip\"},{\"kind\":14,\"label\":\"then\"},{\"kind\":14,\"label\":\"while\"}]",
        ),
        (
            "{}",
            "[{\"kind\":14,\"label\":\"and\"},{\"kind\":14,\"label\":\"begin\"},{\"kind\":14,\"label\":\"div\"},{\"kind\":14,\"label\":\"do\"},{\"kind\":14,\"label\":\"else\"},{\"kind\":14,\"label\":\"end\"},{\"kind\":14,\"label\":\"fi\"},{\"kind\":14,\"label\":\"hold\"},{\"kind\":14,\"label\":\"if\"},{\"kind\":14,\"label\":\"integer\"},{\"kind\":14,\"label\":\"mod\"},{\"kind\":14,\"label\":\"not\"},{\"kind\":14,\"label\":\"od\"},{\"kind\":14,\"label\":\"of\"},{\"kind\":14,\"label\":\"or\"},{\"kind\":14,\"label\":\"parbegin\"},{\"kind\":14,\"label\":\"parend\"},{\"kind\":14,\"label\":\"print\"},{\"kind\":14,\"label\":\"process\"},{\"kind\":14,\"label\":\"resource\"},{\"kind\":14,\"label\":\"skip\"},{\"kind\":14,\"label\":\"then\"},{\"kind\":14,\"label\":\"while\"}]",
        ),
    ] {
        let asked = params(rt, asked);
        let answer = answer_completion(rt.alloc(), TEXT, Some(&asked))?;
        assert!(rt; reads(rt, &answer, wanted));
    }
    Ok(())
}

#[test]
fn symbols_are_listed(rt: HostRuntime) -> Result<(), NoMemory> {
    let answer = answer_symbols(rt.alloc(), TEXT)?;
    let wanted =
        "[{\"children\":[],\"kind\":14,\"name\":\"r\",\"range\":{\"end\":{\"character\":15,\"line\":0},\"start\":{\"character\":0,\"line\":0}},\"selectionRange\":{\"end\":{\"character\":10,\"line\":0},\"start\":{\"character\":9,\"line\":0}}},{\"children\":[{\"children\":[],\"kind\":13,\"name\":\"x\",\"range\":{\"end\":{\"character\":25,\"line\":1},\"start\":{\"character\":24,\"line\":1}},\"selectionRange\":{\"end\":{\"character\":25,\"line\":1},\"start\":{\"character\":24,\"line\":1}}}],\"kind\":12,\"name\":\"a\",\"range\":{\"end\":{\"character\":64,\"line\":1},\"start\":{\"character\":0,\"line\":1}},\"selectionRange\":{\"end\":{\"character\":9,\"line\":1},\"start\":{\"character\":8,\"line\":1}}},{\"children\":[{\"children\":[],\"kind\":13,\"name\":\"x\",\"range\":{\"end\":{\"character\":25,\"line\":2},\"start\":{\"character\":24,\"line\":2}},\"selectionRange\":{\"end\":{\"character\":25,\"line\":2},\"start\":{\"character\":24,\"line\":2}}}],\"kind\":12,\"name\":\"b\",\"range\":{\"end\":{\"character\":38,\"line\":2},\"start\":{\"character\":0,\"line\":2}},\"selectionRange\":{\"end\":{\"character\":9,\"line\":2},\"start\":{\"character\":8,\"line\":2}}}]";
    assert!(rt; reads(rt, &answer, wanted));
    Ok(())
}

#[test]
fn texts_that_are_not_read_have_no_names(rt: HostRuntime) -> Result<(), NoMemory> {
    let asked = params(rt, "{\"position\":{\"line\":0,\"character\":8}}");
    for text in ["process a begin print x", "?", ""] {
        let definition = answer_definition(rt.alloc(), "u", text, Some(&asked))?;
        assert!(rt; reads(rt, &definition, "null"));
        let symbols = answer_symbols(rt.alloc(), text)?;
        assert!(rt; reads(rt, &symbols, "null"));
        let items = answer_completion(rt.alloc(), text, Some(&asked))?;
        assert!(rt;
            reads(
                rt,
                &items,
                "[{\"kind\":14,\"label\":\"and\"},{\"kind\":14,\"label\":\"begin\"},{\"kind\":14,\"label\":\"div\"},{\"kind\":14,\"label\":\"do\"},{\"kind\":14,\"label\":\"else\"},{\"kind\":14,\"label\":\"end\"},{\"kind\":14,\"label\":\"fi\"},{\"kind\":14,\"label\":\"hold\"},{\"kind\":14,\"label\":\"if\"},{\"kind\":14,\"label\":\"integer\"},{\"kind\":14,\"label\":\"mod\"},{\"kind\":14,\"label\":\"not\"},{\"kind\":14,\"label\":\"od\"},{\"kind\":14,\"label\":\"of\"},{\"kind\":14,\"label\":\"or\"},{\"kind\":14,\"label\":\"parbegin\"},{\"kind\":14,\"label\":\"parend\"},{\"kind\":14,\"label\":\"print\"},{\"kind\":14,\"label\":\"process\"},{\"kind\":14,\"label\":\"resource\"},{\"kind\":14,\"label\":\"skip\"},{\"kind\":14,\"label\":\"then\"},{\"kind\":14,\"label\":\"while\"}]"
            )
        );
    }
    Ok(())
}

#[test]
fn names_are_completed_in_an_unfinished_text(rt: HostRuntime) -> Result<(), NoMemory> {
    let asked = params(rt, "{\"position\":{\"line\":1,\"character\":36}}");
    let text =
        "resource r = 2;\nprocess a begin integer x, y; x := y\nprocess b begin integer z; z := ";
    let items = answer_completion(rt.alloc(), text, Some(&asked))?;
    let wanted =
        "[{\"kind\":21,\"label\":\"r\"},{\"kind\":6,\"label\":\"x\"},{\"kind\":6,\"label\":\"y\"},{\"kind\":14,\"label\":\"and\"},{\"kind\":14,\"label\":\"begin\"},{\"kind\":14,\"label\":\"div\"},{\"kind\":14,\"label\":\"do\"},{\"kind\":14,\"label\":\"else\"},{\"kind\":14,\"label\":\"end\"},{\"kind\":14,\"label\":\"fi\"},{\"kind\":14,\"label\":\"hold\"},{\"kind\":14,\"label\":\"if\"},{\"kind\":14,\"label\":\"integer\"},{\"kind\":14,\"label\":\"mod\"},{\"kind\":14,\"label\":\"not\"},{\"kind\":14,\"label\":\"od\"},{\"kind\":14,\"label\":\"of\"},{\"kind\":14,\"label\":\"or\"},{\"kind\":14,\"label\":\"parbegin\"},{\"kind\":14,\"label\":\"parend\"},{\"kind\":14,\"label\":\"print\"},{\"kind\":14,\"label\":\"process\"},{\"kind\":14,\"label\":\"resource\"},{\"kind\":14,\"label\":\"skip\"},{\"kind\":14,\"label\":\"then\"},{\"kind\":14,\"label\":\"while\"}]";
    assert!(rt; reads(rt, &items, wanted));
    Ok(())
}

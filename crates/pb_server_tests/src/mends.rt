//! Edits that mend a text, as actions.

use pb_base::NoMemory;
use pb_diagnostics::actions;
use std::alloc::Global;

/// Texts, and the actions that mend them.
const CASES: [(&str, &str); 18] = [
    (
        "process a begin prnt 1 end\n",
        "[{\"edit\":{\"changes\":{\"file:///a.pb\":[{\"newText\":\"print\",\"range\":{\"end\":{\"character\":20,\"line\":0},\"start\":{\"character\":16,\"line\":0}}}]}},\"kind\":\"quickfix\",\"title\":\"write `print`\"}]",
    ),
    (
        "process a\nbegin\n  integer x;\n  x := y\nend\n",
        "[{\"edit\":{\"changes\":{\"file:///a.pb\":[{\"newText\":\", y\",\"range\":{\"end\":{\"character\":11,\"line\":2},\"start\":{\"character\":11,\"line\":2}}}]}},\"kind\":\"quickfix\",\"title\":\"declare integer y\"}]",
    ),
    (
        "process a begin x := 1 end\n",
        "[{\"edit\":{\"changes\":{\"file:///a.pb\":[{\"newText\":\" integer x;\",\"range\":{\"end\":{\"character\":15,\"line\":0},\"start\":{\"character\":15,\"line\":0}}}]}},\"kind\":\"quickfix\",\"title\":\"declare integer x\"}]",
    ),
    (
        "process a begin print 1 print 2 end\n",
        "[{\"edit\":{\"changes\":{\"file:///a.pb\":[{\"newText\":\";\",\"range\":{\"end\":{\"character\":23,\"line\":0},\"start\":{\"character\":23,\"line\":0}}}]}},\"kind\":\"quickfix\",\"title\":\"insert `;`\"}]",
    ),
    (
        "process a begin end\n",
        "[{\"edit\":{\"changes\":{\"file:///a.pb\":[{\"newText\":\" skip\",\"range\":{\"end\":{\"character\":15,\"line\":0},\"start\":{\"character\":15,\"line\":0}}}]}},\"kind\":\"quickfix\",\"title\":\"insert `skip`\"}]",
    ),
    (
        "process a begin while 1 print 1 od end\n",
        "[{\"edit\":{\"changes\":{\"file:///a.pb\":[{\"newText\":\" do\",\"range\":{\"end\":{\"character\":23,\"line\":0},\"start\":{\"character\":23,\"line\":0}}}]}},\"kind\":\"quickfix\",\"title\":\"insert `do`\"}]",
    ),
    (
        "process a begin print 1\n",
        "[{\"edit\":{\"changes\":{\"file:///a.pb\":[{\"newText\":\" end\",\"range\":{\"end\":{\"character\":23,\"line\":0},\"start\":{\"character\":23,\"line\":0}}}]}},\"kind\":\"quickfix\",\"title\":\"insert `end`\"}]",
    ),
    (
        "resource tape = 1;\nprocess p\nbegin\n  hold 1 of tape do\n    hold 1 of tape do skip od\n  od\nend\n",
        "[{\"edit\":{\"changes\":{\"file:///a.pb\":[{\"newText\":\"2\",\"range\":{\"end\":{\"character\":17,\"line\":0},\"start\":{\"character\":16,\"line\":0}}}]}},\"kind\":\"quickfix\",\"title\":\"make the capital of tape 2\"}]",
    ),
    // With the edit the text is refused for a later claim: of the same process, or of the next one.
    (
        "resource a = 1;\nresource b = 1;\nprocess p begin hold 2 of a do skip od; hold 3 of b do skip od end\n",
        "[{\"edit\":{\"changes\":{\"file:///a.pb\":[{\"newText\":\"2\",\"range\":{\"end\":{\"character\":14,\"line\":0},\"start\":{\"character\":13,\"line\":0}}}]}},\"kind\":\"quickfix\",\"title\":\"make the capital of a 2\"}]",
    ),
    (
        "resource a = 1;\nprocess p begin hold 2 of a do skip od end\nprocess q begin hold 3 of a do skip od end\n",
        "[{\"edit\":{\"changes\":{\"file:///a.pb\":[{\"newText\":\"2\",\"range\":{\"end\":{\"character\":14,\"line\":0},\"start\":{\"character\":13,\"line\":0}}}]}},\"kind\":\"quickfix\",\"title\":\"make the capital of a 2\"}]",
    ),
    // The edit is what the message says, and no other that gets further.
    (
        "process a begin integer x y; x := 1 end\n",
        "[{\"edit\":{\"changes\":{\"file:///a.pb\":[{\"newText\":\",\",\"range\":{\"end\":{\"character\":25,\"line\":0},\"start\":{\"character\":25,\"line\":0}}}]}},\"kind\":\"quickfix\",\"title\":\"insert `,`\"}]",
    ),
    (
        "process a begin print 1; end\n",
        "[{\"edit\":{\"changes\":{\"file:///a.pb\":[{\"newText\":\"\",\"range\":{\"end\":{\"character\":24,\"line\":0},\"start\":{\"character\":23,\"line\":0}}}]}},\"kind\":\"quickfix\",\"title\":\"leave `;` out\"}]",
    ),
    (
        "process a begin while true do print 1 od end\n",
        "[{\"edit\":{\"changes\":{\"file:///a.pb\":[{\"newText\":\"1\",\"range\":{\"end\":{\"character\":26,\"line\":0},\"start\":{\"character\":22,\"line\":0}}}]}},\"kind\":\"quickfix\",\"title\":\"write `1`\"}]",
    ),
    (
        "process a begin integer X; x := 1 end\n",
        "[{\"edit\":{\"changes\":{\"file:///a.pb\":[{\"newText\":\"X\",\"range\":{\"end\":{\"character\":28,\"line\":0},\"start\":{\"character\":27,\"line\":0}}}]}},\"kind\":\"quickfix\",\"title\":\"write `X`\"}]",
    ),
    ("resource r = 1; process a begin print r end\n", "[]"),
    // A carriage return alone ends a line.
    (
        "process a\rbegin x := 1 end\r",
        "[{\"edit\":{\"changes\":{\"file:///a.pb\":[{\"newText\":\" integer x;\",\"range\":{\"end\":{\"character\":5,\"line\":1},\"start\":{\"character\":5,\"line\":1}}}]}},\"kind\":\"quickfix\",\"title\":\"declare integer x\"}]",
    ),
    ("process a begin skip end\n", "[]"),
    ("process a ? begin skip end\n", "[]"),
];

#[test]
fn texts_are_mended(rt: HostRuntime) -> Result<(), NoMemory> {
    for (text, wanted) in CASES {
        let answer = actions(rt.alloc(), "file:///a.pb", text.as_bytes())?;
        assert!(rt; answer.to_vec(rt.alloc())?.as_slice() == wanted.as_bytes());
    }
    Ok(())
}

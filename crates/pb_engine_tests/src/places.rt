//! Places of offsets, and bytes as they are shown.

use pb_message_excerpts::{place_of, printable, show_place};

#[test]
fn places(rt: HostRuntime) {
    let text = b"ab\n\ncde";
    let first = place_of(text, 2);
    assert!(rt; (first.line, first.column) == (1, 3));
    assert!(rt; (first.at, first.begin, first.end) == (2, 0, 2));
    let last = place_of(text, 7);
    assert!(rt; (last.line, last.column) == (3, 4));
    assert!(rt; (last.at, last.begin, last.end) == (7, 4, 7));
}

#[test]
fn bytes_as_they_are_shown(rt: HostRuntime) {
    let shown = printable(rt.alloc(), b"a\tb\rc\x07");
    assert!(rt; shown.is_ok_and(|shown| shown.as_slice() == b"a\tb c?".as_slice()));
}

// A character that can be seen is shown, and each byte of a byte order mark, of a character that is cut off and of one that is
// written too long as a question mark.
#[test]
fn characters_as_they_are_shown(rt: HostRuntime) {
    let seen = printable(rt.alloc(), b"caf\xc3\xa9 \xe4\xb8\xad \xf0\x9f\x8d\xb4");
    assert!(rt;
        seen.is_ok_and(|seen| seen.as_slice()
            == b"caf\xc3\xa9 \xe4\xb8\xad \xf0\x9f\x8d\xb4".as_slice())
    );
    let hidden = printable(rt.alloc(), b"\xef\xbb\xbfa\xc1\x81\xe2\x80");
    assert!(rt; hidden.is_ok_and(|hidden| hidden.as_slice() == b"???a????".as_slice()));
}

#[test]
fn mark_is_below_its_character(rt: HostRuntime) {
    let shown = show_place(rt.alloc(), b"", b"\xc3\xa9 \xe4\xb8\xad x", 7);
    let wanted = b"  --> line 1, column 8\n  |\n1 | \xc3\xa9 \xe4\xb8\xad x\n  |      ^\n";
    assert!(rt; shown.is_ok_and(|shown| shown.as_slice() == wanted.as_slice()));
}

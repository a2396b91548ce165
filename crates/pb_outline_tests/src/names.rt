//! The names of a program.

use pb_base::NoMemory;
use pb_lexer::lex;
use pb_outline::{Extent, Kind, Outline, Position, RenameFault, extent_of, offset_at, position_of};
use pb_parser::parse;

/// Two processes of which each has an integer `x`.
const TEXT: &[u8] =
    b"resource r = 2; process a begin integer x; hold 1 of r do x := x + 1 od end process b begin integer x; print x end";

#[test]
fn names_are_outlined(rt: HostRuntime) -> Result<(), NoMemory> {
    let Ok(tokens) = lex(rt.alloc(), TEXT) else {
        panic!(rt; "this has tokens");
    };
    let Ok(tree) = parse(rt.alloc(), &tokens) else {
        panic!(rt; "this is a program");
    };
    let outline = Outline::of(rt.alloc(), &tree)?;
    let wanted = [
        (Kind::Resource, 9, true),
        (Kind::Process, 24, true),
        (Kind::Integer(0), 40, true),
        (Kind::Resource, 53, false),
        (Kind::Integer(0), 58, false),
        (Kind::Integer(0), 63, false),
        (Kind::Process, 84, true),
        (Kind::Integer(1), 100, true),
        (Kind::Integer(1), 109, false),
    ];
    assert!(rt; outline.places().len() == wanted.len());
    for (i, place) in outline.places().iter().enumerate() {
        if let Some((kind, at, declares)) = wanted.get(i) {
            assert!(rt; place.kind == *kind && place.at == *at && place.declares == *declares);
        }
    }
    let Some(one) = outline.place_at(64) else {
        panic!(rt; "a name ends there");
    };
    assert!(rt; one.at == 63);
    assert!(rt; outline.place_at(65).is_none());
    let Some(declared) = outline.declaration_of(&one) else {
        panic!(rt; "it is declared");
    };
    assert!(rt; declared.at == 40);
    assert!(rt; outline.places_of(rt.alloc(), &one)?.len() == 3);
    assert!(rt; outline.process_at(20).is_none());
    assert!(rt; outline.process_at(24) == Some(0));
    assert!(rt; outline.process_at(109) == Some(1));
    assert!(rt; outline.names_at(rt.alloc(), 109)?.len() == 2);
    match outline.rename(rt.alloc(), &one, b"y") {
        Ok(places) => assert!(rt; places.len() == 3),
        Err(_) => panic!(rt; "this may be its name"),
    }
    for (name, wanted) in [
        (b"do".as_slice(), RenameFault::NotAName),
        (b"", RenameFault::NotAName),
    ] {
        match outline.rename(rt.alloc(), &one, name) {
            Ok(_) => panic!(rt; "this is no name"),
            Err(fault) => assert!(rt; fault == wanted),
        }
    }
    let Some(process) = outline.place_at(24) else {
        panic!(rt; "a name begins there");
    };
    match outline.rename(rt.alloc(), &process, b"b") {
        Ok(_) => panic!(rt; "the other process has that name"),
        Err(fault) => assert!(rt; fault == RenameFault::Taken),
    }
    Ok(())
}

#[test]
fn declarations_have_their_extents(rt: HostRuntime) {
    let Ok(tokens) = lex(rt.alloc(), TEXT) else {
        panic!(rt; "this has tokens");
    };
    for (at, start, end) in [(9, 0, 15), (24, 16, 75), (84, 76, 114)] {
        assert!(rt; extent_of(&tokens, at) == Extent { start, end });
    }
}

#[test]
fn positions_are_counted_from_0(rt: HostRuntime) {
    let text = b"ab\n\nc";
    for (at, line, character) in [
        (0, 0, 0),
        (2, 0, 2),
        (3, 1, 0),
        (4, 2, 0),
        (5, 2, 1),
        (9, 2, 1),
    ] {
        assert!(rt; position_of(text, at) == Position { line, character });
    }
    for (line, character, at) in [(0, 2, 2), (1, 0, 3), (2, 1, 5)] {
        assert!(rt; offset_at(text, Position { line, character }) == Some(at));
    }
    // A character past the end of a line is its end.
    for (line, character, at) in [(0, 3, 2), (1, 1, 3), (2, 99, 5)] {
        assert!(rt; offset_at(text, Position { line, character }) == Some(at));
    }
    assert!(rt;
        offset_at(
            text,
            Position {
                line: 3,
                character: 0
            }
        )
        .is_none()
    );
}

#[test]
fn a_return_alone_ends_a_line(rt: HostRuntime) {
    let text = b"a\rb\r\nc\r";
    for (at, line, character) in [
        (1, 0, 1),
        (2, 1, 0),
        (3, 1, 1),
        (4, 1, 2),
        (5, 2, 0),
        (6, 2, 1),
        (7, 3, 0),
    ] {
        assert!(rt; position_of(text, at) == Position { line, character });
        assert!(rt; offset_at(text, Position { line, character }) == Some(at));
    }
}

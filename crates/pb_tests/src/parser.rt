//! Texts, and the trees that they are read as, or where they are refused.

mod memories;
mod places;
mod texts;

use crate::texts::repeated;
use crate::trees::{Part, made_of, read};
use linked_list_allocator::LocalHeap;
use pb_base::{BinaryOp, UnaryOp};
use pb_lexer::{Token, lex};
use pb_parser::{ParseFault, parse};
use std::alloc::Global;

const TEXT: &[u8] = b"resource r = 3;
resource s = 0;
process p begin
  integer a, b;
  a := 1 - 2 * -3 div b mod 4 + (5);
  if not a < b and b >= 2 or a <> b then print a else skip; print b fi;
  while a <= 1 do begin a := 2; skip end od;
  hold 1 of r, 2 of s do parbegin print 3; begin skip; print 4 end; skip parend od
end
process q begin if a > b then skip fi; print a = b end
";

/// The tree of that text.
const TREE: [Part; 72] = [
    Part::Resource(b"r", 9, 3, 13),
    Part::Resource(b"s", 25, 0, 29),
    Part::Integer(b"a", 58),
    Part::Integer(b"b", 61),
    Part::List,
    // a := 1 - 2 * -3 div b mod 4 + (5)
    Part::Number(1, 71),
    Part::Number(2, 75),
    Part::Number(3, 80),
    Part::Unary(UnaryOp::Negate),
    Part::Binary(BinaryOp::Multiply),
    Part::Variable(b"b", 86),
    Part::Binary(BinaryOp::Quotient),
    Part::Number(4, 92),
    Part::Binary(BinaryOp::Remainder),
    Part::Binary(BinaryOp::Subtract),
    Part::Number(5, 97),
    Part::Binary(BinaryOp::Add),
    Part::Assign(5, b"a", 66),
    // if not a < b and b >= 2 or a <> b then print a else skip; print b fi
    Part::Variable(b"a", 110),
    Part::Variable(b"b", 114),
    Part::Binary(BinaryOp::Less),
    Part::Unary(UnaryOp::Not),
    Part::Variable(b"b", 120),
    Part::Number(2, 125),
    Part::Binary(BinaryOp::AtLeast),
    Part::Binary(BinaryOp::And),
    Part::Variable(b"a", 130),
    Part::Variable(b"b", 135),
    Part::Binary(BinaryOp::Unequal),
    Part::Binary(BinaryOp::Or),
    Part::List,
    Part::Variable(b"a", 148),
    Part::Print(6),
    Part::List,
    Part::Variable(b"b", 167),
    Part::Print(6),
    Part::If(6),
    // while a <= 1 do begin a := 2; skip end od
    Part::Variable(b"a", 181),
    Part::Number(1, 186),
    Part::Binary(BinaryOp::AtMost),
    Part::List,
    Part::Number(2, 202),
    Part::Assign(7, b"a", 197),
    Part::While(7),
    // hold 1 of r, 2 of s do parbegin print 3; begin skip; print 4 end; skip parend od
    Part::Demand(1, 225, b"r", 230),
    Part::Demand(2, 233, b"s", 238),
    Part::List,
    Part::List,
    Part::Number(3, 258),
    Part::Print(8),
    Part::Arm,
    Part::List,
    Part::Number(4, 279),
    Part::Print(8),
    Part::Arm,
    Part::List,
    Part::Arm,
    Part::Parbegin(8),
    Part::Hold(8),
    Part::Process(b"p", 40),
    // if a > b then skip fi; print a = b
    Part::List,
    Part::Variable(b"a", 324),
    Part::Variable(b"b", 328),
    Part::Binary(BinaryOp::Greater),
    Part::List,
    Part::List,
    Part::If(10),
    Part::Variable(b"a", 350),
    Part::Variable(b"b", 354),
    Part::Binary(BinaryOp::Equal),
    Part::Print(10),
    Part::Process(b"q", 313),
];

/// Returns whether the text is read as its tree, which has 52 nodes and height 8.
fn is_read_as_its_tree(alloc: Global) -> Option<bool> {
    let program = read(alloc, TEXT)?;
    let expected = made_of(alloc, &TREE)?;
    Some(program.same(&expected) && program.nodes() == 52 && program.height() == 8)
}

#[test]
fn reads_all_of_the_grammar(rt: HostRuntime) {
    assert!(rt; is_read_as_its_tree(rt.alloc()) == Some(true));
}

/// Returns the fault of a text, which has tokens.
fn fault(alloc: Global, text: &[u8]) -> Option<ParseFault> {
    let Ok(tokens) = lex(alloc, text) else {
        return Some(ParseFault::NoMemory);
    };
    match parse(alloc, tokens.as_slice()) {
        Ok(_) => None,
        Err(e) => Some(e),
    }
}

/// Texts, and the offsets of their syntax errors.
const WRONG: [(&[u8], usize); 7] = [
    (b"", 0),
    (b"process p begin skip; end", 22),
    (b"process p begin skip", 20),
    (b"process p begin print 12abc end", 24),
    (b"process p begin print a < b < c end", 28),
    (b"process p begin skip end end", 25),
    (b"resource r = 1;", 15),
];

#[test]
fn names_the_place_of_a_syntax_error(rt: HostRuntime) {
    for (text, place) in &WRONG {
        assert!(rt; fault(rt.alloc(), *text) == Some(ParseFault::Syntax(*place)));
    }
    assert!(rt; fault(rt.alloc(), b"process p begin skip end") == None);
}

/// Returns the text with blanks in place of the token.
fn left_out(alloc: Global, token: &Token<'_>) -> Option<Vec<u8, Global>> {
    let mut text = Vec::new(alloc);
    for (at, byte) in places::TEXT.iter().enumerate() {
        let inside = token.start() <= at && at < token.end();
        text.push(if inside { b' ' } else { *byte }).ok()?;
    }
    Some(text)
}

/// Returns the text with the token twice, and a blank between.
fn twice(alloc: Global, token: &Token<'_>) -> Option<Vec<u8, Global>> {
    let mut text = Vec::new(alloc);
    for (at, byte) in places::TEXT.iter().enumerate() {
        if at == token.end() {
            text.push(b' ').ok()?;
            text.extend_from_slice(token.text()).ok()?;
        }
        text.push(*byte).ok()?;
    }
    Some(text)
}

/// Returns whether a text has its fault at this offset, or none.
fn has_fault(alloc: Global, text: Option<Vec<u8>>, place: usize) -> bool {
    let Some(text) = text else {
        return false;
    };
    match fault(alloc, text.as_slice()) {
        None => place == places::FINE,
        Some(ParseFault::Syntax(at)) => place != places::FINE && at == place,
        Some(_) => false,
    }
}

/// Returns whether each token has the faults of its offsets, if there are as many.
fn have_faults(alloc: Global, tokens: &[Token<'_>]) -> bool {
    for (token, places) in tokens.iter().zip(places::PLACES.iter()) {
        let is_known = has_fault(alloc, left_out(alloc, token), places[0])
            && has_fault(alloc, twice(alloc, token), places[1]);
        if !is_known {
            return false;
        }
    }
    tokens.len() == places::PLACES.len()
}

#[test]
fn finds_the_first_token_that_is_wrong(rt: HostRuntime) {
    assert!(rt; fault(rt.alloc(), places::TEXT) == None);
    let Ok(tokens) = lex(rt.alloc(), places::TEXT) else {
        panic!(rt; "no tokens")
    };
    assert!(rt; have_faults(rt.alloc(), tokens.as_slice()));
}

/// Returns the fault of a text of a head, `count` pieces and a tail.
fn repeated_fault(
    alloc: Global,
    head: &[u8],
    piece: &[u8],
    count: usize,
    tail: &[u8],
) -> Option<ParseFault> {
    match repeated(alloc, head, piece, count, tail) {
        Ok(text) => fault(alloc, text.as_slice()),
        Err(_) => Some(ParseFault::NoMemory),
    }
}

/// Pieces, how often each occurs in a text, the tail of the text, and its fault.
const DEEP: [(&[u8], usize, &[u8], ParseFault); 5] = [
    (b"(", 65_536, b"", ParseFault::TooDeep),
    (b"(", 257, b"", ParseFault::TooDeep),
    (b"(", 256, b"", ParseFault::Syntax(0)),
    (b"- not ", 128, b"-", ParseFault::TooDeep),
    (b"- not ", 128, b"", ParseFault::Syntax(0)),
];

#[test]
fn looks_for_depth_before_the_grammar(rt: HostRuntime) {
    for (piece, count, tail, told) in &DEEP {
        assert!(rt; repeated_fault(rt.alloc(), b"", *piece, *count, *tail) == Some(*told));
    }
}

/// The heads, pieces and tails of texts, how often the piece occurs in each, and the fault.
const LARGE: [(&[u8], &[u8], usize, &[u8], Option<ParseFault>); 4] = [
    (b"process p begin print ", b"-", 198, b"1 end", None),
    (
        b"process p begin print ",
        b"-",
        199,
        b"1 end",
        Some(ParseFault::TooDeep),
    ),
    (b"process p begin ", b"x:=1;", 8190, b"x:=-1 end", None),
    (
        b"process p begin ",
        b"x:=1;",
        8191,
        b"x:=1 end",
        Some(ParseFault::TooLarge),
    ),
];

#[test]
fn keeps_the_limits_of_the_tree(rt: HostRuntime) {
    for (head, piece, count, tail, told) in &LARGE {
        assert!(rt; repeated_fault(rt.alloc(), *head, *piece, *count, *tail) == *told);
    }
}

/// Returns the fault of a text of a head, `count` pieces and a tail, if out of memory for its tree.
fn fault_without_room(
    alloc: Global,
    head: &[u8],
    piece: &[u8],
    count: usize,
    tail: &[u8],
) -> Option<ParseFault> {
    let text = repeated(alloc, head, piece, count, tail).ok()?;
    let tokens = lex(alloc, text.as_slice()).ok()?;
    let none = LocalHeap::new(alloc, 64).ok()?;
    match parse(&none, tokens.as_slice()) {
        Ok(_) => None,
        Err(fault) => Some(fault),
    }
}

/// The heads, pieces and tails of texts, how often the piece occurs in each, and the fault without memory.
const WITHOUT_ROOM: [(&[u8], &[u8], usize, &[u8], ParseFault); 3] = [
    (
        b"process p begin ",
        b"x:=1;",
        8_191,
        b"x:=1 end",
        ParseFault::TooLarge,
    ),
    (
        b"process p begin print 1",
        b"+1",
        32_000,
        b" end",
        ParseFault::TooDeep,
    ),
    (
        b"process p begin ",
        b"print 1",
        1,
        b" end",
        ParseFault::NoMemory,
    ),
];

#[test]
fn takes_no_room_where_it_refuses(rt: HostRuntime) {
    for (head, piece, count, tail, told) in &WITHOUT_ROOM {
        assert!(rt; fault_without_room(rt.alloc(), *head, *piece, *count, *tail) == Some(*told));
    }
    let fault = fault_without_room(rt.alloc(), b"process p begin ", b"x:=1;", 8_000, b" end");
    assert!(rt; matches!(fault, Some(ParseFault::Syntax(_))));
}

//! Texts cut to tokens.

mod memories;

use pb_lexer::{Kind, LexFault, Mark, lex};
use std::alloc::Global;

fn fault(alloc: Global, text: &[u8]) -> Option<LexFault> {
    lex(alloc, text).err()
}

/// Returns whether a text has these tokens, each with the offset at which it begins, the one after its end,
/// and its line.
fn has_tokens(alloc: Global, text: &[u8], wanted: &[(Kind, usize, usize, u32)]) -> bool {
    let Ok(tokens) = lex(alloc, text) else {
        return false;
    };
    if tokens.len() != wanted.len() {
        return false;
    }
    for (token, (kind, start, end, line)) in tokens.iter().zip(wanted.iter()) {
        let is_there = token.start() == *start && token.end() == *end && token.line() == *line;
        if !is_there || token.kind() != *kind {
            return false;
        }
    }
    true
}

const MIXED: &[u8] = b"x:=12abc<=3 // c := \n\n doing <>if\tdo_2 007";

const MIXED_TOKENS: [(Kind, usize, usize, u32); 11] = [
    (Kind::Name, 0, 1, 1),
    (Kind::Mark(Mark::Assign), 1, 3, 1),
    (Kind::Number(12), 3, 5, 1),
    (Kind::Name, 5, 8, 1),
    (Kind::Mark(Mark::AtMost), 8, 10, 1),
    (Kind::Number(3), 10, 11, 1),
    (Kind::Name, 23, 28, 3),
    (Kind::Mark(Mark::NotEqual), 29, 31, 3),
    (Kind::Mark(Mark::If), 31, 33, 3),
    (Kind::Name, 34, 38, 3),
    (Kind::Number(7), 39, 42, 3),
];

const LINES: &[u8] = b"a\r\n// b\nc d\r\n\n\re // f";

const LINES_TOKENS: [(Kind, usize, usize, u32); 4] = [
    (Kind::Name, 0, 1, 1),
    (Kind::Name, 8, 9, 3),
    (Kind::Name, 10, 11, 3),
    (Kind::Name, 15, 16, 5),
];

#[test]
fn cuts_by_longest_match_and_counts_lines(rt: HostRuntime) {
    assert!(rt; has_tokens(rt.alloc(), MIXED, &MIXED_TOKENS));
    assert!(rt; has_tokens(rt.alloc(), LINES, &LINES_TOKENS));
}

const SYMBOLS_AND_WORDS: &[u8] =
    b":= ; , ( ) + - * = <> < <= > >= and begin div do else end fi hold if integer mod not od of or \
parbegin parend print process resource skip then while";

const MARKS: [Mark; 37] = [
    Mark::Assign,
    Mark::Semicolon,
    Mark::Comma,
    Mark::Open,
    Mark::Close,
    Mark::Plus,
    Mark::Minus,
    Mark::Star,
    Mark::Equal,
    Mark::NotEqual,
    Mark::Less,
    Mark::AtMost,
    Mark::Greater,
    Mark::AtLeast,
    Mark::And,
    Mark::Begin,
    Mark::Div,
    Mark::Do,
    Mark::Else,
    Mark::End,
    Mark::Fi,
    Mark::Hold,
    Mark::If,
    Mark::Integer,
    Mark::Mod,
    Mark::Not,
    Mark::Od,
    Mark::Of,
    Mark::Or,
    Mark::Parbegin,
    Mark::Parend,
    Mark::Print,
    Mark::Process,
    Mark::Resource,
    Mark::Skip,
    Mark::Then,
    Mark::While,
];

/// Returns whether each token of a text is the mark with its number.
fn has_marks(alloc: Global, text: &[u8], marks: &[Mark]) -> bool {
    let Ok(tokens) = lex(alloc, text) else {
        return false;
    };
    let is_each = tokens
        .iter()
        .zip(marks.iter())
        .all(|(token, mark)| token.kind() == Kind::Mark(*mark));
    is_each && tokens.len() == marks.len()
}

#[test]
fn knows_each_symbol_and_reserved_word(rt: HostRuntime) {
    assert!(rt; has_marks(rt.alloc(), SYMBOLS_AND_WORDS, &MARKS));
}

/// Texts, and their first faults.
const FAULTS: [(&[u8], Option<LexFault>); 14] = [
    (b"a %", Some(LexFault::BadByte(2))),
    (b"a : = 1", Some(LexFault::BadByte(2))),
    (b"1 / 2", Some(LexFault::BadByte(2))),
    (b"a_b _", Some(LexFault::BadByte(4))),
    (b"// %$~\n_", Some(LexFault::BadByte(7))),
    (b"// a \x01 b", Some(LexFault::BadByte(5))),
    (b"\xff// a", Some(LexFault::BadByte(0))),
    (b"% 9223372036854775808", Some(LexFault::BadByte(0))),
    (b"", None),
    (b"09223372036854775807", None),
    (
        b"a 9223372036854775808 \x01",
        Some(LexFault::NumberTooLarge(2)),
    ),
    (
        b"--99999999999999999999999999999999",
        Some(LexFault::NumberTooLarge(2)),
    ),
    (b"abcdefghijklmnopqrstuvwxyz012345", None),
    (
        b" abcdefghijklmnopqrstuvwxyz0123456 %",
        Some(LexFault::NameTooLong(1)),
    ),
];

#[test]
fn names_the_first_fault(rt: HostRuntime) {
    for (text, wanted) in &FAULTS {
        assert!(rt; fault(rt.alloc(), *text) == *wanted);
    }
}

/// Returns a text of this number of semicolons.
fn semicolons(alloc: Global, count: u32) -> Option<Vec<u8>> {
    let mut text = Vec::new(alloc);
    for _ in 0..count {
        text.push(b';').ok()?;
    }
    Some(text)
}

/// Returns the fault of a text of this number of semicolons, or none if it has as many tokens.
fn fault_of_semicolons(alloc: Global, count: u32) -> Option<Option<LexFault>> {
    let text = semicolons(alloc, count)?;
    match lex(alloc, text.as_slice()) {
        Ok(tokens) => if tokens.len() == count as usize {
            Some(None)
        } else {
            None
        },
        Err(fault) => Some(Some(fault)),
    }
}

#[test]
fn refuses_a_text_over_the_limit(rt: HostRuntime) {
    assert!(rt; fault_of_semicolons(rt.alloc(), 65_536) == Some(None));
    assert!(rt; fault_of_semicolons(rt.alloc(), 65_537) == Some(Some(LexFault::TooLong)));
}

/// Returns whether a fault is said in these words.
fn is_said(alloc: Global, fault: LexFault, words: &str) -> bool {
    fault
        .to_string(alloc)
        .is_ok_and(|said| said.as_str() == words)
}

#[test]
fn says_faults_in_words(rt: HostRuntime) {
    for (fault, words) in &[
        (LexFault::TooLong, "the text is over 65,536 bytes"),
        (LexFault::BadByte(0), "bad byte at 0"),
        (
            LexFault::NumberTooLarge(12),
            "the number at 12 is over 9223372036854775807",
        ),
        (
            LexFault::NameTooLong(65_000),
            "the name at 65000 is over 32 bytes",
        ),
        (LexFault::NoMemory, "out of memory"),
    ] {
        assert!(rt; is_said(rt.alloc(), *fault, *words), "{words}");
    }
}

//! The wording of a byte that is not allowed, or at which nothing begins.

ghost use Rattle.std.specs.Prelude.{◌≤◌, length};

use crate::misspelt::fault_of;
use crate::mistakes::word_mistake;
use pb_base::NoMemory;
use pb_lexer::{LexFault, Mark, Token, lex};
use pb_mistakes::foreign::hint_of;
use pb_mistakes::open::{Open, open_before};
use pb_mistakes::tokens::{
    ends_expression, is_at, is_declaration, is_name, is_number, is_statement_start,
    statement_before, text_at, token_at,
};
use pb_mistakes::{Shown, Told, Wording};
use std::alloc::{AllocError, Global};
use std::str;

/// Returns the wording of the byte at an offset of a text, which is not allowed or at which nothing begins.
pub fn bad_byte(alloc: Global, text: &[u8], at: usize) -> Result<Wording, NoMemory> {
    let at = at.min(text.len());
    let rest = &text[at..];
    let byte = rest.first().copied().unwrap_or(0);
    if byte > 126 {
        return Ok(foreign_character(alloc, text, at));
    }
    let tokens = match lex(alloc, &text[..at]) {
        Ok(tokens) => tokens,
        Err(LexFault::NoMemory) => return Err(NoMemory),
        Err(_) => Vec::new(alloc),
    };
    let open = open_before(alloc, &tokens, tokens.len())?;
    let cause = word_before(alloc, &text[..at], &tokens)?;
    let meaning = meaning_of(&tokens, open.last(), rest);
    let mut wording = Wording::new(alloc, byte_in_words(alloc, byte));
    match cause {
        Some(cause) if is_known_by_what_follows(&tokens, rest, &cause) => {
            wording.hint(alloc, meaning);
        }
        Some(cause) if is_excused(byte) => cause.put_cause(alloc, &mut wording),
        Some(cause) => {
            wording.hint(alloc, meaning);
            cause.put_cause(alloc, &mut wording);
        }
        None => wording.hint(alloc, meaning),
    }
    Ok(wording)
}

/// Returns the mistake of a word in a part of a text with these tokens, up to which it is right.
fn word_before<'t>(
    alloc: Global,
    text: &'t [u8],
    tokens: &[Token<'t>],
) -> Result<Option<Told<'t>>, NoMemory> {
    let fault = fault_of(alloc, tokens)?;
    let Some(number) = faulty_token(tokens, fault) else {
        return Ok(None);
    };
    let open = open_before(alloc, tokens, number)?;
    let told = word_mistake(alloc, text, tokens, number, open.as_slice())?;
    Ok(match told {
        Some(told) => Some(told.placed("`@1`: ", tokens.get(named_token(tokens, number, &told)))),
        None => None,
    })
}

/// Returns the number of the token that a mistake names first: this one, or the one before it.
fn named_token(tokens: &[Token], number: usize, told: &Told<'_>) -> usize {
    let [name, _, _, _] = told.words;
    if text_at(tokens, number) == name {
        number
    } else {
        number.saturating_sub(1)
    }
}

/// Returns the number of the token at an offset, if there is one; after the last one, if that is a word with which no
/// statement begins.
fn faulty_token(tokens: &[Token], at: Option<usize>) -> Option<usize> {
    match token_at(tokens, at?) {
        Some(number) => Some(number),
        None if is_name(tokens, tokens.len().saturating_sub(1)) => Some(tokens.len()),
        None => None,
    }
}

/// Returns whether the type of a lock is after a `:`, or a mistake is that of a name just before a `.`, and the word after
/// that says something else.
fn is_known_by_what_follows(tokens: &[Token], rest: &[u8], cause: &Told<'_>) -> bool {
    if rest.starts_with(b":") && is_lock(behind_blanks(rest, 1)) {
        return true;
    }
    let Some(name) = tokens.last() else {
        return false;
    };
    match member_hint(rest) {
        Some(hint) => cause.place == Some(name.start()) && cause.hint != hint,
        None => false,
    }
}

/// Returns whether a byte is explained by a word of another language before it.
fn is_excused(byte: u8) -> bool {
    matches!(
        byte,
        b':' | b'{' | b'}' | b'"' | b'\'' | b'.' | b'[' | b']' | b'&' | b'@' | b'#' | b'?'
    )
}

fn byte_in_words(alloc: Global, byte: u8) -> Result<String, AllocError> {
    if 32 <= byte && byte <= 126 {
        format!(in alloc; "unexpected character `{}`", Shown(&[byte]))
    } else {
        format!(in alloc; "the byte {byte} is not allowed in a text")
    }
}

/// Returns what is usually meant by the first byte of the rest of a text, after these tokens.
fn meaning_of(tokens: &[Token], open: Option<&Open>, rest: &[u8]) -> &'static str {
    match rest.first().copied().unwrap_or(0) {
        b':' => meaning_of_colon(tokens, open, rest),
        b'.' => meaning_of_point(tokens, rest),
        b'{' => meaning_of_brace(tokens, open, rest),
        b'|' | b'&' => meaning_of_bars(open, rest),
        b'/' if rest.starts_with(b"/=") => meaning_of_slash_equal(open),
        b'/' | b'%' | b'#' | b'$' => meaning_of_pair(rest),
        b'[' if is_at(tokens, tokens.len().saturating_sub(2), Mark::Resource) =>
            "there are no arrays of resources: resource tape = 5; has five of one kind",
        b'[' if is_at(tokens, tokens.len().saturating_sub(2), Mark::Process) =>
            "there are no arrays of processes: each is written out, under a name of its own",
        b'_' if is_number(tokens, tokens.len().saturating_sub(1)) =>
            "the digits of a number stand together: 1000, and not 1_000",
        b'}' =>
            "statements are grouped by begin and end; an if ends with fi, a while or a hold with od",
        byte => usual_meaning(byte),
    }
}

/// Returns what is usually meant by these bytes, of which the first ones have a meaning of their own.
fn meaning_of_pair(rest: &[u8]) -> &'static str {
    if rest.starts_with(b"/*") {
        "a comment begins with // and goes to the end of its line; there is no /* */"
    } else if rest.starts_with(b"%%") {
        "a line %% has nothing else in it; after it are further texts, for check, or picks, for replay, draw and debug"
    } else if rest.starts_with(b"#include") || rest.starts_with(b"#import") {
        "nothing is included: a program is one text, of resources and processes"
    } else if rest.starts_with(b"#define") {
        "there are no constants but numbers: a process declares an integer, integer n; and assigns it, n := 5"
    } else {
        usual_meaning(rest.first().copied().unwrap_or(0))
    }
}

/// Returns what is usually meant by `/=`.
fn meaning_of_slash_equal(open: Option<&Open>) -> &'static str {
    match open {
        Some(open) if open.part.is_none() && matches!(open.word, Mark::If | Mark::While) =>
            "not equal is written a <> b",
        _ => "an integer is divided by an assignment: x := x div 2; not equal is written a <> b",
    }
}

/// Returns what is usually meant by `|` or `&`.
fn meaning_of_bars(open: Option<&Open>, rest: &[u8]) -> &'static str {
    let is_in_test = match open {
        Some(open) => open.part.is_none() && matches!(open.word, Mark::If | Mark::While),
        None => true,
    };
    let is_in_arms = match open {
        Some(open) => open.word == Mark::Parbegin,
        None => false,
    };
    if is_in_arms || (rest.starts_with(b"||") && !is_in_test && !is_operand(rest)) {
        "a semicolon separates the arms of a parbegin: parbegin a; b parend"
    } else {
        "the logical operators are written a and b, a or b"
    }
}

/// Returns whether what is after two bytes seems to be an operand, and no statement: up to the end of its line it does not
/// assign, and no reserved word begins it.
fn is_operand(rest: &[u8]) -> bool {
    for i in 2..rest.len() {
        if rest[i] == b':' {
            return false;
        }
        if matches!(rest[i], b'\n' | b';') {
            break;
        }
    }
    !STATEMENTS
        .iter()
        .any(|word| behind_blanks(rest, 2).starts_with(word.as_bytes()))
}

/// The words with which statements begin that are often arms.
const STATEMENTS: [&str; 6] = ["print", "begin", "hold", "while", "if", "skip"];

/// Returns bytes without the first ones and the blanks after them.
fn behind_blanks(bytes: &[u8], count: usize) -> &[u8] {
    for i in count..bytes.len() {
        if !matches!(bytes[i], b' ' | b'\t' | b'\n' | b'\r') {
            return &bytes[i..];
        }
    }
    b""
}

/// Returns what is usually meant by `:` after these tokens.
fn meaning_of_colon(tokens: &[Token], open: Option<&Open>, rest: &[u8]) -> &'static str {
    let last = tokens.len().saturating_sub(1);
    let behind = behind_blanks(rest, 1);
    if is_at(tokens, last.saturating_sub(1), Mark::Resource) {
        "a resource is declared with `=`: resource r = 2;"
    } else if is_declaration(tokens, tokens.len()) {
        "integers are declared without a type: integer x, y;"
    } else if is_lock(behind) {
        LOCK_HINT
    } else if is_type(behind) {
        "the integers of a process are declared after its first begin, without a type: integer x, y;"
    } else if behind.starts_with(b"=") {
        "an assignment is written x := 1, with no blank between `:` and `=`"
    } else if let Some(hint) = meaning_of_line_end(tokens, open) {
        hint
    } else if is_name(tokens, last) && is_statement_start(tokens, last) {
        "there are no labels: an arm goes on to the end of its statements; an assignment is written x := 1"
    } else if ends_value(tokens) {
        "statements are separated by semicolons: print 1; print 2"
    } else {
        "an assignment is written x := 1, with no blank between `:` and `=`"
    }
}

/// Returns whether a print or an assignment may end after some tokens.
fn ends_value(tokens: &[Token]) -> bool {
    let number = tokens.len();
    match statement_before(tokens, number) {
        Some(start) => {
            ends_expression(tokens, number.saturating_sub(1))
                && (is_at(tokens, start, Mark::Print)
                    || is_at(tokens, start.saturating_add(1), Mark::Assign))
        }
        None => false,
    }
}

/// Returns whether bytes begin with the name of a type of other languages.
fn is_type(bytes: &[u8]) -> bool {
    bytes.starts_with(b"int") || bytes.starts_with(b"bool")
}

/// Returns whether bytes begin with the name of a type of locks of other languages.
fn is_lock(bytes: &[u8]) -> bool {
    bytes.starts_with(b"semaphore") || bytes.starts_with(b"mutex") || bytes.starts_with(b"lock")
}

const LOCK_HINT: &str =
    "a thing that only some may have at once is a resource, declared before the first process: resource s = 1;";

/// Returns what is meant by a `:` with which other languages end a line that begins a list of statements.
fn meaning_of_line_end(tokens: &[Token], open: Option<&Open>) -> Option<&'static str> {
    let last = tokens.len().checked_sub(1)?;
    if is_at(tokens, last, Mark::Else) {
        return Some("an else is written else print 2 fi, without a colon");
    }
    if is_at(tokens, last.saturating_sub(1), Mark::Process) {
        return Some("a process is written process p begin print 1 end, without a colon");
    }
    let open = open?;
    if matches!(open.part, Some(Mark::Else))
        || matches!(open.part, Some(Mark::Do)) && is_number(tokens, last)
    {
        return None;
    }
    match (open.word, open.part) {
        (Mark::If, None) => Some("an if is written if x = 1 then print 1 fi, without a colon"),
        (Mark::While, None) => {
            Some("a while is written while x < 9 do x := x + 1 od, without a colon")
        }
        (Mark::Hold, None) => Some(
            "a hold is written hold 1 of tape do print 1 od, without a colon",
        ),
        _ => None,
    }
}

/// Returns what is usually meant by `.` after these tokens.
fn meaning_of_point(tokens: &[Token], rest: &[u8]) -> &'static str {
    let last = tokens.len().saturating_sub(1);
    if is_at(tokens, last, Mark::End) {
        "a process ends with end, and no point comes after it"
    } else if is_number(tokens, last) {
        if ends_value(tokens) && !rest.get(1).is_some_and(|byte| byte.is_ascii_digit()) {
            "statements are separated by semicolons, and no point ends them: print 1; print 2"
        } else {
            "numbers are integers: they have no decimal point"
        }
    } else {
        meaning_of_member(text_at(tokens, last), rest)
    }
}

/// Returns what is usually meant by a name with a point after it.
fn meaning_of_member(name: &[u8], rest: &[u8]) -> &'static str {
    if let Some(hint) = member_hint(rest) {
        return hint;
    }
    if let Some(hint) = hint_of(name) {
        return hint;
    }
    "a name has no point: a process uses only the integers that it declares itself"
}

/// Returns what is written in the place of the last word of other languages in a name with points, of which the first point
/// is at the beginning of these bytes.
fn member_hint(rest: &[u8]) -> Option<&'static str> {
    let mut found = None;
    for word in words_with_points(rest).split(|byte| *byte == b'.') {
        if let Some(hint) = hint_of(word) {
            found = Some(hint);
        }
    }
    found
}

/// Returns the letters, digits and points with which bytes begin.
fn words_with_points(bytes: &[u8]) -> &[u8] {
    for end in 0..bytes.len() {
        if !bytes[end].is_ascii_alphanumeric() && bytes[end] != b'_' && bytes[end] != b'.' {
            return &bytes[..end];
        }
    }
    bytes
}

/// Returns what is usually meant by `{` after these tokens.
fn meaning_of_brace(tokens: &[Token], open: Option<&Open>, rest: &[u8]) -> &'static str {
    if tokens.is_empty() || is_remark(rest) {
        return "a comment begins with // and goes to the end of its line; there is no { }";
    }
    match open {
        Some(open) if open.part.is_none() && open.word == Mark::If =>
            "an if is written if x = 1 then print 1 fi, without braces",
        Some(open) if open.part.is_none() && open.word == Mark::While =>
            "a while is written while x < 9 do x := x + 1 od, without braces",
        Some(open) if open.part.is_none() && open.word == Mark::Hold =>
            "a hold is written hold 1 of tape do print 1 od, without braces",
        None if is_name(tokens, tokens.len().saturating_sub(1)) =>
            "a process is written process p begin print 1 end, without braces",
        _ => "statements are grouped by begin and end",
    }
}

/// Returns whether what is in braces seems to be words of a person: letters and blanks, and more than one word.
fn is_remark(rest: &[u8]) -> bool {
    let words = behind_blanks(rest, 1);
    if STATEMENTS
        .iter()
        .any(|word| words.starts_with(word.as_bytes()))
    {
        return false;
    }
    let mut blanks = 0u32;
    for byte in words {
        if *byte == b'}' {
            return blanks > 1 || rest.ends_with(b"}") && blanks > 0;
        }
        if *byte == b' ' {
            blanks = blanks.saturating_add(1);
        }
        if matches!(*byte, b'=' | b';' | b'(' | b'+' | b'\n') {
            return false;
        }
    }
    false
}

/// Returns what is usually meant by a byte that is not allowed.
fn usual_meaning(byte: u8) -> &'static str {
    match byte {
        b'/' => "a quotient is written a div b; a comment begins with //",
        b'%' => "a remainder is written a mod b",
        b'!' => "not equal is written a <> b, and negation not a",
        b'#' => "a comment begins with //",
        b'_' => "a name begins with a letter",
        b'"' | b'\'' => "the language has no strings: print writes integers",
        b'[' | b']' => "the language has no arrays: each integer has a name of its own",
        b'^' => "a power is written as a product, 2 * 2 * 2, or multiplied in a while",
        b'?' => "a choice is a statement: if x > 0 then y := 1 else y := 2 fi",
        b'~' => "negation is written not a, and not equal a <> b",
        b'$' => "a name is made of letters, digits and _, with no sign before it",
        b'\\' => "a line has no sign at its end: a statement goes on in the next line",
        _ =>
            "a text consists of names, numbers, reserved words and := ; , ( ) + - * = <> < <= > >=",
    }
}

/// Returns the wording of a byte that is not one of ASCII: of the character that it begins.
fn foreign_character(alloc: Global, text: &[u8], at: usize) -> Wording
    requires { at ≤ length text.now }
{
    let Some(character) = character_at(&text[at..]) else {
        let mut wording = Wording::new(
            alloc,
            byte_in_words(alloc, text[at..].first().copied().unwrap_or(0)),
        );
        wording.hint(
            alloc,
            "the text is not in ASCII or UTF-8: save it as plain text in ASCII",
        );
        return wording;
    };
    let place = if is_comment(text, at) {
        "is not allowed in a text, nor in its comments"
    } else {
        "is not allowed in a text"
    };
    let number = u32::from(character);
    let summary = match name_of(number) {
        Some(name) => format!(in alloc; "{name} (U+{number:04X}) {place}"),
        None => format!(in alloc; "the character `{character}` (U+{number:04X}) {place}"),
    };
    let mut wording = Wording::new(alloc, summary);
    wording.hint(alloc, ascii_for(number));
    wording
}

/// Returns the character with which bytes begin, if they begin with one in UTF-8.
fn character_at(bytes: &[u8]) -> Option<char> {
    for length in 1..5 {
        if let Ok(text) = str::from_utf8(&bytes[..bytes.len().min(length)]) {
            return text.chars().next();
        }
    }
    None
}

/// Returns whether an offset of a text is in a comment.
fn is_comment(text: &[u8], at: usize) -> bool {
    let mut slashes = 0u32;
    for i in 0..at.min(text.len()) {
        if text[i] == b'\n' {
            slashes = 0;
        } else if slashes < 2 {
            slashes = if text[i] == b'/' { slashes + 1 } else { 0 };
        }
    }
    slashes == 2
}

/// Returns the name of a character that cannot be seen, or is easily taken for another.
fn name_of(number: u32) -> Option<&'static str> {
    match number {
        0x7F..=0x9F => Some("a control character"),
        0xA0 | 0x202F => Some("a no-break space"),
        0xFEFF => Some("a byte order mark"),
        0x2018 | 0x2019 | 0x201A | 0x201C | 0x201D | 0x201E => Some("a curly quote"),
        0x2010..=0x2015 | 0x2212 => Some("a long dash"),
        0x200B..=0x200F | 0x2028..=0x202E | 0x2060..=0x206F => Some("an invisible character"),
        _ => None,
    }
}

/// Returns what is written in the place of a character.
fn ascii_for(number: u32) -> &'static str {
    match number {
        0xA0 | 0x202F => "write a blank in its place",
        0xFEFF => "save the text as ASCII, or as UTF-8 without a byte order mark",
        0x2018..=0x201E =>
            "leave it out: the language has no strings, and a comment may have ' and \"",
        0x2010..=0x2015 | 0x2212 => "write the minus sign of the keyboard in its place: -",
        0xD7 => "a product is written a * b",
        0xF7 => "a quotient is written a div b",
        0x2190 | 0x21D0 | 0x2254 => "an assignment is written x := 1",
        0xAC | 0x2227 | 0x2228 => "the logical operators are written not a, a and b, a or b",
        0x2260 => "not equal is written a <> b",
        0x2264 => "at most is written a <= b",
        0x2265 => "at least is written a >= b",
        _ =>
            "a text has the letters a to z and A to Z, digits, blanks and signs of ASCII, in comments too",
    }
}

//! What is said of refused inputs, by how they are read.

use pb_base::{FaultyInput, Input, Lending};
use pb_call::KeptInput;
use pb_messages::{Reading, live_message, message_of};
use pb_search_tool::expected_message;
use std::alloc::Global;

/// Returns whether this is said of an input.
fn says(alloc: Global, reading: Reading, bytes: &[u8], said: &[u8]) -> Option<bool> {
    Some(message_of(alloc, reading, bytes).ok()?.as_slice() == said)
}

#[test]
fn a_name_that_is_not_declared(rt: HostRuntime) {
    let text = b"process p\nbegin\n  x := 1\nend\n";
    let said = b"error N3: integer x is not declared in process p
  --> line 3, column 3
  |
3 |   x := 1
  |   ^
  = hint: declare it after the first begin of the process: integer x;
";
    for reading in [
        Reading::Text,
        Reading::Claims,
        Reading::Recorded,
        Reading::FirstFormat,
        Reading::Texts,
        Reading::Replayed(Lending::ByBanker),
        Reading::Shown(Lending::ByBanker),
        Reading::Debugged(Lending::ByBanker),
    ] {
        assert!(rt; says(rt.alloc(), reading, text, said) == Some(true));
    }
}

#[test]
fn nothing_of_what_is_accepted(rt: HostRuntime) {
    let text = b"process p begin print 1 end";
    for reading in [
        Reading::Text,
        Reading::Claims,
        Reading::FirstFormat,
        Reading::Texts,
        Reading::Replayed(Lending::ByBanker),
        Reading::Shown(Lending::ByBanker),
        Reading::Debugged(Lending::ByBanker),
    ] {
        assert!(rt; says(rt.alloc(), reading, text, b"") == Some(true));
    }
    let said = b"error output: the text with its run is longer than 4194304 bytes
  = hint: record fewer steps: --steps 100000
";
    assert!(rt; says(rt.alloc(), Reading::Recorded, text, said) == Some(true));
}

#[test]
fn each_refused_part(rt: HostRuntime) {
    let texts = b"process p begin x := 1 end
%%
process p begin skip end
%%
process q begin
y := 1 end
";
    let said = b"error N3: integer x is not declared in process p
  --> text 1, line 1, column 17
  |
1 | process p begin x := 1 end
  |                 ^
  = hint: declare it after the first begin of the process: integer x;

error N3: integer y is not declared in process q
  --> text 3, line 2, column 1
  |
2 | y := 1 end
  | ^
  = hint: declare it after the first begin of the process: integer y;
";
    assert!(rt; says(rt.alloc(), Reading::Texts, texts, said) == Some(true));
}

/// Returns whether the message of a text has this line first, after the code `P1`, and this hint.
fn explains(alloc: Global, text: &[u8], summary: &str, hint: &str) -> Option<bool> {
    let said = message_of(alloc, Reading::Text, text).ok()?;
    let said = String::from_utf8(said).ok()?;
    let first = format!(in alloc; "error P1: {summary}\n").ok()?;
    let last = format!(in alloc; "  = hint: {hint}\n").ok()?;
    Some(said.starts_with(first.as_str()) && said.ends_with(last.as_str()))
}

#[test]
fn words_of_other_languages(rt: HostRuntime) {
    let text = b"process p begin int x; x := 1 end";
    let summary = "`int` is not a word of the language";
    let hint = "the integers of a process are declared after its first begin: integer x, y;";
    assert!(rt; explains(rt.alloc(), text, summary, hint) == Some(true));
    let text = b"process p BEGIN print 1 END";
    let summary = "`BEGIN` is not a reserved word";
    let hint = "reserved words are in small letters: begin";
    assert!(rt; explains(rt.alloc(), text, summary, hint) == Some(true));
}

#[test]
fn declarations_before_the_processes(rt: HostRuntime) {
    let text = b"integer x; process p begin x := 1 end";
    let summary = "integers are not declared here";
    let hint = "processes share no integers: only resources are declared before the first process";
    assert!(rt; explains(rt.alloc(), text, summary, hint) == Some(true));
    let text = b"resource tape = 2 process p begin print 1 end";
    let summary = "a semicolon is missing";
    let hint = "a semicolon comes after the declaration before this: resource tape = 2;";
    assert!(rt; explains(rt.alloc(), text, summary, hint) == Some(true));
    let text = b"resource r = -1; process p begin print 1 end";
    let summary = "the capital of resource r is not a number";
    let hint = "write the number itself, 0 to 1000000, with no sign: resource r = 1;";
    assert!(rt; explains(rt.alloc(), text, summary, hint) == Some(true));
}

#[test]
fn what_is_joined_by_another_sign(rt: HostRuntime) {
    let text = b"process p begin integer x, y; print x, y end";
    let summary = "a print has one value";
    let hint = "write a print for each value: print x; print y";
    assert!(rt; explains(rt.alloc(), text, summary, hint) == Some(true));
    let text =
        b"resource a = 1; resource b = 2; process p begin hold 1 of a and 2 of b do skip od end";
    let summary = "a comma separates the parts of a hold";
    let hint = "write hold 1 of a, 2 of b do .. od";
    assert!(rt; explains(rt.alloc(), text, summary, hint) == Some(true));
}

#[test]
fn statements_that_are_not_closed(rt: HostRuntime) {
    let text = b"process p begin integer x; while x < 3 do x := x + 1 end";
    let summary = "`od` is missing: the `while` of line 1 is not closed";
    let hint = "write od after the last of its statements";
    assert!(rt; explains(rt.alloc(), text, summary, hint) == Some(true));
    let text = b"process p begin print 1 end end";
    let summary = "this `end` is one too many: process p has ended just before it";
    let hint = "leave it out, or look for a begin that is missing above";
    assert!(rt; explains(rt.alloc(), text, summary, hint) == Some(true));
}

#[test]
fn an_object(rt: HostRuntime) {
    let said = b"error O1: an object cannot have this line here
  --> line 1, column 1
  |
1 | PBO 3
  | ^
  = hint: emit writes objects; docs/FORMATS.md, \"Object text\", lists their lines
";
    assert!(rt; says(rt.alloc(), Reading::Object, b"PBO 3\n", said) == Some(true));
    assert!(rt;
        says(
            rt.alloc(),
            Reading::Shown(Lending::ByBanker),
            b"PBO 3\n",
            said
        ) == Some(true)
    );
    assert!(rt;
        says(
            rt.alloc(),
            Reading::Debugged(Lending::ByBanker),
            b"PBO 3\n",
            said
        ) == Some(true)
    );
}

#[test]
fn a_pick_line_and_a_pick(rt: HostRuntime) {
    let lines = b"process p begin print 1 end\n%%\np.1 1\n";
    let said = b"error K1: process p has no arm `1`
  --> pick line 1, column 1
  |
1 | p.1 1
  | ^
  = its only arm is 0, its body
  = line 3 of the input
";
    assert!(rt;
        says(
            rt.alloc(),
            Reading::Replayed(Lending::ByBanker),
            lines,
            said
        ) == Some(true)
    );
    let both =
        b"resource r = 1; process p begin hold 1 of r do skip od end process q begin hold 1 of r do skip od end\n%%\np.0 1\nq.0 1\n";
    let message = message_of(rt.alloc(), Reading::Replayed(Lending::ByCash), both);
    let said = b"error H1: q.0 cannot make a pick after 1 pick";
    assert!(rt; message.is_ok_and(|message| message.as_slice().starts_with(said)));
    let picks = b"process p begin print 1 end\n%%\np.0 2\np.0 2\n";
    let said = b"error H1: p.0 cannot make a pick after 3 picks
  --> pick line 2, column 1
  |
2 | p.0 2
  | ^
  = 1 of the 2 picks of this line was made
";
    let message = message_of(rt.alloc(), Reading::Debugged(Lending::ByBanker), picks);
    assert!(rt; message.is_ok_and(|message| message.as_slice().starts_with(said)));
}

/// Returns whether this is said of a text with print lines.
fn says_of_prints(alloc: Global, bytes: &[u8], said: &[u8]) -> Option<bool> {
    Some(expected_message(alloc, bytes).ok()?.as_slice() == said)
}

#[test]
fn blanks_at_the_ends_of_print_lines(rt: HostRuntime) {
    let blank = b"process p begin print 1 end\n%%\np.0 print 1 \n";
    let said = b"error K1: this line ends with a blank
  --> print line 1, column 1
  |
1 | p.0 print 1 \n  | ^
  = hint: leave out the blank at its end
  = line 3 of the input
";
    assert!(rt; says_of_prints(rt.alloc(), blank, said) == Some(true));
    let feed = b"process p begin print 1 end\n%%\np.0 print 1\r\n";
    let said = b"error K1: this line ends with a carriage return
  --> print line 1, column 1
  |
1 | p.0 print 1 \n  | ^
  = hint: save the prints with the line ends of Unix: a line feed alone
  = line 3 of the input
";
    assert!(rt; says_of_prints(rt.alloc(), feed, said) == Some(true));
}

#[test]
fn lines_that_require_nothing(rt: HostRuntime) {
    let misspelt = b"process p begin print 1 end\n%%\nhas a parbegn\n";
    let said = b"error K1: this is neither a requirement nor a print line
  --> print line 1, column 1
  |
1 | has a parbegn
  | ^
  = hint: did you mean `has a parbegin`?
  = hint: a requirement is `has a parbegin`, `has a hold` or `claims at least K R`: K is from 1 to 1000000, with no zeros before it, and R is the name of a resource
  = hint: a print line is P.a print V, as run writes it, such as p.0 print 2: a process, one of its arms, and what it prints
  = line 3 of the input
";
    assert!(rt; says_of_prints(rt.alloc(), misspelt, said) == Some(true));
    let late = b"process p begin print 1 end\n%%\np.0 print 1\nclaims at least 1 disk\n";
    let said = b"error K1: a requirement stands before the print lines
  --> print line 2, column 1
  |
2 | claims at least 1 disk
  | ^
  = hint: move this line up, before the first print line
  = hint: a print line is P.a print V, as run writes it, such as p.0 print 2: a process, one of its arms, and what it prints
  = line 4 of the input
";
    assert!(rt; says_of_prints(rt.alloc(), late, said) == Some(true));
}

#[test]
fn the_first_format(rt: HostRuntime) {
    let text = b"resource r = 1;
resource s = 1;
process p begin hold 1 of r, 1 of s do skip od end
";
    let message = message_of(rt.alloc(), Reading::FirstFormat, text);
    let said = b"error E1: the first format has no hold of several resources\n";
    assert!(rt; message.is_ok_and(|message| message.as_slice().starts_with(said)));
}

/// Returns whether what is said of an input whose commands are read as they come begins so: of a text of 400
/// bytes, and this many line feeds as pick lines.
fn says_of_live(alloc: Global, feeds: usize, said: &[u8]) -> Option<bool> {
    let mut bytes = Vec::from_slice(alloc, b"process p begin print 1 end\n").ok()?;
    bytes.resize(400, b'\n').ok()?;
    bytes.extend_from_slice(b"%%\n").ok()?;
    let length = bytes.len().checked_add(feeds)?;
    bytes.resize(length, b'\n').ok()?;
    bytes.extend_from_slice(b"%%\n").ok()?;
    Some(
        live_message(alloc, Lending::ByBanker, &bytes)
            .ok()?
            .as_slice()
            .starts_with(said),
    )
}

#[test]
fn each_live_part_has_a_length_of_its_own(rt: HostRuntime) {
    // both parts are over 4,194,304 bytes together, and neither is by itself; then the second is
    assert!(rt; says_of_live(rt.alloc(), 4_194_301, b"error K1: ") == Some(true));
    assert!(rt;
        says_of_live(
            rt.alloc(),
            4_194_302,
            b"error input: the text or the pick lines"
        ) == Some(true)
    );
}

/// Returns whether an input that keeps what is read gives and keeps the first bytes that another one gives, by
/// calls for two bytes each.
fn keeps(alloc: Global, bytes: &[u8], count: usize) -> Option<bool> {
    let mut input = KeptInput::new(alloc, FaultyInput::new(bytes, 1_000, 2));
    let mut given = Vec::new(alloc);
    for _ in 0..count {
        let mut buffer = [0u8; 2];
        let read = input.read(&mut buffer).ok()?;
        given.extend_from_slice(&buffer[..read]).ok()?;
    }
    Some(input.kept()? == given.as_slice() && bytes.starts_with(&given))
}

#[test]
fn what_is_read_is_kept(rt: HostRuntime) {
    assert!(rt; keeps(rt.alloc(), b"abcdefg", 0) == Some(true));
    assert!(rt; keeps(rt.alloc(), b"abcdefg", 3) == Some(true));
    assert!(rt; keeps(rt.alloc(), b"abcdefg", 5) == Some(true));
}

//! Whose forms the lines of a call have.

ghost use Rattle.std.specs.Prelude.{◌≡◌, ◌||◌, map, nat_eq};
ghost use Rattle.std.specs.List.{starts_with};
ghost use Rattle.std.specs.Str.{bytes_eq};
ghost use Rattle.pb_json_lines.specs.Dialects as spec;

use crate::form::Dialect;
use pb_command_io::Status;

/// Returns whether a word is an option, or begins with it and the sign before its value.
fn is_option(word: &str, option: &str, begun: &str) -> bool
    ensures { result ≡ (bytes_eq word.now option.now || starts_with nat_eq word.now begun.now) }
{
    word == option || word.as_bytes().starts_with(begun.as_bytes())
}

/// Returns whether some word is an option, or begins with it and the sign before its value.
fn is_given(words: &[&str], option: &str, begun: &str) -> bool
    ensures { result ≡ spec.is_given option.now begun.now (map (λ w. w.now) words.now) }
{
    words.iter().any(|word| is_option(word, option, begun))
}

/// Returns whether `outcomes` is asked for the text with the picks to one of them.
fn asks_picks(words: &[&str]) -> bool
    ensures { result ≡ spec.asks_picks (map (λ w. w.now) words.now) }
{
    !is_given(words, "--expect", "--expect=")
        && !is_given(words, "--endless", "--endless=")
        && (is_given(words, "--run", "--run=") || is_given(words, "--deadlock", "--deadlock="))
}

/// Returns whether a text with picks has been written.
fn is_recorded(status: Status) -> bool
    ensures { result ≡ spec.is_recorded status }
{
    match status {
        Status::Done | Status::Deadlock => true,
        Status::Refused
        | Status::Words
        | Status::Limit
        | Status::Fault
        | Status::Memory
        | Status::Device
        | Status::Threads
        | Status::Unexpected => false,
    }
}

/// Returns whether a command writes a text with the picks of a run.
fn writes_picks(command: &str, words: &[&str]) -> bool
    ensures { result ≡ spec.writes_picks command.now (map (λ w. w.now) words.now) }
{
    command == "record" || (command == "outcomes" && asks_picks(words))
}

/// Returns whose forms the lines of a command have.
fn dialect_for(command: &str, words: &[&str], status: Status) -> Dialect
    ensures { result ≡ spec.dialect_for command.now (map (λ w. w.now) words.now) status }
{
    if command == "debug" {
        Dialect::Debug
    } else if command == "bank" {
        Dialect::Bank
    } else if command == "explain" {
        Dialect::Explain
    } else if writes_picks(command, words) && is_recorded(status) {
        Dialect::Record
    } else {
        Dialect::Program
    }
}

/// Returns whose forms the lines of a call have, by its words, of which the first is the program's own name, and the
/// status with which it ended.
pub fn dialect_of(words: &[&str], status: Status) -> Dialect
    ensures { result ≡ spec.dialect_of (map (λ w. w.now) words.now) status }
{
    match words {
        [_, command, rest @ ..] => dialect_for(command, rest, status),
        _ => Dialect::Program,
    }
}

/// Returns whether the lines of a command are told as they come, each by itself: no object of theirs has a list of
/// the lines after it.
pub fn comes_live(dialect: Dialect) -> bool
    ensures { result ≡ spec.comes_live dialect }
{
    match dialect {
        Dialect::Debug | Dialect::Bank => true,
        Dialect::Program | Dialect::Record | Dialect::Explain => false,
    }
}

//! What a line of a session says.

ghost use Rattle.std.specs.Prelude.{◌≡◌, None, codes, cond, option_map};
ghost use Rattle.std.specs.Str.{bytes_eq};
ghost use Rattle.pb_debug_commands.specs.Commands as spec;
ghost use Rattle.pb_debug_commands.specs.View.{command_view};

use crate::words::{
    ArmWord, IntegerWord, StopWord, arm_word, find, integer_word, mark, name_word, number,
};

/// A command of a session.
// To add one: docs/CHANGING.md, "A command of a debugging session".
#[derive(Clone, Copy)]
pub enum Command<'t> {
    /// `to I`
    To(u32),
    /// `step N`, or `step`, which is one step
    Step(u32),
    /// `back N`, or `back`
    Back(u32),
    /// `mark N`
    Mark(u32),
    /// `vars P`
    Vars(&'t [u8]),
    /// `threads P`
    Threads(&'t [u8]),
    /// `fault P`
    Fault(&'t [u8]),
    /// `wrote P X`
    Wrote(IntegerWord<'t>),
    /// `until P.a N`
    Until(StopWord<'t>),
    /// `loans`
    Loans,
    /// `circle`
    Circle,
    /// `arms`
    Arms,
    /// `next`
    Next,
    /// `prev`
    Prev,
    /// `help`
    Help,
    /// `who R`
    Who(&'t [u8]),
    /// `line P.a`
    Line(ArmWord<'t>),
    /// `text P.a`
    Text(ArmWord<'t>),
    /// `why P.a`
    Why(ArmWord<'t>),
    /// `stack P.a`
    Stack(ArmWord<'t>),
    /// `pick P.a`
    Pick(ArmWord<'t>),
    /// `does P.a`
    Does(ArmWord<'t>),
}

/// The most bytes of a command.
pub const MAX_COMMAND: usize = 256;

fn is(word: &[u8], text: &str) -> bool
    ensures { result ≡ bytes_eq word.now text.now }
{
    word == text.as_bytes()
}

/// Returns the command `until` of a word `P.a N`.
fn stop(word: &[u8]) -> Option<Command>
    ensures { option_map command_view result ≡ spec.stop_of word.now }
{
    let space = find(word, b' ')?;
    let ArmWord { process, arm } = arm_word(&word[..space])?;
    let line = number(&word[space + 1..])?;
    Some(Command::Until(StopWord { process, arm, line }))
}

/// Returns the command of a keyword about an arm or a resource, and what it is about.
fn keyed_arm<'t>(key: &[u8], word: &'t [u8]) -> Option<Command<'t>>
    ensures { option_map command_view result ≡
        cond (bytes_eq key.now (codes "line")) (option_map (λ p. spec.Line p.0 p.1) (spec.arm_of word.entry.now)) (
        cond (bytes_eq key.now (codes "text")) (option_map (λ p. spec.Text p.0 p.1) (spec.arm_of word.entry.now)) (
        cond (bytes_eq key.now (codes "why")) (option_map (λ p. spec.Why p.0 p.1) (spec.arm_of word.entry.now)) (
        cond (bytes_eq key.now (codes "who")) (option_map spec.Who (spec.word_of word.entry.now)) (
        cond (bytes_eq key.now (codes "stack")) (option_map (λ p. spec.Stack p.0 p.1) (spec.arm_of word.entry.now)) (
        cond (bytes_eq key.now (codes "pick")) (option_map (λ p. spec.Pick p.0 p.1) (spec.arm_of word.entry.now)) (
        cond (bytes_eq key.now (codes "does")) (option_map (λ p. spec.Does p.0 p.1) (spec.arm_of word.entry.now)) None)))))) }
{
    if is(key, "line") {
        Some(Command::Line(arm_word(word)?))
    } else if is(key, "text") {
        Some(Command::Text(arm_word(word)?))
    } else if is(key, "why") {
        Some(Command::Why(arm_word(word)?))
    } else if is(key, "who") {
        Some(Command::Who(name_word(word)?))
    } else if is(key, "stack") {
        Some(Command::Stack(arm_word(word)?))
    } else if is(key, "pick") {
        Some(Command::Pick(arm_word(word)?))
    } else if is(key, "does") {
        Some(Command::Does(arm_word(word)?))
    } else {
        None
    }
}

/// Returns the command of a keyword about what has a name, and what it is about.
fn keyed_name<'t>(key: &[u8], word: &'t [u8]) -> Option<Command<'t>>
    ensures { option_map command_view result ≡
        cond (bytes_eq key.now (codes "vars")) (option_map spec.Vars (spec.word_of word.entry.now)) (
        cond (bytes_eq key.now (codes "threads")) (option_map spec.Threads (spec.word_of word.entry.now)) (
        cond (bytes_eq key.now (codes "fault")) (option_map spec.Fault (spec.word_of word.entry.now)) (
        cond (bytes_eq key.now (codes "until")) (spec.stop_of word.entry.now) (
        cond (bytes_eq key.now (codes "wrote")) (option_map (λ p. spec.Wrote p.0 p.1) (spec.integer_of word.entry.now)) (
        cond (bytes_eq key.now (codes "line")) (option_map (λ p. spec.Line p.0 p.1) (spec.arm_of word.entry.now)) (
        cond (bytes_eq key.now (codes "text")) (option_map (λ p. spec.Text p.0 p.1) (spec.arm_of word.entry.now)) (
        cond (bytes_eq key.now (codes "why")) (option_map (λ p. spec.Why p.0 p.1) (spec.arm_of word.entry.now)) (
        cond (bytes_eq key.now (codes "who")) (option_map spec.Who (spec.word_of word.entry.now)) (
        cond (bytes_eq key.now (codes "stack")) (option_map (λ p. spec.Stack p.0 p.1) (spec.arm_of word.entry.now)) (
        cond (bytes_eq key.now (codes "pick")) (option_map (λ p. spec.Pick p.0 p.1) (spec.arm_of word.entry.now)) (
        cond (bytes_eq key.now (codes "does")) (option_map (λ p. spec.Does p.0 p.1) (spec.arm_of word.entry.now)) None))))))))))) }
{
    if is(key, "vars") {
        Some(Command::Vars(name_word(word)?))
    } else if is(key, "threads") {
        Some(Command::Threads(name_word(word)?))
    } else if is(key, "fault") {
        Some(Command::Fault(name_word(word)?))
    } else if is(key, "until") {
        stop(word)
    } else if is(key, "wrote") {
        Some(Command::Wrote(integer_word(word)?))
    } else {
        keyed_arm(key, word)
    }
}

/// Returns the command of a keyword and what it is about.
#[tactic(auto, unfolding(crate::specs::Commands::keyed))]
fn keyed<'t>(key: &[u8], word: &'t [u8]) -> Option<Command<'t>>
    ensures { option_map command_view result ≡ spec.keyed key.now word.entry.now }
{
    if is(key, "to") {
        Some(Command::To(number(word)?))
    } else if is(key, "step") {
        Some(Command::Step(number(word)?))
    } else if is(key, "back") {
        Some(Command::Back(number(word)?))
    } else if is(key, "mark") {
        Some(Command::Mark(mark(word)?))
    } else {
        keyed_name(key, word)
    }
}

/// Returns the line without the white space at its end.
fn trimmed(line: &[u8]) -> &[u8]
    ensures { result.now ≡ spec.trimmed line.now }
{
    line.trim_ascii_end()
}

/// Returns the command of a line that does not end in white space.
#[tactic(auto, unfolding(crate::specs::Commands::said_by))]
fn said_by(line: &[u8]) -> Option<Command>
    ensures { option_map command_view result ≡ spec.said_by line.now }
{
    if is(line, "loans") {
        return Some(Command::Loans);
    }
    if is(line, "next") {
        return Some(Command::Next);
    }
    if is(line, "prev") {
        return Some(Command::Prev);
    }
    if is(line, "help") {
        return Some(Command::Help);
    }
    if is(line, "circle") {
        return Some(Command::Circle);
    }
    if is(line, "arms") {
        return Some(Command::Arms);
    }
    if is(line, "step") {
        return Some(Command::Step(1));
    }
    if is(line, "back") {
        return Some(Command::Back(1));
    }
    let space = find(line, b' ')?;
    keyed(&line[..space], &line[space + 1..])
}

/// Returns the command of a line, which is given without its line feed. White space at its end is no part of
/// the command. `None` if it is none, or the line is longer than `MAX_COMMAND` bytes.
#[tactic(auto, unfolding(crate::specs::Commands::command_of))]
pub fn read_command(line: &[u8]) -> Option<Command>
    ensures { option_map command_view result ≡ spec.command_of line.now }
{
    if MAX_COMMAND < line.len() {
        return None;
    }
    said_by(trimmed(line))
}

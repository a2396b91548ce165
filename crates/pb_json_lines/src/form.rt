//! The forms of lines.

ghost use Rattle.std.specs.Prelude.{◌≡◌, map};
ghost use Rattle.pb_json_lines.specs.Forms as spec;
ghost use Rattle.pb_json_lines.specs.PlainForms.{plain_form};

use crate::members::fits;
use crate::program_forms::{parts, program_forms};
use crate::session_forms::{bank_forms, debug_forms};
use crate::text_forms::{explain_forms, record_forms};

/// Whose lines are told: a command has forms of its own, or those of a program.
#[derive(Clone, Copy, Debug, PartialEq, Eq)]
pub enum Dialect {
    /// Those of `run`, `plan`, `outcomes` and most other commands.
    Program,
    /// A text with the picks of a run.
    Record,
    /// The answers of a debugging session.
    Debug,
    /// The answers of a bank.
    Bank,
    /// The pages of refusals.
    Explain,
}

/// What a line is of an outcome or a deadlock.
#[derive(Clone, Copy, Debug, PartialEq, Eq)]
pub enum Section {
    /// It is never part of one.
    Alone,
    /// Its first line.
    Opens,
    /// A line that says what those after it are.
    Heading,
    /// How a process ended, or that it waits.
    Processes,
    /// The value of an integer.
    Integers,
    /// What a process holds.
    Holds,
    /// What an arm asks for.
    Asks,
    /// What was printed.
    Prints,
    /// Picks that lead to it.
    Picks,
}

/// A form of a line.
#[derive(Clone, Copy, Debug)]
pub struct Form {
    pub section: Section,
    /// The first members of its object.
    pub first: &'static str,
    /// What stands in it, byte for byte; specs/Patterns.antt says what capital letters and digits are.
    pub pattern: &'static str,
}

/// The form of any other line.
static OTHER: Form = Form {
    section: Section::Alone,
    first: "\"kind\":\"line\"",
    pattern: "W",
};

/// The form of a line of a text.
static SOURCE: Form = Form {
    section: Section::Alone,
    first: "\"kind\":\"source\"",
    pattern: "W",
};

/// Returns the form of any other line.
fn other() -> &'static Form
    ensures { plain_form result.now ≡ spec.other }
{
    &OTHER
}

/// Returns the form of a line of a text.
fn source() -> &'static Form
    ensures { plain_form result.now ≡ spec.source }
{
    &SOURCE
}

/// Returns the forms of the lines of a command, in the order in which they are tried.
fn forms_of(dialect: Dialect) -> &'static [Form]
    ensures { map plain_form result.now ≡ spec.forms_of dialect }
{
    match dialect {
        Dialect::Program => program_forms(),
        Dialect::Record => record_forms(),
        Dialect::Debug => debug_forms(),
        Dialect::Bank => bank_forms(),
        Dialect::Explain => explain_forms(),
    }
}

/// Returns the form of any other line of a command.
fn other_of(dialect: Dialect) -> &'static Form
    ensures { plain_form result.now ≡ spec.other_of dialect }
{
    match dialect {
        Dialect::Record => source(),
        Dialect::Program | Dialect::Debug | Dialect::Bank | Dialect::Explain => other(),
    }
}

/// Returns the first of these forms that a line fits, or another one.
fn first_of(forms: &'static [Form], otherwise: &'static Form, line: &[u8]) -> &'static Form
    ensures { plain_form result.now ≡ spec.first_of (map plain_form forms.now) (plain_form otherwise.now) line.now }
{
    for i in 0..forms.len() {
        if fits(forms[i].pattern.as_bytes(), line) {
            return &forms[i];
        }
    }
    otherwise
}

/// Returns the form of a line that belongs to no outcome or deadlock.
fn alone_form(dialect: Dialect, line: &[u8]) -> &'static Form
    ensures { plain_form result.now ≡ spec.alone_form dialect line.now }
{
    first_of(forms_of(dialect), other_of(dialect), line)
}

/// Returns the form of a line: `is_open` tells whether it may belong to an outcome or a deadlock before it.
pub(crate) fn form_of(dialect: Dialect, is_open: bool, line: &[u8]) -> &'static Form
    ensures { plain_form result.now ≡ spec.form_of dialect is_open line.now }
{
    let alone = alone_form(dialect, line);
    if is_open {
        first_of(parts(), alone, line)
    } else {
        alone
    }
}

//! The forms of the lines of `record` and `explain`.

ghost use Rattle.std.specs.Prelude.{◌≡◌, map};
ghost use Rattle.pb_json_lines.specs.PlainForms.{plain_form};
ghost use Rattle.pb_json_lines.specs.TextForms.{explain_forms, record_forms};

use crate::form::{Form, Section};

/// The forms of the lines after the text of a recorded run.
static RECORD: [Form; 2] = [
    Form {
        section: Section::Alone,
        first: "\"kind\":\"picks follow\"",
        pattern: "%%",
    },
    Form {
        section: Section::Alone,
        first: "\"kind\":\"picks\"",
        pattern: "P.A Q",
    },
];

/// The form of a code with a few words.
static EXPLAIN: [Form; 1] = [Form {
    section: Section::Alone,
    first: "\"kind\":\"code\"",
    pattern: "8: W",
}];

/// Returns the forms of the lines after the text of a recorded run.
pub(crate) fn record_forms() -> &'static [Form]
    ensures { map plain_form result.now ≡ record_forms }
{
    &RECORD
}

/// Returns the form of a code with a few words.
pub(crate) fn explain_forms() -> &'static [Form]
    ensures { map plain_form result.now ≡ explain_forms }
{
    &EXPLAIN
}

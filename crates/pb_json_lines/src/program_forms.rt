//! The forms of the lines of `run`, `plan`, `outcomes` and most other commands.

ghost use Rattle.std.specs.Prelude.{◌≡◌, map};
ghost use Rattle.pb_json_lines.specs.PlainForms.{plain_form};
ghost use Rattle.pb_json_lines.specs.ProgramForms.{parts, program_forms};

use crate::form::{Form, Section};

/// The forms of the lines that belong to an outcome or a deadlock.
static PARTS: [Form; 10] = [
    Form {
        section: Section::Processes,
        first: "\"kind\":\"ended\"",
        pattern: "P ended",
    },
    Form {
        section: Section::Processes,
        first: "\"kind\":\"faulted\"",
        pattern: "P faulted",
    },
    Form {
        section: Section::Processes,
        first: "\"kind\":\"waits\"",
        pattern: "P waits",
    },
    Form {
        section: Section::Integers,
        first: "\"kind\":\"integer\"",
        pattern: "P.X V",
    },
    Form {
        section: Section::Heading,
        first: "\"kind\":\"printed\"",
        pattern: "printed",
    },
    Form {
        section: Section::Prints,
        first: "\"kind\":\"print\"",
        pattern: "P.A print V",
    },
    Form {
        section: Section::Holds,
        first: "\"kind\":\"holds\"",
        pattern: "P holds M R",
    },
    Form {
        section: Section::Asks,
        first: "\"kind\":\"asks\"",
        pattern: "P.A asksB",
    },
    Form {
        section: Section::Heading,
        first: "\"kind\":\"reached by\"",
        pattern: "reached by",
    },
    Form {
        section: Section::Picks,
        first: "\"kind\":\"picks\"",
        pattern: "P.A Q",
    },
];

/// All others, in the order in which they are tried.
static FORMS: [Form; 54] = [
    Form {
        section: Section::Alone,
        first: "\"kind\":\"grant\"",
        pattern: "P.A grantB",
    },
    Form {
        section: Section::Alone,
        first: "\"kind\":\"return\"",
        pattern: "P.A returnB",
    },
    Form {
        section: Section::Alone,
        first: "\"kind\":\"print\"",
        pattern: "P.A print V",
    },
    Form {
        section: Section::Alone,
        first: "\"kind\":\"fault\"",
        pattern: "P.A fault F",
    },
    Form {
        section: Section::Alone,
        first: "\"kind\":\"end\"",
        pattern: "P end",
    },
    Form {
        section: Section::Alone,
        first: "\"kind\":\"done\"",
        pattern: "done",
    },
    Form {
        section: Section::Alone,
        first: "\"kind\":\"open\"",
        pattern: "open",
    },
    Form {
        section: Section::Alone,
        first: "\"kind\":\"deadlocked\"",
        pattern: "deadlock",
    },
    Form {
        section: Section::Alone,
        first: "\"kind\":\"limit\"",
        pattern: "limit S",
    },
    Form {
        section: Section::Alone,
        first: "\"kind\":\"memory\"",
        pattern: "memory",
    },
    Form {
        section: Section::Alone,
        first: "\"kind\":\"threads\"",
        pattern: "threads",
    },
    Form {
        section: Section::Alone,
        first: "\"kind\":\"ok\"",
        pattern: "ok",
    },
    Form {
        section: Section::Alone,
        first: "\"kind\":\"claim\"",
        pattern: "P claim K R",
    },
    Form {
        section: Section::Alone,
        first: "\"kind\":\"claim\"",
        pattern: "P claim K R linesH",
    },
    Form {
        section: Section::Alone,
        first: "\"kind\":\"claim\"",
        pattern: "P of text 9 claim K R",
    },
    Form {
        section: Section::Alone,
        first: "\"kind\":\"claim\"",
        pattern: "P of text 9 claim K R linesH",
    },
    Form {
        section: Section::Alone,
        first: "\"kind\":\"resource\"",
        pattern: "R capital G least L free E",
    },
    Form {
        section: Section::Alone,
        first: "\"kind\":\"bottleneck\"",
        pattern: "bottleneck R",
    },
    Form {
        section: Section::Alone,
        first: "\"kind\":\"no request waits\"",
        pattern: "no request waits",
    },
    Form {
        section: Section::Alone,
        first: "\"kind\":\"nest\"",
        pattern: "P holds T line J around U line Y",
    },
    Form {
        section: Section::Alone,
        first: "\"kind\":\"nest\"",
        pattern: "P of text 9 holds T line J around U line Y",
    },
    Form {
        section: Section::Alone,
        first: "\"kind\":\"order\",\"text\":\"\"",
        pattern: "order",
    },
    Form {
        section: Section::Alone,
        first: "\"kind\":\"order\"",
        pattern: "order W",
    },
    Form {
        section: Section::Alone,
        first: "\"kind\":\"no order\"",
        pattern: "no order",
    },
    Form {
        section: Section::Alone,
        first: "\"kind\":\"refused\"",
        pattern: "refused C",
    },
    Form {
        section: Section::Alone,
        first: "\"kind\":\"refused\"",
        pattern: "refused C at I",
    },
    Form {
        section: Section::Alone,
        first: "\"kind\":\"refused\"",
        pattern: "refused C P R claim K capital G",
    },
    Form {
        section: Section::Alone,
        first: "\"kind\":\"refused\"",
        pattern: "refused C W",
    },
    Form {
        section: Section::Alone,
        first: "\"kind\":\"refused\"",
        pattern: "text 9 refused C",
    },
    Form {
        section: Section::Alone,
        first: "\"kind\":\"refused\"",
        pattern: "text 9 refused C at I",
    },
    Form {
        section: Section::Alone,
        first: "\"kind\":\"refused\"",
        pattern: "text 9 refused C W",
    },
    Form {
        section: Section::Opens,
        first: "\"kind\":\"outcome\"",
        pattern: "outcome N",
    },
    Form {
        section: Section::Opens,
        first: "\"kind\":\"deadlock\"",
        pattern: "deadlock N",
    },
    Form {
        section: Section::Opens,
        first: "\"kind\":\"endless\"",
        pattern: "endless",
    },
    Form {
        section: Section::Opens,
        first: "\"kind\":\"round\"",
        pattern: "round",
    },
    Form {
        section: Section::Alone,
        first: "\"kind\":\"picks\"",
        pattern: "P.A Q",
    },
    Form {
        section: Section::Alone,
        first: "\"kind\":\"outcomes\",\"deadlocks\":0,\"endless\":false",
        pattern: "O outcomeZ",
    },
    Form {
        section: Section::Alone,
        first: "\"kind\":\"outcomes\",\"deadlocks\":0,\"endless\":true",
        pattern: "O outcomeZ, some runs do not end",
    },
    Form {
        section: Section::Alone,
        first: "\"kind\":\"outcomes\",\"endless\":false",
        pattern: "O outcomeZ, D deadlockZ",
    },
    Form {
        section: Section::Alone,
        first: "\"kind\":\"outcomes\",\"endless\":true",
        pattern: "O outcomeZ, D deadlockZ, some runs do not end",
    },
    Form {
        section: Section::Alone,
        first: "\"kind\":\"others\",\"of\":\"configurations\"",
        pattern: "more than S configurations, there may be others",
    },
    Form {
        section: Section::Alone,
        first: "\"kind\":\"others\",\"of\":\"picks\"",
        pattern: "more than S picks, there may be others",
    },
    Form {
        section: Section::Alone,
        first: "\"kind\":\"others\",\"of\":\"deadlocks\"",
        pattern: "first deadlock, there may be others",
    },
    Form {
        section: Section::Alone,
        first: "\"kind\":\"others\",\"of\":\"configurations\"",
        pattern: "more than S configurations",
    },
    Form {
        section: Section::Alone,
        first: "\"kind\":\"others\",\"of\":\"picks\"",
        pattern: "more than S picks",
    },
    Form {
        section: Section::Alone,
        first: "\"kind\":\"every fair run ends\"",
        pattern: "every fair run ends",
    },
    Form {
        section: Section::Alone,
        first: "\"kind\":\"some fair runs do not end\"",
        pattern: "some fair runs do not end",
    },
    Form {
        section: Section::Alone,
        first: "\"kind\":\"every run ends\"",
        pattern: "every run ends",
    },
    Form {
        section: Section::Alone,
        first: "\"kind\":\"some runs do not end\"",
        pattern: "some runs do not end",
    },
    Form {
        section: Section::Alone,
        first: "\"kind\":\"others\",\"of\":\"fair runs\"",
        pattern: "more than S configurations for fair runs",
    },
    Form {
        section: Section::Alone,
        first: "\"kind\":\"no outcome\"",
        pattern: "no outcome N",
    },
    Form {
        section: Section::Alone,
        first: "\"kind\":\"no deadlock\"",
        pattern: "no deadlock N",
    },
    Form {
        section: Section::Alone,
        first: "\"kind\":\"as expected\"",
        pattern: "as expected",
    },
    Form {
        section: Section::Alone,
        first: "\"kind\":\"not as expected\"",
        pattern: "not as expected: W",
    },
];

/// Returns the forms of the lines that belong to an outcome or a deadlock.
pub(crate) fn parts() -> &'static [Form]
    ensures { map plain_form result.now ≡ parts }
{
    &PARTS
}

/// Returns all others.
pub(crate) fn program_forms() -> &'static [Form]
    ensures { map plain_form result.now ≡ program_forms }
{
    &FORMS
}

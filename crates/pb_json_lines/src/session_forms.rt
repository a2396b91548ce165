//! The forms of the lines of `debug` and `bank`.

ghost use Rattle.std.specs.Prelude.{◌≡◌, map};
ghost use Rattle.pb_json_lines.specs.PlainForms.{plain_form};
ghost use Rattle.pb_json_lines.specs.SessionForms.{bank_forms, debug_forms};

use crate::form::{Form, Section};

/// The forms of the answers of a debugging session, and of refusals, in the order in which they are tried.
static DEBUG: [Form; 42] = [
    Form {
        section: Section::Alone,
        first: "\"kind\":\"at\"",
        pattern: "at I",
    },
    Form {
        section: Section::Alone,
        first: "\"kind\":\"at\",\"event\":\"grant\"",
        pattern: "at I P.A grantB",
    },
    Form {
        section: Section::Alone,
        first: "\"kind\":\"at\",\"event\":\"return\"",
        pattern: "at I P.A returnB",
    },
    Form {
        section: Section::Alone,
        first: "\"kind\":\"at\",\"event\":\"print\"",
        pattern: "at I P.A print V",
    },
    Form {
        section: Section::Alone,
        first: "\"kind\":\"at\",\"event\":\"fault\"",
        pattern: "at I P.A fault F",
    },
    Form {
        section: Section::Alone,
        first: "\"kind\":\"at\",\"event\":\"end\"",
        pattern: "at I P end",
    },
    Form {
        section: Section::Alone,
        first: "\"kind\":\"wrote\"",
        pattern: "at I P.A line 1",
    },
    Form {
        section: Section::Alone,
        first: "\"kind\":\"wrote\"",
        pattern: "at I P.A line none",
    },
    Form {
        section: Section::Alone,
        first: "\"kind\":\"mark\"",
        pattern: "mark N",
    },
    Form {
        section: Section::Alone,
        first: "\"kind\":\"no event\"",
        pattern: "no event",
    },
    Form {
        section: Section::Alone,
        first: "\"kind\":\"never\"",
        pattern: "never",
    },
    Form {
        section: Section::Alone,
        first: "\"kind\":\"not reached\"",
        pattern: "not reached",
    },
    Form {
        section: Section::Alone,
        first: "\"kind\":\"arm\",\"state\":\"idle\"",
        pattern: "A idle",
    },
    Form {
        section: Section::Alone,
        first: "\"kind\":\"arm\",\"state\":\"at\"",
        pattern: "A at 0",
    },
    Form {
        section: Section::Alone,
        first: "\"kind\":\"arm\",\"state\":\"ended\"",
        pattern: "A ended",
    },
    Form {
        section: Section::Alone,
        first: "\"kind\":\"faulted\"",
        pattern: "faulted",
    },
    Form {
        section: Section::Alone,
        first: "\"kind\":\"faulted at\"",
        pattern: "P.A line 1 W",
    },
    Form {
        section: Section::Alone,
        first: "\"kind\":\"faulted at\"",
        pattern: "P.A line none W",
    },
    Form {
        section: Section::Alone,
        first: "\"kind\":\"no fault\"",
        pattern: "no fault",
    },
    Form {
        section: Section::Alone,
        first: "\"kind\":\"does\"",
        pattern: "P.A line 1: W",
    },
    Form {
        section: Section::Alone,
        first: "\"kind\":\"does\"",
        pattern: "P.A: W",
    },
    Form {
        section: Section::Alone,
        first: "\"kind\":\"loan\"",
        pattern: "P holds M R claim K",
    },
    Form {
        section: Section::Alone,
        first: "\"kind\":\"cash\"",
        pattern: "cash M R",
    },
    Form {
        section: Section::Alone,
        first: "\"kind\":\"asks\"",
        pattern: "P.A asksB",
    },
    Form {
        section: Section::Alone,
        first: "\"kind\":\"waits for\"",
        pattern: "P.A waits R holder 2",
    },
    Form {
        section: Section::Alone,
        first: "\"kind\":\"no circle\"",
        pattern: "no circle",
    },
    Form {
        section: Section::Alone,
        first: "\"kind\":\"source line\"",
        pattern: "line 1",
    },
    Form {
        section: Section::Alone,
        first: "\"kind\":\"source line\"",
        pattern: "line none",
    },
    Form {
        section: Section::Alone,
        first: "\"kind\":\"source\"",
        pattern: "1| W",
    },
    Form {
        section: Section::Alone,
        first: "\"kind\":\"no text\"",
        pattern: "no text",
    },
    Form {
        section: Section::Alone,
        first: "\"kind\":\"not asking\"",
        pattern: "not asking",
    },
    Form {
        section: Section::Alone,
        first: "\"kind\":\"granted\"",
        pattern: "granted",
    },
    Form {
        section: Section::Alone,
        first: "\"kind\":\"order\"",
        pattern: "order W",
    },
    Form {
        section: Section::Alone,
        first: "\"kind\":\"rest\"",
        pattern: "rest W",
    },
    Form {
        section: Section::Alone,
        first: "\"kind\":\"stack\",\"text\":\"\"",
        pattern: "stack",
    },
    Form {
        section: Section::Alone,
        first: "\"kind\":\"stack\"",
        pattern: "stack W",
    },
    Form {
        section: Section::Alone,
        first: "\"kind\":\"memory\"",
        pattern: "memory",
    },
    Form {
        section: Section::Alone,
        first: "\"kind\":\"refused\"",
        pattern: "refused C",
    },
    Form {
        section: Section::Alone,
        first: "\"kind\":\"refused\"",
        pattern: "refused C at I",
    },
    Form {
        section: Section::Alone,
        first: "\"kind\":\"refused\"",
        pattern: "refused C P R claim K capital G",
    },
    Form {
        section: Section::Alone,
        first: "\"kind\":\"refused\"",
        pattern: "refused C W",
    },
    Form {
        section: Section::Alone,
        first: "\"kind\":\"variable\"",
        pattern: "X V",
    },
];

/// The forms of the answers of a bank, in the order in which they are tried.
static BANK: [Form; 20] = [
    Form {
        section: Section::Alone,
        first: "\"kind\":\"ready\"",
        pattern: "ready",
    },
    Form {
        section: Section::Alone,
        first: "\"kind\":\"granted\"",
        pattern: "granted 3@",
    },
    Form {
        section: Section::Alone,
        first: "\"kind\":\"held\"",
        pattern: "held 3@",
    },
    Form {
        section: Section::Alone,
        first: "\"kind\":\"allowed\"",
        pattern: "allowed",
    },
    Form {
        section: Section::Alone,
        first: "\"kind\":\"queued\"",
        pattern: "queued",
    },
    Form {
        section: Section::Alone,
        first: "\"kind\":\"over claim\"",
        pattern: "over claim 4",
    },
    Form {
        section: Section::Alone,
        first: "\"kind\":\"wait cash\"",
        pattern: "wait cash 4 5",
    },
    Form {
        section: Section::Alone,
        first: "\"kind\":\"wait rest\"",
        pattern: "wait rest W",
    },
    Form {
        section: Section::Alone,
        first: "\"kind\":\"claimed\"",
        pattern: "claimed W",
    },
    Form {
        section: Section::Alone,
        first: "\"kind\":\"order\",\"text\":\"\"",
        pattern: "order",
    },
    Form {
        section: Section::Alone,
        first: "\"kind\":\"order\"",
        pattern: "order W",
    },
    Form {
        section: Section::Alone,
        first: "\"kind\":\"finishes\"",
        pattern: "finishes",
    },
    Form {
        section: Section::Alone,
        first: "\"kind\":\"lacks\"",
        pattern: "lacks 3 4",
    },
    Form {
        section: Section::Alone,
        first: "\"kind\":\"twice\"",
        pattern: "twice 3",
    },
    Form {
        section: Section::Alone,
        first: "\"kind\":\"missing\"",
        pattern: "missing 3",
    },
    Form {
        section: Section::Alone,
        first: "\"kind\":\"resource\"",
        pattern: "resource 4 capital G cash 5",
    },
    Form {
        section: Section::Alone,
        first: "\"kind\":\"job\"",
        pattern: "job 3 4 claim K holds 7 needs 6",
    },
    Form {
        section: Section::Alone,
        first: "\"kind\":\"wish\"",
        pattern: "wish 3@",
    },
    Form {
        section: Section::Alone,
        first: "\"kind\":\"memory\"",
        pattern: "memory",
    },
    Form {
        section: Section::Alone,
        first: "\"kind\":\"refused\"",
        pattern: "refused C W",
    },
];

/// Returns the forms of the answers of a debugging session.
pub(crate) fn debug_forms() -> &'static [Form]
    ensures { map plain_form result.now ≡ debug_forms }
{
    &DEBUG
}

/// Returns the forms of the answers of a bank.
pub(crate) fn bank_forms() -> &'static [Form]
    ensures { map plain_form result.now ≡ bank_forms }
{
    &BANK
}

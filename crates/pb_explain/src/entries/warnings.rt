//! The warnings of texts that are accepted.

use super::{Entry, Example, ExampleInput};

pub static W1: Entry = Entry {
    summary: "a parbegin of one arm",
    meaning: "The parbegin on this line has one arm, so that nothing runs beside it. Statements
between `begin` and `end` are one arm, and run one after another.",
    example: Some(Example {
        command: "check --warn",
        input: ExampleInput::Text(
            "process p
begin
  parbegin
    begin print 1; print 2 end
  parend
end
",
        ),
        answer: "ok
warning W1 line 3",
    }),
    mend: "Leave out the `begin` and the `end` round statements that are to run side by side:
in a parbegin each statement is an arm. If there is to be one arm, leave out
`parbegin` and `parend`.",
};

pub static W2: Entry = Entry {
    summary: "an integer that is never read",
    meaning: "The integer that is declared on this line is in no expression of its process, which
at most assigns to it. The line has the process and the integer.",
    example: Some(Example {
        command: "check --warn",
        input: ExampleInput::Text(
            "process p
begin
  integer count, total;
  count := 1;
  total := count
end
",
        ),
        answer: "ok
warning W2 line 3 p total",
    }),
    mend: "Print it or test it, or leave it out. Maybe another integer is written where this
one is meant.",
};

pub static W3: Entry = Entry {
    summary: "a capital that cannot be used",
    meaning: "There is more of the resource that is declared on this line than the claims of all
processes on it add up to. So some of it is never lent, and no request waits for it.
The line has the resource, all claims together and the capital.",
    example: Some(Example {
        command: "check --warn",
        input: ExampleInput::Text(
            "resource tape = 5;
process p begin hold 2 of tape do print 1 od end
process q begin hold 1 of tape do print 2 od end
",
        ),
        answer: "ok
warning W3 line 1 tape claims 3 capital 5",
    }),
    mend: "Lower the capital. `claims` shows the claim of each process, and a hold may be
missing or may be for too little.",
};

//! The refusals of texts by their names, amounts and claims, and of what the first format of objects cannot
//! say.

use super::{Entry, Example, ExampleInput};

pub static N1: Entry = Entry {
    summary: "too many of a kind",
    meaning: "The word after N1 says of what: over 64 `processes`, over 16 `resources`, over
64 `integers` in a process, over 16 arms in one parbegin (`fork`), or over 64
`arms` in a process, where its body counts as one.",
    example: Some(Example {
        command: "check",
        input: ExampleInput::Text(
            "process p
begin
  parbegin
    skip; skip; skip; skip; skip; skip; skip; skip; skip;
    skip; skip; skip; skip; skip; skip; skip; skip
  parend
end
",
        ),
        answer: "refused N1 fork",
    }),
    mend: "Let one process do the work of several in a loop, let one arm do the work of
several between `begin` and `end`, or use an integer again.",
};

pub static N2: Entry = Entry {
    summary: "a name that is declared twice",
    meaning: "Two resources, two processes, or two integers of one process have the same name.
The offset is that of the second declaration.",
    example: Some(Example {
        command: "check",
        input: ExampleInput::Text(
            "process p
begin
  integer x, y, x;
  skip
end
",
        ),
        answer: "refused N2 at 32",
    }),
    mend: "Rename one of the two. Integers of different processes may share a name, and so
may an integer, a resource and a process.",
};

pub static N3: Entry = Entry {
    summary: "a name that is not declared",
    meaning: "The name at this offset is used as an integer or as a resource, and its process has
no such integer, or the program no such resource. Capital letters count, and the
integers of another process cannot be used.",
    example: Some(Example {
        command: "check",
        input: ExampleInput::Text(
            "process p
begin
  x := 1
end
",
        ),
        answer: "refused N3 at 18",
    }),
    mend: "Declare it: an integer right after the `begin` of its process, as in
`integer x;`, and a resource before the first process, as in
`resource tape = 2;`.",
};

pub static N4: Entry = Entry {
    summary: "an amount that is out of range",
    meaning: "There are 0 to 1,000,000 of a resource, and a hold has 1 to 1,000,000 of each of
its resources. The offset is that of the number.",
    example: Some(Example {
        command: "check",
        input: ExampleInput::Text(
            "resource tape = 2;
process p
begin
  hold 0 of tape do skip od
end
",
        ),
        answer: "refused N4 at 42",
    }),
    mend: "Write an amount within these limits. A hold of nothing is left out, with its `do`
and `od`.",
};

pub static N6: Entry = Entry {
    summary: "a resource that is named twice in a hold",
    meaning: "A hold names each of its resources once, with the whole amount. The offset is that
of the second name.",
    example: Some(Example {
        command: "check",
        input: ExampleInput::Text(
            "resource tape = 2;
process p
begin
  hold 1 of tape, 1 of tape do skip od
end
",
        ),
        answer: "refused N6 at 58",
    }),
    mend: "Add the amounts, as in `hold 2 of tape do`.",
};

pub static C1: Entry = Entry {
    summary: "a claim over the capital",
    meaning: "The claim of a process is the most of a resource that it may ever hold, read off
its text. This one is more than there is, so that the banker could not promise
that it is ever lent. Holds inside one another add up, and so do those of arms
that run side by side. The line has the process, the resource, its claim and the
capital, which is what there is of the resource.",
    example: Some(Example {
        command: "check",
        input: ExampleInput::Text(
            "resource tape = 1;
process p
begin
  hold 1 of tape do
    hold 1 of tape do skip od
  od
end
",
        ),
        answer: "refused C1 p tape claim 2 capital 1",
    }),
    mend: "Hold less, end one hold before the next begins, or raise the capital. `claims`
shows the claims of all processes, whatever the capital is.",
};

pub static E1: Entry = Entry {
    summary: "an object that the first format cannot have",
    meaning: "Only `emit --object 1` writes this: in the first format of objects a `take` has
one resource, and there are at most 32 processes.",
    example: Some(Example {
        command: "emit --object 1",
        input: ExampleInput::Text(
            "resource tape = 1;
resource disk = 1;
process p
begin
  hold 1 of tape, 1 of disk do skip od
end
",
        ),
        answer: "refused E1",
    }),
    mend: "Write the object in the second format, by `emit` alone, or use a hold inside a
hold, one for each resource.",
};

//! The refusals of objects, by their text and by their code.

use super::{Entry, Example, ExampleInput};

pub static O1: Entry = Entry {
    summary: "a line of an object that is not of its form",
    meaning: "The line that begins at this offset is not the line that an object has there, is
not ended by a line feed, is missing, or comes after the end. Each object has one
spelling: single spaces, and no zeros before a number.",
    example: Some(Example {
        command: "exec",
        input: ExampleInput::Text(
            "PBO 2
resources none
",
        ),
        answer: "refused O1 at 6",
    }),
    mend: "Let `emit` write objects, and `migrate` write those of the first format anew. If
an object was changed by hand, look at this line: docs/FORMATS.md, \"Object text\",
has the form of each.",
};

pub static O2: Entry = Entry {
    summary: "a number of an object that is out of range",
    meaning: "The line that begins at this offset has its form, and a number in it is out of
range: an object has at most 16 resources and 64 processes, and a process at most
64 integers, 64 arms and 40,000 instructions. At 0 it also says that the object is
over 4,194,304 bytes.",
    example: Some(Example {
        command: "exec",
        input: ExampleInput::Text(
            "PBO 2
resources 17
",
        ),
        answer: "refused O2 at 6",
    }),
    mend: "Let `emit` write objects. The ranges of all numbers are in docs/FORMATS.md, \"Object
text\".",
};

pub static V1: Entry = Entry {
    summary: "arms that are not sound",
    meaning: "Arm 0 does not begin at place 0, the places at which arms begin do not rise, a jump
leaves its arm, or the last instruction of an arm is neither `end` nor `jump`.",
    example: Some(Example {
        command: "exec",
        input: ExampleInput::Text(
            "PBO 2
resources 0
processes 1
process p
vars 0
arms 1
claims
arm 0
code 2
0 push 1
0 print
",
        ),
        answer: "refused V1",
    }),
    mend: "End each arm with `end`, and let jumps stay within the places of their arm.",
};

pub static V2: Entry = Entry {
    summary: "operands that do not fit",
    meaning: "There is no single number of operands for a place that is reached: an instruction
takes an operand that is not there, two ways to a place bring different numbers of
them, or there are more than 256.",
    example: Some(Example {
        command: "exec",
        input: ExampleInput::Text(
            "PBO 2
resources 0
processes 1
process p
vars 0
arms 1
claims
arm 0
code 2
0 print
0 end
",
        ),
        answer: "refused V2",
    }),
    mend: "Push what an instruction takes, and leave the same number of operands on each way
to a place.",
};

pub static V3: Entry = Entry {
    summary: "an integer or a resource that is not there",
    meaning: "An instruction names an integer or a resource by a number that the object does not
have. Both are counted from 0.",
    example: Some(Example {
        command: "exec",
        input: ExampleInput::Text(
            "PBO 2
resources 0
processes 1
process p
vars 0
arms 1
claims
arm 0
code 3
0 load 0
0 print
0 end
",
        ),
        answer: "refused V3",
    }),
    mend: "Use a smaller number, or raise the number of integers in the line `vars`.",
};

pub static V4: Entry = Entry {
    summary: "holdings that do not fit",
    meaning: "There is no single list of what is held at a place that is reached: a `give` does not
return what was taken last, two ways to a place hold different lists, or more than
256 takes are open.",
    example: Some(Example {
        command: "exec",
        input: ExampleInput::Text(
            "PBO 2
resources 1
resource tape 1
processes 1
process p
vars 0
arms 1
claims 1
arm 0
code 2
0 give 0 1
0 end
",
        ),
        answer: "refused V4",
    }),
    mend: "Let each `give` have the resources and amounts of the last `take` before it that is
still open, on each way to it.",
};

pub static V5: Entry = Entry {
    summary: "operands or holdings that are left at an end",
    meaning: "An arm can come to its `end` with operands that nothing took, or with something that
it did not give back.",
    example: Some(Example {
        command: "exec",
        input: ExampleInput::Text(
            "PBO 2
resources 0
processes 1
process p
vars 0
arms 1
claims
arm 0
code 2
0 push 1
0 end
",
        ),
        answer: "refused V5",
    }),
    mend: "Print or store each operand, and give back what was taken, before the `end`.",
};

pub static V6: Entry = Entry {
    summary: "forks and joins that do not fit",
    meaning: "A `fork` has no `join` of the same arms right after it or a `join` no such `fork`
before it, a jump goes to a `join`, a fork starts an arm that is not there or not
above its own, or an arm above 0 is started by no fork or by two.",
    example: Some(Example {
        command: "exec",
        input: ExampleInput::Text(
            "PBO 2
resources 0
processes 1
process p
vars 0
arms 2
claims
arm 0
arm 2
code 3
0 fork 1 1
0 end
0 end
",
        ),
        answer: "refused V6",
    }),
    mend: "Write each `fork` and its `join` as a pair, and start each arm by one of them.",
};

pub static V7: Entry = Entry {
    summary: "a process that may hold more than it claims",
    meaning: "The most of a resource that the code of a process may hold at once is more than the
claim that the object says. The banker lends by claims, so a claim that is too small
could end in a deadlock.",
    example: Some(Example {
        command: "exec",
        input: ExampleInput::Text(
            "PBO 2
resources 1
resource tape 1
processes 1
process p
vars 0
arms 1
claims 0
arm 0
code 3
0 take 0 1
0 give 0 1
0 end
",
        ),
        answer: "refused V7",
    }),
    mend: "Raise the claim in the line `claims`, or take less.",
};

pub static V8: Entry = Entry {
    summary: "a claim over the capital, in an object",
    meaning: "The line `claims` of a process claims more of a resource than there is.",
    example: Some(Example {
        command: "exec",
        input: ExampleInput::Text(
            "PBO 2
resources 1
resource tape 1
processes 1
process p
vars 0
arms 1
claims 2
arm 0
code 1
0 end
",
        ),
        answer: "refused V8",
    }),
    mend: "Lower the claim, or raise the capital in the line `resource`.",
};

pub static V9: Entry = Entry {
    summary: "code that is out of its limits",
    meaning: "A count, a number or a name of the code is not one that an object may have. No input
of `parbegin` is refused so, since the lines of an object are looked at first (O1
and O2). A program that calls the verifier as a library may bring code that it made
by itself, and then this is what it is told.",
    example: None,
    mend: "Keep to the limits of docs/FORMATS.md, \"Object text\".",
};

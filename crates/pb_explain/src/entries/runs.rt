//! The refusals of pick lines, of picks, and of commands of a session.

use super::{Entry, Example, ExampleInput};

pub static K1: Entry = Entry {
    summary: "a pick line that is not of its form",
    meaning: "A pick line is `P.a COUNT`: the name of a process, a point, the number of one of its
arms, a space, and how often the pick is made, from 1 to 10,000,000. This one is not
of this form, or names a process or an arm that is not there. The offset is that of
the line, counted from after the line `%%`. `outcomes --expect` reads print lines
there, `P.a print V`, and refuses them so.",
    example: Some(Example {
        command: "replay",
        input: ExampleInput::Text(
            "process p begin print 1 end
%%
p.1 1
",
        ),
        answer: "refused K1 at 0",
    }),
    mend: "The arms of a process have numbers in the order of the text, from 0, which is its
body. Nothing but pick lines may follow the line `%%`, no empty line either.",
};

pub static K2: Entry = Entry {
    summary: "too many picks",
    meaning: "The counts of the pick lines are more than 10,000,000 in all.",
    example: Some(Example {
        command: "replay",
        input: ExampleInput::Text(
            "process p begin print 1 end
%%
p.0 10000000
p.0 1
",
        ),
        answer: "refused K2",
    }),
    mend: "Make fewer picks: record a shorter run, by `--steps`.",
};

pub static H1: Entry = Entry {
    summary: "a pick that is not enabled",
    meaning: "The pick with this number, counted from 0, cannot be made: its arm has not been
started or has ended, its process has ended or faulted, it waits at the `parend` for
its arms, or it asks for something that the banker refuses. In the example tape and
disk are lent in opposite order: `b` would keep `a` waiting, and `a` would keep `b`
waiting.",
    example: Some(Example {
        command: "replay",
        input: ExampleInput::Text(
            "resource tape = 1;
resource disk = 1;
process a
begin
  hold 1 of tape do hold 1 of disk do print 1 od od
end
process b
begin
  hold 1 of disk do hold 1 of tape do print 2 od od
end
%%
a.0 1
b.0 1
",
        ),
        answer: "refused H1 at 1",
    }),
    mend: "Leave the pick out, or make others before it. In `debug`, over the picks before this
one, `why` says why an arm does not go on.",
};

pub static G1: Entry = Entry {
    summary: "no such position",
    meaning: "The command of `debug` would go before position 0, or after the last pick; or it is
`pick`, at another position than the last, or after 10,000,000 picks.",
    example: Some(Example {
        command: "debug",
        input: ExampleInput::Text(
            "process p begin print 1 end
%%
p.0 2
%%
to 3
",
        ),
        answer: "refused G1",
    }),
    mend: "Positions go from 0 to the number of the picks. `next` and `prev` go to the events
that there are.",
};

pub static G2: Entry = Entry {
    summary: "no process of this name",
    meaning: "The command of `debug` names a process that the program does not have.",
    example: Some(Example {
        command: "debug",
        input: ExampleInput::Text(
            "process p begin print 1 end
%%
%%
vars q
",
        ),
        answer: "refused G2",
    }),
    mend: "`loans` has the names of all processes, if there is a resource; else look at the
text. Capital letters count.",
};

pub static G3: Entry = Entry {
    summary: "no such arm",
    meaning: "The command of `debug` names an arm that its process does not have.",
    example: Some(Example {
        command: "debug",
        input: ExampleInput::Text(
            "process p begin print 1 end
%%
%%
line p.1
",
        ),
        answer: "refused G3",
    }),
    mend: "`threads P` lists the arms of process P. Arm 0 is its body.",
};

pub static G4: Entry = Entry {
    summary: "not a command",
    meaning: "The line is not a command of `debug`, or it names an integer that the process does
not have. Commands have single spaces, and numbers of at most eight digits.",
    example: Some(Example {
        command: "debug",
        input: ExampleInput::Text(
            "process p begin print 1 end
%%
%%
jump 3
",
        ),
        answer: "refused G4",
    }),
    mend: "`help` lists the forms of all commands, and `vars P` the integers of process P.",
};

//! The refusals of commands of the bank.

use super::{Entry, Example, ExampleInput};

pub static B1: Entry = Entry {
    summary: "not a command of the bank",
    meaning: "The line is not a command of `bank`, or is over 4,096 bytes. Words are parted by
spaces, and the amounts of several resources by commas.",
    example: Some(Example {
        command: "bank",
        input: ExampleInput::Text(
            "resource tape 1
resource disk 1
job a 1 tape 1 disk
",
        ),
        answer: "ready
ready
refused B1 not a command: a comma is missing before 1
ready",
    }),
    mend: "`help` lists the forms of all commands. In the example `, 1 disk` would be right:
there a comma is missing.",
};

pub static B2: Entry = Entry {
    summary: "an amount that is out of range",
    meaning: "An amount is a number in decimal from 0 to 1,000,000, without zeros before it. This
one is another, or is no number.",
    example: Some(Example {
        command: "bank",
        input: ExampleInput::Text(
            "resource tape two
",
        ),
        answer: "refused B2 an amount is not in 0..=1000000: two
ready",
    }),
    mend: "Write a number in the place of the amount: first how many, then of which resource.
Only `resource` has its name first.",
};

pub static B3: Entry = Entry {
    summary: "a name that jobs and resources cannot have",
    meaning: "A name of a job or of a resource has 1 to 32 bytes: letters, digits, `_`, `-` and
`.`. This one is longer, or has others.",
    example: Some(Example {
        command: "bank",
        input: ExampleInput::Text(
            "resource tape/disk 1
",
        ),
        answer: "refused B3 not a name of 1 to 32 bytes
ready",
    }),
    mend: "Take another name. Capital letters and small ones are different.",
};

pub static B4: Entry = Entry {
    summary: "no resource of this name",
    meaning: "The bank has no resource of the name that the command has after an amount.",
    example: Some(Example {
        command: "bank",
        input: ExampleInput::Text(
            "resource tape 1
job a 1 tpae
",
        ),
        answer: "ready
refused B4 no such resource: tpae
ready",
    }),
    mend: "`state` lists all resources with their capital. Resources come before the first job.",
};

pub static B5: Entry = Entry {
    summary: "no job of this name",
    meaning: "The bank has no job of this name: none has joined under it, or it has left.",
    example: Some(Example {
        command: "bank",
        input: ExampleInput::Text(
            "resource tape 1
job a 1 tape
ask b 1 tape
",
        ),
        answer: "ready
ready
refused B5 no such job: b
ready",
    }),
    mend: "`state` lists all jobs. A job joins by `job`, with its claims.",
};

pub static B6: Entry = Entry {
    summary: "a resource that is named twice in a command",
    meaning: "The command names this resource in two of its amounts.",
    example: Some(Example {
        command: "bank",
        input: ExampleInput::Text(
            "resource tape 2
job a 1 tape, 1 tape
",
        ),
        answer: "ready
refused B6 a resource is named twice: tape
ready",
    }),
    mend: "Write one amount of each resource: `job a 2 tape`.",
};

pub static B7: Entry = Entry {
    summary: "a name that is taken",
    meaning: "A resource with this name is there already, or a job with it has joined and has not
left.",
    example: Some(Example {
        command: "bank",
        input: ExampleInput::Text(
            "resource tape 1
resource tape 2
",
        ),
        answer: "ready
refused B7 the name is taken: tape
ready",
    }),
    mend: "Take another name; that of a job is free again when the job has left. A job and a
resource may have the same name.",
};

pub static B8: Entry = Entry {
    summary: "a resource that comes after a job",
    meaning: "Resources come before the first job, also if all jobs have left.",
    example: Some(Example {
        command: "bank",
        input: ExampleInput::Text(
            "resource tape 1
job a 1 tape
resource disk 1
",
        ),
        answer: "ready
ready
refused B8 a job was there before the resource
ready",
    }),
    mend: "Say all resources first, or begin another session.",
};

pub static B9: Entry = Entry {
    summary: "no room for another resource or job",
    meaning: "A bank has at most 16 resources, and at most 64 jobs at a time. In the example a
seventeenth resource comes.",
    example: Some(Example {
        command: "bank",
        input: ExampleInput::Text(
            "resource r1 1
resource r2 1
resource r3 1
resource r4 1
resource r5 1
resource r6 1
resource r7 1
resource r8 1
resource r9 1
resource r10 1
resource r11 1
resource r12 1
resource r13 1
resource r14 1
resource r15 1
resource r16 1
resource r17 1
",
        ),
        answer: "ready
ready
ready
ready
ready
ready
ready
ready
ready
ready
ready
ready
ready
ready
ready
ready
refused B9 there are as many as there can be: r17
ready",
    }),
    mend: "Let a job leave first; or put resources together that are always used together.",
};

pub static B10: Entry = Entry {
    summary: "a claim of a job over the capital",
    meaning: "The job would claim more of this resource than there is. It could not get all of it
at any time, so it could not finish.",
    example: Some(Example {
        command: "bank",
        input: ExampleInput::Text(
            "resource tape 1
job a 2 tape
",
        ),
        answer: "ready
refused B10 a claim is over the capital: tape
ready",
    }),
    mend: "Claim at most the capital; `state` has it. The most that a job will hold at a time
is enough.",
};

pub static B11: Entry = Entry {
    summary: "more than the job holds",
    meaning: "The job would give back more of this resource than it holds.",
    example: Some(Example {
        command: "bank",
        input: ExampleInput::Text(
            "resource tape 2
job a 2 tape
ask a 1 tape
give a 2 tape
",
        ),
        answer: "ready
ready
granted a 1 tape
ready
refused B11 the job does not hold as much: tape
ready",
    }),
    mend: "`state` says what each job holds. `leave` gives all back.",
};

pub static B12: Entry = Entry {
    summary: "a wish beside another one of the same job",
    meaning: "The job has a wish in the queue. It can have one at a time, and asks for nothing
else until then.",
    example: Some(Example {
        command: "bank",
        input: ExampleInput::Text(
            "resource tape 1
job a 1 tape
job b 1 tape
ask a 1 tape
want b 1 tape
ask b 1 tape
",
        ),
        answer: "ready
ready
ready
granted a 1 tape
ready
queued
ready
refused B12 the job has a wish in the queue: b
ready",
    }),
    mend: "Wait until the line `granted` tells that the wish was granted, or take it back by
`drop`.",
};

pub static B13: Entry = Entry {
    summary: "no wish of this job",
    meaning: "The job has no wish in the queue: it has none yet, or the wish was granted or taken
back.",
    example: Some(Example {
        command: "bank",
        input: ExampleInput::Text(
            "resource tape 1
job a 1 tape
drop a
",
        ),
        answer: "ready
ready
refused B13 the job has no wish in the queue: a
ready",
    }),
    mend: "Nothing is to be taken back. `state` lists the wishes, in the order of the queue.",
};

pub static B14: Entry = Entry {
    summary: "a claim below what the job holds",
    meaning: "The job would claim less of this resource than it holds and its wish in the queue
asks for together.",
    example: Some(Example {
        command: "bank",
        input: ExampleInput::Text(
            "resource tape 2
job a 2 tape
ask a 2 tape
claim a 1 tape
",
        ),
        answer: "ready
ready
granted a 2 tape
ready
refused B14 the job holds or waits for more: tape
ready",
    }),
    mend: "Let the job give back first, or take back its wish by `drop`. `state` says what it
holds.",
};
